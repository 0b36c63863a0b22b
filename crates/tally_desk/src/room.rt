//! Room for answers.

ghost use Rattle.std.specs.Prelude.{◌≡◌, ◌≤◌, [], Err, IfSome, length, vec_capacity};
ghost use Rattle.tally_frac.specs.Limits.{most_lists};
ghost use Rattle.tally_desk_answer.specs.Answer.{answer_text};
ghost use Rattle.tally_desk_answer.specs.Import.{import_text};
ghost use Rattle.tally_desk_answer.specs.Outcome.{outcome_text};
ghost use Rattle.tally_desk_answer.specs.Words.{word_text};
ghost use Rattle.tally_desk_answer.specs.declared.outcome.TheConstants.{ANSWER_ROOM, BODY_ROOM};
ghost use Rattle.tally_desk_answer.specs.declared.status.AnswerStatus.TheVariants as status;
ghost use Rattle.tally_desk.specs.Requests.{refusal_text};

use std::alloc::Global;
use tally_desk_answer::{
    ANSWER_ROOM, AnswerStatus, BODY_ROOM, BodyType, Word, answer_of, write_import, write_outcome,
    write_word,
};
use tally_returns::{Refusal, Reply};
use tally_returns_rows::ImportCount;
use tally_setup::ListEntry;

/// Room for an answer, which is reserved before the office is asked: what is written into it takes
/// no memory.
#[derive(Drop)]
pub(crate) struct Room {
    out: Vec<u8>,
    body: Vec<u8>,
    ghost no_answer: { out.items ≡ [] },
    ghost no_body: { body.items ≡ [] },
    ghost room: { ANSWER_ROOM ≤ vec_capacity out },
    ghost body_room: { BODY_ROOM ≤ vec_capacity body },
}

impl Room {
    pub(crate) fn reserve(alloc: Global) -> Option<Room> {
        let out = Vec::with_capacity(alloc, ANSWER_ROOM).ok()?;
        let body = Vec::with_capacity(alloc, BODY_ROOM).ok()?;
        Some(Room { out, body })
    }

    /// The answer to a command on a constituency with these lists, or on a station of one.
    pub(crate) fn outcome(self, lists: &[ListEntry], outcome: &Result<Reply, Refusal>) -> Vec<u8>
        requires { length lists.now ≤ most_lists }
        ensures { result.items ≡ outcome_text lists.now outcome.now }
    {
        let Room { mut out, mut body } = self;
        write_outcome(&mut out, &mut body, lists, outcome);
        out
    }

    /// The answer that a refusal has, of what the setup does not have.
    pub(crate) fn refusal(self, refusal: Refusal) -> Vec<u8>
        ensures { result.items ≡ refusal_text refusal }
    {
        self.outcome(&[], &Err(refusal))
    }

    /// The answer to an import.
    pub(crate) fn import(self, count: &ImportCount) -> Vec<u8>
        ensures { result.items ≡ import_text count.now }
    {
        let Room { mut out, mut body } = self;
        write_import(&mut out, &mut body, count);
        out
    }

    /// An answer that is a word alone.
    pub(crate) fn word(self, word: Word) -> Vec<u8>
        ensures { result.items ≡ word_text word }
    {
        let Room { mut out, body: _ } = self;
        write_word(&mut out, word);
        out
    }
}

/// An answer of this type that shows what was asked for.
pub(crate) fn done_answer(alloc: Global, body: BodyType, text: &[u8]) -> Option<Vec<u8>>
    ensures { IfSome result (λ out. out.items ≡ answer_text status.Done body text.now) }
{
    answer_of(alloc, AnswerStatus::Done, body, text).ok()
}
