//! Answers that are a word alone.

ghost use Rattle.std.specs.Prelude.{◌≡◌, ◌≤◌, [], length, vec_capacity};
ghost use Rattle.tally_desk_answer.specs.Words.{word_answer, word_body, word_text};
ghost use Rattle.tally_desk_answer.specs.declared.word.Word.TheVariants.{Unavailable};

use crate::answer::write_answer;
use crate::status::{AnswerStatus, BodyType};

/// The room that an answer needs that is a word alone.
pub const WORD_ROOM: usize = 320;

/// The answers in place of a reply, a refusal or a report.
#[derive(Clone, Copy)]
pub enum Word {
    /// The bytes begin with no head.
    BadHead,
    /// The first 16,384 bytes have no whole head.
    HeadTooLong,
    /// A POST without a Content-Length, or a Transfer-Encoding.
    LengthRequired,
    /// More than one Content-Length, or one that is not 1 to 18 digits.
    BadLength,
    /// A Content-Length above 1,048,576.
    BodyTooLong,
    /// The connection ended before the body did.
    EndedEarly,
    /// The target is on no route.
    NoRoute,
    /// The route takes GET, and the method is another.
    GetOnly,
    /// The route takes POST, and the method is another.
    PostOnly,
    /// The body is not the JSON that the route takes.
    BadBody,
    /// The header of an import is not the one that the constituency's lists ask for.
    BadHeader,
    /// An import has more than 20,000 rows.
    TooLong,
    /// The report is of seats, and the constituency is not certified.
    NotCertified,
    /// The report is on divisors and the seats are allotted by quotas, or the other way round.
    OtherMethod,
    /// Out of memory, or a refusal of the database: the request was not accepted. Where a commit
    /// failed, the files may hold its change, and the next opening of the database shows it.
    Unavailable,
}

/// The answer where a request was not accepted, which takes no memory.
const UNAVAILABLE: &[u8] = b"HTTP/1.1 503 Service Unavailable\r\nContent-Type: application/json\r\n\
      Content-Length: 22\r\nConnection: close\r\n\r\n{\"word\":\"unavailable\"}";

fn status_of_word(word: Word) -> AnswerStatus
    ensures { result ≡ (word_answer word).0 }
{
    match word {
        Word::LengthRequired => AnswerStatus::LengthRequired,
        Word::NoRoute => AnswerStatus::NotFound,
        Word::GetOnly => AnswerStatus::GetOnly,
        Word::PostOnly => AnswerStatus::PostOnly,
        Word::NotCertified | Word::OtherMethod => AnswerStatus::Conflict,
        Word::Unavailable => AnswerStatus::Unavailable,
        _ => AnswerStatus::BadRequest,
    }
}

fn body_of(word: Word) -> &'static [u8]
    ensures body { result.now ≡ word_body (word_answer word).1 }
    ensures short { length result.now ≤ 64 }
{
    match word {
        Word::BadHead => b"{\"word\":\"bad_head\"}",
        Word::HeadTooLong => b"{\"word\":\"head_too_long\"}",
        Word::LengthRequired => b"{\"word\":\"length_required\"}",
        Word::BadLength => b"{\"word\":\"bad_length\"}",
        Word::BodyTooLong => b"{\"word\":\"body_too_long\"}",
        Word::EndedEarly => b"{\"word\":\"ended_early\"}",
        Word::NoRoute => b"{\"word\":\"no_route\"}",
        Word::GetOnly | Word::PostOnly => b"{\"word\":\"no_method\"}",
        Word::BadBody => b"{\"word\":\"bad_body\"}",
        Word::BadHeader => b"{\"word\":\"bad_header\"}",
        Word::TooLong => b"{\"word\":\"too_long\"}",
        Word::NotCertified => b"{\"word\":\"not_certified\"}",
        Word::OtherMethod => b"{\"word\":\"other_method\"}",
        Word::Unavailable => b"{\"word\":\"unavailable\"}",
    }
}

/// Writes the answer that is a word alone into a buffer that is empty and has `WORD_ROOM`. It takes
/// no memory.
pub fn write_word(out: &mut Vec<u8>, word: Word)
    requires empty { out.old.items ≡ [] }
    requires room { WORD_ROOM ≤ vec_capacity out.old }
    ensures { out.new.items ≡ word_text word }
{
    write_answer(out, status_of_word(word), BodyType::Json, body_of(word));
}

/// The answer where a request was not accepted.
pub fn unavailable_text() -> &'static [u8]
    ensures { result.now ≡ word_text Unavailable }
{
    UNAVAILABLE
}
