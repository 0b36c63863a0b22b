//! The answers to commands.

ghost use Rattle.std.specs.Prelude.{◌≡◌, ◌≤◌, ◌+◌, ◌++◌, List, [], codes, length, vec_len};
ghost use Rattle.std.specs.Prelude.{vec_capacity};
ghost use Rattle.tally_frac.specs.Limits.{most_lists};
ghost use Rattle.tally_setup.specs.Constituency.{ListEntry};
ghost use Rattle.tally_desk_answer.specs.Outcome.{reply_body, group_text};
ghost use Rattle.tally_desk_answer.specs.Outcome.{refusal_status, members_before, members_after};
ghost use Rattle.tally_desk_answer.specs.Outcome.{word_member, refusal_members, refusal_body};
ghost use Rattle.tally_desk_answer.specs.Outcome.{outcome_answer, outcome_text};

use crate::answer::write_answer;
use crate::group::push_group;
use crate::push::{push, push_around};
use crate::status::{AnswerStatus, BodyType};
use tally_returns::{ListSet, Refusal, Reply};
use tally_setup::ListEntry;

/// The room that an answer to a command needs.
pub const ANSWER_ROOM: usize = 2_048;

/// The room that the body of one needs: 60 codes of 16 characters, and what is around them.
pub const BODY_ROOM: usize = 1_280;

fn status_of(outcome: &Result<Reply, Refusal>) -> AnswerStatus
    ensures { (lists : List ListEntry) → result ≡ (outcome_answer lists outcome.now).0 }
{
    match outcome {
        Ok(_) => AnswerStatus::Done,
        Err(refusal) => status_of_refusal(refusal),
    }
}

fn status_of_refusal(refusal: &Refusal) -> AnswerStatus
    ensures { result ≡ refusal_status refusal.now }
{
    match refusal {
        Refusal::NoStation | Refusal::NoConstituency => AnswerStatus::NotFound,
        Refusal::NoCandidate | Refusal::NoReturn => AnswerStatus::NotFound,
        Refusal::BadCounts | Refusal::BadNote | Refusal::TooManyVotes => AnswerStatus::BadRequest,
        Refusal::Memory | Refusal::Store => AnswerStatus::Unavailable,
        _ => AnswerStatus::Conflict,
    }
}

fn push_reply(out: &mut Vec<u8>, reply: &Reply)
    requires { vec_len out.old + 64 ≤ vec_capacity out.old }
    ensures items { out.new.items ≡ out.old.items ++ reply_body reply.now }
    ensures len { vec_len out.new ≤ vec_len out.old + 64 }
    ensures room { vec_capacity out.old ≤ vec_capacity out.new }
{
    match reply {
        Reply::Lodged { rev } => push_around(out, b"{\"ok\":\"lodged\",\"rev\":", *rev, b"}"),
        Reply::Same { rev } => push_around(out, b"{\"ok\":\"same\",\"rev\":", *rev, b"}"),
        Reply::Moved { rev } => push_around(out, b"{\"ok\":\"moved\",\"rev\":", *rev, b"}"),
        Reply::Edition { edition } => {
            push_around(out, b"{\"edition\":", *edition, b",\"ok\":\"edition\"}")
        }
        Reply::Vacated { next: Some(next) } => {
            push_around(out, b"{\"next\":", *next, b",\"ok\":\"vacated\"}")
        }
        Reply::Vacated { next: None } => push(out, b"{\"next\":null,\"ok\":\"vacated\"}"),
        Reply::Return(_) | Reply::Con(_) | Reply::Progress(_) => {}
    }
}

/// Appends a text, a text and a text.
fn push_between(out: &mut Vec<u8>, before: &[u8], text: &[u8], after: &[u8])
    requires { vec_len out.old + length before.now + length text.now + length after.now
        ≤ vec_capacity out.old }
    ensures items { out.new.items ≡ out.old.items ++ (before.now ++ text.now ++ after.now) }
    ensures len { vec_len out.new
        ≡ vec_len out.old + length before.now + length text.now + length after.now }
    ensures room { vec_capacity out.old ≤ vec_capacity out.new }
{
    push(out, before);
    push(out, text);
    push(out, after);
}

fn push_group_member(out: &mut Vec<u8>, lists: &[ListEntry], group: &ListSet)
    requires few { length lists.now ≤ most_lists }
    requires room { vec_len out.old + 1152 ≤ vec_capacity out.old }
    ensures items { out.new.items
        ≡ out.old.items ++ (codes "\"group\":" ++ group_text lists.now group.now ++ codes ",") }
    ensures len { vec_len out.new ≤ vec_len out.old + 1152 }
    ensures room { vec_capacity out.old ≤ vec_capacity out.new }
{
    push(out, b"\"group\":");
    push_group(out, lists, group);
    push(out, b",");
}

/// Appends what a refusal says before its number.
fn push_before(out: &mut Vec<u8>, lists: &[ListEntry], refusal: &Refusal)
    requires few { length lists.now ≤ most_lists }
    requires room { vec_len out.old + 1152 ≤ vec_capacity out.old }
    ensures items { out.new.items ≡ out.old.items ++ members_before lists.now refusal.now }
    ensures len { vec_len out.new ≤ vec_len out.old + 1152 }
    ensures room { vec_capacity out.old ≤ vec_capacity out.new }
{
    match refusal {
        Refusal::Stale { now } => push_around(out, b"\"now\":", *now, b","),
        Refusal::NotAllClosed { left } => push_around(out, b"\"left\":", *left, b","),
        Refusal::LotWrongGroup { group } => push_group_member(out, lists, group),
        Refusal::LotMissing { group, .. } => push_group_member(out, lists, group),
        _ => {}
    }
}

/// Appends what a refusal says after its number.
fn push_after(out: &mut Vec<u8>, refusal: &Refusal)
    requires { vec_len out.old + 32 ≤ vec_capacity out.old }
    ensures items { out.new.items ≡ out.old.items ++ members_after refusal.now }
    ensures len { vec_len out.new ≤ vec_len out.old + 32 }
    ensures room { vec_capacity out.old ≤ vec_capacity out.new }
{
    match refusal {
        Refusal::Differs { rev } => push_around(out, b"\"rev\":", *rev, b","),
        Refusal::WrongStatus { status } => {
            push_between(out, b"\"status\":\"", status.word().as_bytes(), b"\",")
        }
        Refusal::LotMissing { seats, .. } => push_around(out, b"\"seats\":", *seats, b","),
        _ => {}
    }
}

fn push_word(out: &mut Vec<u8>, refusal: &Refusal)
    requires { vec_len out.old + 32 ≤ vec_capacity out.old }
    ensures items { out.new.items ≡ out.old.items ++ word_member refusal.now }
    ensures len { vec_len out.new ≤ vec_len out.old + 32 }
    ensures room { vec_capacity out.old ≤ vec_capacity out.new }
{
    push_between(out, b"\"word\":\"", refusal.word().as_bytes(), b"\"}");
}

fn push_members(out: &mut Vec<u8>, lists: &[ListEntry], refusal: &Refusal)
    requires few { length lists.now ≤ most_lists }
    requires room { vec_len out.old + BODY_ROOM ≤ vec_capacity out.old }
    ensures items { out.new.items ≡ out.old.items ++ refusal_members lists.now refusal.now }
    ensures len { vec_len out.new ≤ vec_len out.old + BODY_ROOM }
    ensures room { vec_capacity out.old ≤ vec_capacity out.new }
{
    push(out, b"{");
    push_before(out, lists, refusal);
    push_around(out, b"\"refused\":", refusal.number(), b",");
    push_after(out, refusal);
    push_word(out, refusal);
}

fn push_refusal(out: &mut Vec<u8>, lists: &[ListEntry], refusal: &Refusal)
    requires few { length lists.now ≤ most_lists }
    requires room { vec_len out.old + BODY_ROOM ≤ vec_capacity out.old }
    ensures items { out.new.items ≡ out.old.items ++ refusal_body lists.now refusal.now }
    ensures len { vec_len out.new ≤ vec_len out.old + BODY_ROOM }
    ensures room { vec_capacity out.old ≤ vec_capacity out.new }
{
    match refusal {
        Refusal::Memory | Refusal::Store => {
            push(out, b"{");
            push_word(out, refusal);
        }
        _ => push_members(out, lists, refusal),
    }
}

fn push_outcome(out: &mut Vec<u8>, lists: &[ListEntry], outcome: &Result<Reply, Refusal>)
    requires few { length lists.now ≤ most_lists }
    requires room { vec_len out.old + BODY_ROOM ≤ vec_capacity out.old }
    ensures items { out.new.items ≡ out.old.items ++ (outcome_answer lists.now outcome.now).1 }
    ensures len { vec_len out.new ≤ vec_len out.old + BODY_ROOM }
    ensures room { vec_capacity out.old ≤ vec_capacity out.new }
{
    match outcome {
        Ok(reply) => push_reply(out, reply),
        Err(refusal) => push_refusal(out, lists, refusal),
    }
}

/// Writes the answer to a command on a constituency with these lists, or on a station of one, by
/// way of its body. It takes no memory.
pub fn write_outcome(
    out: &mut Vec<u8>,
    body: &mut Vec<u8>,
    lists: &[ListEntry],
    outcome: &Result<Reply, Refusal>,
)
    requires empty { out.old.items ≡ [] }
    requires no_body { body.old.items ≡ [] }
    requires few { length lists.now ≤ most_lists }
    requires room { ANSWER_ROOM ≤ vec_capacity out.old }
    requires body_room { BODY_ROOM ≤ vec_capacity body.old }
    ensures { out.new.items ≡ outcome_text lists.now outcome.now }
{
    push_outcome(body, lists, outcome);
    write_answer(out, status_of(outcome), BodyType::Json, body);
}
