//! The lines of an allotment, which the text of a recount has too.

ghost use Rattle.std.specs.Prelude.{◌≡◌, ◌<◌, ◌++◌, ℕ, [], Some, OnOk, length, slice_index_or};
ghost use Rattle.std.specs.Prelude.{string_bytes};
ghost use Rattle.std.specs.List.{flat_map};
ghost use Rattle.tally_allot_award.specs.internal.KeptPoll.{kept_poll};
ghost use Rattle.tally_report_lines.specs.Columns.{lines_from, number};
ghost use Rattle.tally_report_lines.specs.internal.Awards.{AreAwardsAmong, IsAwardAmong};
ghost use Rattle.tally_report_allotment.specs.AllotmentText.{award_lines, closing_lines};
ghost use Rattle.tally_report_allotment.specs.AllotmentText.{code_at_place, list_columns};
ghost use Rattle.tally_report_allotment.specs.AllotmentText.{lot_codes, method_part, next_part};
ghost use Rattle.tally_report_allotment.specs.AllotmentText.{quotas_line, quotas_of, short_part};
ghost use Rattle.tally_report_allotment.specs.AllotmentText.{terms_lines, total_line, won_line};
ghost use Rattle.tally_report_allotment.specs.AllotmentText.{won_lines};
ghost use Rattle.tally_report_allotment.specs.Question.{poll_asked, question};
ghost use Rattle.tally_report_allotment.specs.internal.Allotments.{details_of};

use crate::found::Found;
use crate::question::Asked;
use std::alloc::AllocError;
use tally_allot::Award;
use tally_allot_award::{HareContest, Poll};
use tally_report_lines::{
    CODE_WIDTH, base_word, lot_rule_word, method_word, push_award_of, push_left, push_number,
    push_quota_columns, push_quota_front, push_votes, push_votes_of, votes_short_at,
};
use tally_setup::{Base, Code, base_of};

/// The method and the seats.
pub(crate) fn push_method(text: &mut String, asked: &Asked) -> Result<(), AllocError>
    ensures { OnOk result (string_bytes text.new
        ≡ string_bytes text.old ++ method_part (question asked.now)) }
{
    let method = method_word(asked.profile.method);
    writeln!(text, "{method} seats {}", asked.seats)
}

/// The threshold, the rule of lots, and the lot.
pub(crate) fn push_terms(text: &mut String, asked: &Asked) -> Result<(), AllocError>
    ensures { OnOk result (string_bytes text.new
        ≡ string_bytes text.old ++ terms_lines (question asked.now)) }
{
    let threshold = asked.profile.threshold;
    let base = base_word(asked.profile.base);
    let rule = lot_rule_word(asked.profile.lot);
    writeln!(text, "threshold {threshold} base {base} rule {rule}")?;
    text.push_str("lot")?;
    push_lot(text, &asked.lists, &asked.lot)?;
    text.push_str("\n")
}

/// The codes of a lot's places, or a dash where there is none.
fn push_lot(text: &mut String, lists: &[Code], lot: &[u32]) -> Result<(), AllocError>
    ensures { OnOk result (string_bytes text.new
        ≡ string_bytes text.old ++ lot_codes lists.now lot.now) }
{
    if lot.is_empty() {
        return text.push_str(" -");
    }
    push_places(text, lists, lot)
}

/// The codes of the lists at these places, each after a space.
fn push_places(text: &mut String, lists: &[Code], places: &[u32]) -> Result<(), AllocError>
    ensures { OnOk result (string_bytes text.new
        ≡ string_bytes text.old ++ flat_map (code_at_place lists.now) places.now) }
{
    for place in places {
        push_place(text, lists, *place)?;
    }
    Ok(())
}

/// The code of the list at a place from 1, after a space, and nothing where there is no such list.
fn push_place(text: &mut String, lists: &[Code], place: u32) -> Result<(), AllocError>
    ensures { OnOk result (string_bytes text.new
        ≡ string_bytes text.old ++ code_at_place lists.now place) }
{
    text.push_str(" ")?;
    text.push_str(code_at(lists, (place as usize).saturating_sub(1)))
}

/// The code of the list at a place from 0, or an empty text.
fn code_at<'a>(lists: &'a [Code], place: usize) -> &'a str
    ensures { result.now ≡ slice_index_or lists.now place [] }
{
    match lists.get(place) {
        Some(code) => code.as_str(),
        None => "",
    }
}

/// The columns of the list at a place, which has this code and these seats.
pub(crate) fn push_list(
    text: &mut String,
    asked: &Asked,
    poll: &Poll,
    seats: u32,
    found: &Found,
    place: usize,
    code: &Code,
) -> Result<(), AllocError>
    requires place { place < length asked.now.votes.items }
    requires same { poll.now.votes.now ≡ asked.now.votes.items }
    requires poll { kept_poll poll.now ≡ poll_asked (question asked.now) }
    ensures { OnOk result (string_bytes text.new ≡ string_bytes text.old
        ++ list_columns (question asked.now) (details_of found.now) seats place code.now) }
{
    let base = base_of(asked.profile.base, &asked.votes, asked.blank);
    let (votes, is_eligible) = (poll.votes_of(place), poll.is_eligible(place));
    push_votes_of(text, code.as_str(), votes, base, is_eligible)?;
    push_seats(text, asked, seats, found, place)
}

/// The seats of a list, and under a divisor rule the votes that it is short.
fn push_seats(
    text: &mut String,
    asked: &Asked,
    seats: u32,
    found: &Found,
    place: usize,
) -> Result<(), AllocError>
    ensures { OnOk result (string_bytes text.new ≡ string_bytes text.old ++ number 5 seats
        ++ short_part (question asked.now) (details_of found.now) place) }
{
    push_number(text, u64::from(seats), 5)?;
    if asked.profile.method.divisor_rule().is_some() {
        push_votes(text, votes_short_at(&found.short, place))?;
    }
    Ok(())
}

/// The lines after those of the lists: the votes and the seats together, the list that is next,
/// and the awards or the quotas, if they are asked for.
pub(crate) fn push_closing(
    text: &mut String,
    asked: &Asked,
    poll: &Poll,
    seats: &[u32],
    found: &Found,
    with_awards: bool,
) -> Result<(), AllocError>
    requires seats { length seats.now ≡ length asked.now.lists.items }
    requires next { (m : ℕ) → found.now.next ≡ Some m → m < length asked.now.lists.items }
    requires won { AreAwardsAmong (length asked.now.lists.items) found.now.won.items }
    requires same { poll.now.votes.now ≡ asked.now.votes.items }
    requires poll { kept_poll poll.now ≡ poll_asked (question asked.now) }
    ensures { OnOk result (string_bytes text.new ≡ string_bytes text.old
        ++ closing_lines (question asked.now) seats.now (details_of found.now) with_awards) }
{
    push_total(text, asked)?;
    push_next(text, asked, found)?;
    push_awards_asked(text, asked, poll, seats, found, with_awards)
}

/// The lines of the awards, or those of the quotas, if they are asked for.
fn push_awards_asked(
    text: &mut String,
    asked: &Asked,
    poll: &Poll,
    seats: &[u32],
    found: &Found,
    with_awards: bool,
) -> Result<(), AllocError>
    requires seats { length seats.now ≡ length asked.now.lists.items }
    requires won { AreAwardsAmong (length asked.now.lists.items) found.now.won.items }
    requires same { poll.now.votes.now ≡ asked.now.votes.items }
    requires poll { kept_poll poll.now ≡ poll_asked (question asked.now) }
    ensures { OnOk result (string_bytes text.new ≡ string_bytes text.old
        ++ award_lines (question asked.now) seats.now (details_of found.now) with_awards) }
{
    if !with_awards {
        return Ok(());
    }
    push_won(text, asked, poll, seats, found)
}

/// The votes of the lists, and the seats.
fn push_total(text: &mut String, asked: &Asked) -> Result<(), AllocError>
    ensures { OnOk result (string_bytes text.new
        ≡ string_bytes text.old ++ total_line (question asked.now)) }
{
    push_left(text, "total", CODE_WIDTH)?;
    push_number(text, base_of(Base::Lists, &asked.votes, asked.blank), 12)?;
    push_number(text, u64::from(asked.seats), 18)?;
    text.push_str("\n")
}

/// Under a divisor rule the list that is next.
fn push_next(text: &mut String, asked: &Asked, found: &Found) -> Result<(), AllocError>
    requires { (m : ℕ) → found.now.next ≡ Some m → m < length asked.now.lists.items }
    ensures { OnOk result (string_bytes text.new
        ≡ string_bytes text.old ++ next_part (question asked.now) (details_of found.now)) }
{
    if asked.profile.method.divisor_rule().is_none() {
        return Ok(());
    }
    let Some(list) = found.next else {
        return text.push_str("next -\n");
    };
    let code = asked.lists[list].as_str();
    writeln!(text, "next {code}")
}

/// The lines of the awards, or those of the quotas.
fn push_won(
    text: &mut String,
    asked: &Asked,
    poll: &Poll,
    seats: &[u32],
    found: &Found,
) -> Result<(), AllocError>
    requires seats { length seats.now ≡ length asked.now.lists.items }
    requires won { AreAwardsAmong (length asked.now.lists.items) found.now.won.items }
    requires same { poll.now.votes.now ≡ asked.now.votes.items }
    requires poll { kept_poll poll.now ≡ poll_asked (question asked.now) }
    ensures { OnOk result (string_bytes text.new ≡ string_bytes text.old
        ++ won_lines (question asked.now) seats.now (details_of found.now)) }
{
    if asked.profile.method.divisor_rule().is_some() {
        return push_awards(text, &asked.lists, &found.won);
    }
    push_quota_front(text, poll, asked.seats)?;
    let contest = HareContest::new(poll, &[], asked.seats);
    push_quotas(text, &contest, seats, &asked.lists)
}

fn push_awards(text: &mut String, lists: &[Code], won: &[Award]) -> Result<(), AllocError>
    requires { AreAwardsAmong (length lists.now) won.now }
    ensures { OnOk result (string_bytes text.new
        ≡ string_bytes text.old ++ lines_from (won_line lists.now) 1 won.now) }
{
    for (index, award) in won.iter().enumerate() {
        push_award(text, lists, index as u64 + 1, award)?;
    }
    Ok(())
}

fn push_award(text: &mut String, lists: &[Code], n: u64, award: &Award) -> Result<(), AllocError>
    requires { IsAwardAmong (length lists.now) award.now }
    ensures { OnOk result (string_bytes text.new
        ≡ string_bytes text.old ++ won_line lists.now n award.now) }
{
    push_award_of(text, code_at(lists, award.list as usize - 1), n, award)
}

fn push_quotas(
    text: &mut String,
    contest: &HareContest,
    seats: &[u32],
    lists: &[Code],
) -> Result<(), AllocError>
    requires seats { length seats.now ≡ length lists.now }
    requires votes { length contest.now.poll.votes.now ≡ length lists.now }
    ensures { OnOk result (string_bytes text.new ≡ string_bytes text.old
        ++ lines_from (quotas_line (kept_poll contest.now.poll) contest.now.seats seats.now) 0
        lists.now) }
{
    for (place, code) in lists.iter().enumerate() {
        push_quota(text, contest, seats[place], place, code)?;
    }
    Ok(())
}

fn push_quota(
    text: &mut String,
    contest: &HareContest,
    seats: u32,
    place: usize,
    code: &Code,
) -> Result<(), AllocError>
    requires { place < length contest.now.poll.votes.now }
    ensures { OnOk result (string_bytes text.new ≡ string_bytes text.old
        ++ quotas_of (kept_poll contest.now.poll) contest.now.seats place code.now seats) }
{
    if !contest.poll.is_eligible(place) {
        return Ok(());
    }
    push_quota_columns(text, contest, place, code.as_str(), seats)
}
