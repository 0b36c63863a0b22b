//! What is decided of a command on the return of a station.

ghost use Rattle.std.specs.Prelude.{◌≡◌, ◌≤◌, ◌∷◌, ◌++◌, [], Ok, IfOk, IfErr, IsSome, None, OnOk};
ghost use Rattle.std.specs.Prelude.{Some, is_some};
ghost use Rattle.std.specs.Option.{ForSome, option_copied};
ghost use Rattle.tally_setup.specs.Text.{is_note};
ghost use Rattle.tally_returns.specs.Checks.{check, first_refusal, refused_or};
ghost use Rattle.tally_returns.specs.Decide.{IsDecidedMove, IsUnlessMemory, return_change_at};
ghost use Rattle.tally_returns.specs.Decide.{return_change_named};
ghost use Rattle.tally_returns.specs.Decide.{limits_named, limits_of, lodge_change, station_in};
ghost use Rattle.tally_returns.specs.Lawful.{IsLawful, IsLawfulWhereNamed, PutsLawful};
ghost use Rattle.tally_returns.specs.Lawful.{PutsLawfulWhereNamed};
ghost use Rattle.tally_returns.specs.Lodge.{counts_checks, reply_at_station};
ghost use Rattle.tally_returns.specs.declared.change.Change.TheVariants.{Same};
ghost use Rattle.tally_returns.specs.Moves.{closed_return, corrected_return, entry_checks};
ghost use Rattle.tally_returns.specs.Moves.{last_revision, may_close, may_correct, may_query};
ghost use Rattle.tally_returns.specs.Moves.{move_checks, queried_return, same_checks};
ghost use Rattle.tally_returns.specs.declared.refusal.Refusal.TheVariants.{BadNote, NoReturn};

use crate::ask::Ask;
use crate::change::Change;
use crate::counts::Counts;
use crate::lodge::{check_counts, decide_lodge};
use crate::moves::{check_move, may_close, may_correct, may_query};
use crate::refusal::Refusal;
use crate::reply::LodgeReply;
use crate::returns::Return;
use std::alloc::Global;
use tally_setup::{Code, Constituency, Entry, Station, good_note};

/// The change that a command on a return makes, or its refusal: at a station of this constituency,
/// which is certified or not, where this return or none is recorded.
pub fn decide_return(
    alloc: Global,
    con: &Constituency,
    certified: bool,
    found: Option<&Return>,
    ask: &Ask,
) -> Result<Change, Refusal>
    requires station { IsSome (limits_named con.now ask.now) }
    requires lawful { IsLawfulWhereNamed con.now ask.now (option_copied found) }
    ensures decided { IsUnlessMemory result
        (return_change_named con.now certified (option_copied found.entry) ask.now) }
    ensures lawful { IfOk result (PutsLawfulWhereNamed con.now ask.now) }
{
    let Some(code) = ask.station() else {
        return Ok(Change::Same);
    };
    let Some(station) = station_in(con, code) else {
        return Err(Refusal::NoStation);
    };
    decide_at(alloc, con, station, certified, found, ask)
}

/// As `decide_return` for a command on this station, for a caller who has looked it up.
pub fn decide_at(
    alloc: Global,
    con: &Constituency,
    station: &Station,
    certified: bool,
    found: Option<&Return>,
    ask: &Ask,
) -> Result<Change, Refusal>
    requires lawful { ForSome (option_copied found) (IsLawful (limits_of con.now station.now)) }
    ensures decided { IsUnlessMemory result
        (return_change_at con.now station.now certified (option_copied found.entry) ask.now) }
    ensures lawful { IfOk result (PutsLawful (limits_of con.now station.now)) }
{
    // Called for what its contract says: a slip is a code.
    let _slip = ask.slip();
    match ask {
        Ask::Lodge { slip, counts, .. } => decide_first(alloc, con, station, found, *slip, counts),
        Ask::Query { rev, note, .. } => decide_query(alloc, certified, found, *rev, note),
        Ask::Correct {
            rev,
            slip,
            counts,
            ..
        } => {
            check_counts_at(con, station, counts)?;
            decide_correct(alloc, certified, found, *rev, *slip, counts)
        }
        Ask::Close { rev, .. } => decide_close(alloc, con.entry, certified, found, *rev),
        Ask::Confirm {
            rev,
            slip,
            counts,
            ..
        } => {
            check_counts_at(con, station, counts)?;
            decide_confirm(alloc, certified, found, *rev, *slip, counts)
        }
        Ask::ShowReturn { .. } => decide_show(found),
        _ => Ok(Change::Same),
    }
}

/// The checks on the counts that come to a station of a constituency.
fn check_counts_at(con: &Constituency, station: &Station, counts: &Counts) -> Result<(), Refusal>
    ensures passed { OnOk result
        (first_refusal (counts_checks (limits_of con.now station.now) counts.now) ≡ None) }
    ensures refused { IfErr result (λ refusal.
        first_refusal (counts_checks (limits_of con.now station.now) counts.now)
        ≡ Some refusal) }
{
    check_counts(con.lists.len(), station.entitled(), counts)
}

fn decide_first(
    alloc: Global,
    con: &Constituency,
    station: &Station,
    found: Option<&Return>,
    slip: Code,
    counts: &Counts,
) -> Result<Change, Refusal>
    ensures { IsUnlessMemory result (lodge_change slip counts.now
        (reply_at_station (limits_of con.now station.now) (option_copied found.entry) slip
        counts.now)) }
{
    match decide_lodge(con.lists.len(), station.entitled(), found, slip, counts)? {
        LodgeReply::Lodged { .. } => {
            let counts = counts.try_copy(alloc)?;
            Ok(Change::PutReturn(Return::lodged(alloc, slip, counts)))
        }
        LodgeReply::Same { .. } => Ok(Change::Same),
    }
}

fn decide_query(
    alloc: Global,
    certified: bool,
    found: Option<&Return>,
    rev: u32,
    note: &str,
) -> Result<Change, Refusal>
    requires { ForSome (option_copied found) (λ standing. standing.rev ≤ last_revision) }
    ensures { let standing = option_copied found.entry in IsDecidedMove
        (check (is_note note.now) BadNote ∷ move_checks certified standing rev may_query)
        standing (queried_return note.now) result }
{
    if !good_note(note) {
        return Err(Refusal::BadNote);
    }
    let Some(standing) = found else {
        return Err(Refusal::NoReturn);
    };
    check_move(standing, certified, rev, may_query(standing.status))?;
    Ok(Change::PutReturn(standing.queried(alloc, note)?))
}

fn decide_correct(
    alloc: Global,
    certified: bool,
    found: Option<&Return>,
    rev: u32,
    slip: Code,
    counts: &Counts,
) -> Result<Change, Refusal>
    requires { ForSome (option_copied found) (λ standing. standing.rev ≤ last_revision) }
    ensures { let standing = option_copied found.entry in IsDecidedMove
        (move_checks certified standing rev may_correct)
        standing (corrected_return slip counts.now) result }
{
    let Some(standing) = found else {
        return Err(Refusal::NoReturn);
    };
    check_move(standing, certified, rev, may_correct(standing.status))?;
    Ok(Change::PutReturn(standing.corrected(alloc, slip, counts)?))
}

fn decide_close(
    alloc: Global,
    entries: Entry,
    certified: bool,
    found: Option<&Return>,
    rev: u32,
) -> Result<Change, Refusal>
    requires { ForSome (option_copied found) (λ standing. standing.rev ≤ last_revision) }
    ensures { let standing = option_copied found.entry in IsDecidedMove
        (move_checks certified standing rev may_close ++ entry_checks entries) standing
        closed_return result }
{
    let Some(standing) = found else {
        return Err(Refusal::NoReturn);
    };
    check_move(standing, certified, rev, may_close(standing.status))?;
    match entries {
        Entry::Single => Ok(Change::PutReturn(standing.closed(alloc)?)),
        Entry::Double => Err(Refusal::NotConfirmed),
    }
}

fn decide_confirm(
    alloc: Global,
    certified: bool,
    found: Option<&Return>,
    rev: u32,
    slip: Code,
    counts: &Counts,
) -> Result<Change, Refusal>
    requires { ForSome (option_copied found) (λ standing. standing.rev ≤ last_revision) }
    ensures { let standing = option_copied found.entry in IsDecidedMove
        (move_checks certified standing rev may_close ++ same_checks standing slip counts.now)
        standing closed_return result }
{
    let Some(standing) = found else {
        return Err(Refusal::NoReturn);
    };
    check_move(standing, certified, rev, may_close(standing.status))?;
    if !standing.is_of(slip, counts) {
        return Err(Refusal::Differs { rev: standing.rev });
    }
    Ok(Change::PutReturn(standing.closed(alloc)?))
}

fn decide_show(found: Option<&Return>) -> Result<Change, Refusal>
    ensures { result
        ≡ refused_or (first_refusal (check (is_some found.entry) NoReturn ∷ [])) (Ok Same) }
{
    match found {
        Some(_) => Ok(Change::Same),
        None => Err(Refusal::NoReturn),
    }
}

fn station_in(con: &Constituency, station: Code) -> Option<&Station>
    ensures { option_copied result ≡ station_in con.now station }
{
    con.stations.iter().find(|place| station == place.code)
}
