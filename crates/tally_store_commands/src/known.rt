//! What is known of constituencies: how many of their returns are in each status. It is found once,
//! and moves with the returns.

ghost use Rattle.std.specs.Prelude.{◌≡◌, OnOk, option_map};
ghost use Rattle.std.specs.FinMap.{get, insert};
ghost use Rattle.tally_returns.specs.Return.{StationReturn};
ghost use Rattle.tally_store_commands.specs.internal.Known.{known_of};
ghost use Rattle.tally_store_commands.specs.internal.Counting.{after_command, known_after_move};
ghost use Rattle.tally_store_commands.specs.internal.Counting.{statuses_of_row, with_move};
ghost use Rattle.tally_store_commands.specs.internal.Counting.{with_one};
ghost use Rattle.tally_store_commands.specs.internal.Counting.{without_one};

use std::alloc::AllocError;
use std::collections::BTreeMap;
use tally_returns::{Ask, ProgressRow, Return, Status};
use tally_setup::Code;
use tally_store_rows::Statuses;

/// The known facts of the constituency of a code.
pub(crate) fn known_at(known: &BTreeMap<Code, Statuses>, con: Code) -> Option<Statuses>
    ensures { result ≡ get (known_of known.now) con }
{
    known.get(&con).copied()
}

/// Sets what is known of a constituency.
pub(crate) fn remember(
    known: &mut BTreeMap<Code, Statuses>,
    con: Code,
    statuses: Statuses,
) -> Result<(), AllocError>
    ensures { OnOk result (known_of known.new ≡ insert (known_of known.old) con statuses) }
{
    known.insert(con, statuses)?;
    Ok(())
}

/// How many returns are in each status, of the row that shows how far a constituency has come.
pub(crate) fn statuses_of_row(row: &ProgressRow) -> Statuses
    ensures { result ≡ statuses_of_row row.now }
{
    Statuses {
        stations: row.stations,
        received: row.received,
        queried: row.queried,
        corrected: row.corrected,
        closed: row.closed,
    }
}

fn without_one(statuses: Statuses, status: Option<Status>) -> Statuses
    ensures { result ≡ without_one status statuses }
{
    let mut now = statuses;
    match status {
        Some(Status::Received) => now.received = now.received.saturating_sub(1),
        Some(Status::Queried) => now.queried = now.queried.saturating_sub(1),
        Some(Status::Corrected) => now.corrected = now.corrected.saturating_sub(1),
        Some(Status::Closed) => now.closed = now.closed.saturating_sub(1),
        None => {}
    }
    now
}

fn with_one(statuses: Statuses, status: Status) -> Statuses
    ensures { result ≡ with_one status statuses }
{
    let mut now = statuses;
    match status {
        Status::Received => now.received = now.received.saturating_add(1),
        Status::Queried => now.queried = now.queried.saturating_add(1),
        Status::Corrected => now.corrected = now.corrected.saturating_add(1),
        Status::Closed => now.closed = now.closed.saturating_add(1),
    }
    now
}

fn move_one(statuses: &mut Statuses, before: Option<Status>, standing: Status)
    ensures { statuses.new ≡ with_move before standing statuses.old }
{
    *statuses = without_one(with_one(*statuses, standing), before);
}

/// The status of the return of a station, if it has one.
pub(crate) fn status_found(found: &Option<Return>) -> Option<Status>
    ensures { result ≡ option_map (λ (standing : StationReturn). standing.status) found.now }
{
    match found {
        Some(standing) => Some(standing.status),
        None => None,
    }
}

/// A return of a constituency that had the one status, or was not there, has the other now.
pub(crate) fn count_move(
    known: &mut BTreeMap<Code, Statuses>,
    con: Code,
    before: Option<Status>,
    standing: Status,
)
    ensures { known_of known.new ≡ known_after_move con before standing (known_of known.old) }
{
    if let Some(statuses) = known.get_mut(&con) {
        move_one(statuses, before, standing);
    }
}

/// Counts the move of a return by a command, where the command was accepted.
pub(crate) fn count_command(
    known: &mut BTreeMap<Code, Statuses>,
    con: Code,
    command: &Ask,
    before: Option<Status>,
    accepted: bool,
)
    ensures { known_of known.new ≡
        after_command con command.now before accepted (known_of known.old) }
{
    if !accepted {
        return;
    }
    match command {
        Ask::Query { .. } => count_move(known, con, before, Status::Queried),
        Ask::Correct { .. } => count_move(known, con, before, Status::Corrected),
        Ask::Close { .. } => count_move(known, con, before, Status::Closed),
        Ask::Confirm { .. } => count_move(known, con, before, Status::Closed),
        _ => {}
    }
}
