//! What a keeper in memory shows of the stations.

ghost use Rattle.std.specs.Prelude.{◌≡◌, ◌≢◌, map, IfErr, IfOk, Some};
ghost use Rattle.tally_keeper.specs.Shown.{ShowsReturns};
ghost use Rattle.tally_keeper.specs.Kept.{state_in};
ghost use Rattle.tally_returns.specs.StationRows.{station_row};
ghost use Rattle.tally_returns.specs.declared.refusal.Refusal.TheVariants.{Store};

use std::alloc::{AllocError, Global};
use tally_keeper::Ledger;
use tally_returns::{Refusal, StationRow};
use tally_setup::{Code, Station};

/// The stations of the constituency of a code, in the setup's order, each with a copy of its return
/// where it has one.
pub(super) fn show_returns(
    alloc: Global,
    ledger: &Ledger,
    con: Code,
) -> Result<Vec<StationRow>, Refusal>
    ensures shows { ShowsReturns ledger.now.setup (Some (state_in ledger.now)) con result
        (Some (state_in ledger.now)) }
    ensures memory { IfErr result (λ why. why ≢ Store) }
{
    let Some(found) = ledger.setup().con(con) else {
        return Err(Refusal::NoConstituency);
    };
    Ok(rows_of(alloc, ledger, &found.stations)?)
}

/// These stations, each with a copy of its return where it has one.
fn rows_of(
    alloc: Global,
    ledger: &Ledger,
    stations: &[Station],
) -> Result<Vec<StationRow>, AllocError>
    ensures { IfOk result (λ rows.
        rows.items ≡ map (station_row (state_in ledger.now).returns) stations.now) }
{
    let mut rows = Vec::with_capacity(alloc, stations.len())?;
    for station in stations {
        rows.push(row_of(alloc, ledger, station)?)?;
    }
    Ok(rows)
}

fn row_of(alloc: Global, ledger: &Ledger, station: &Station) -> Result<StationRow, AllocError>
    ensures { IfOk result (λ row. row ≡ station_row (state_in ledger.now).returns station.now) }
{
    let found = match ledger.return_at(station.code) {
        Some(standing) => Some(standing.try_copy(alloc)?),
        None => None,
    };
    Ok(StationRow {
        station: station.code,
        electors: station.electors,
        found,
    })
}
