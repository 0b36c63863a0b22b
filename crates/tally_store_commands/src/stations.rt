//! The stations of a constituency, with their returns.

ghost use Rattle.std.specs.Prelude.{◌≡◌, None, IfErr, IfOk};
ghost use Rattle.tally_setup.specs.Setup.{constituency_with};
ghost use Rattle.tally_store_entries.specs.internal.Entries.{Finds};
ghost use Rattle.tally_store_schema.specs.internal.Inside.{OnlyReads};
ghost use Rattle.tally_store_commands.specs.internal.Stations.{FindsStations};

use crate::shown::see_open;
use sqlite::{Alter, Error, Transaction};
use std::alloc::Global;
use tally_returns::{Refusal, StationRow};
use tally_setup::{Code, Setup};
use tally_store_entries::find_return;

/// Shows the stations of the constituency of a code in the setup's order, each with its return
/// where it has one. Nothing is written.
pub fn show_returns_in<S: Alter>(
    alloc: Global,
    tx: &mut Transaction<'_, S>,
    setup: &Setup,
    code: Code,
) -> Result<Result<Vec<StationRow>, Refusal>, Error>
    ensures reads { OnlyReads S.Store tx.old tx.new result }
    ensures refused { IfOk result (λ shown. IfErr shown (λ why.
        why ≡ Refusal.NoConstituency × (constituency_with code setup.now ≡ None))) }
    ensures shown { Finds S.Store (FindsStations setup.now code) tx.old tx.new result }
{
    let Some(con) = setup.con(code) else {
        see_open(tx)?;
        return Ok(Err(Refusal::NoConstituency));
    };
    let stations = con.stations.as_slice();
    let mut rows = Vec::new(alloc);
    for station in stations {
        let found = find_return(alloc, tx, setup, station.code)?;
        rows.push(StationRow {
            station: station.code,
            electors: station.electors,
            found,
        })?;
    }
    Ok(Ok(rows))
}
