//! Which returns that were read are those of a lawful state.

ghost use Rattle.std.specs.Prelude.{◌≡◌, All, IsTrue};
ghost use Rattle.tally_store_open.specs.internal.Entries.{IsLawfulEntry, is_below, rises};

use tally_setup::Setup;
use tally_store_rows::ReturnFound;

/// Whether the code of each station is below the next.
pub(crate) fn stations_rise(entries: &[ReturnFound]) -> bool
    ensures { result ≡ rises entries.now }
{
    for i in 1..entries.len() {
        if !is_below(&entries[i - 1], &entries[i]) {
            return false;
        }
    }
    true
}

fn is_below(one: &ReturnFound, other: &ReturnFound) -> bool
    ensures { result ≡ is_below one.now other.now }
{
    one.station.as_bytes().cmp(other.station.as_bytes()).is_lt()
}

/// Whether each station is one of the setup, and each return is lawful there.
pub(crate) fn are_lawful(setup: &Setup, entries: &[ReturnFound]) -> bool
    ensures lawful { IsTrue result → All (IsLawfulEntry setup.now) entries.now }
    ensures otherwise { All (IsLawfulEntry setup.now) entries.now → IsTrue result }
{
    for entry in entries {
        if !is_lawful(setup, entry) {
            return false;
        }
    }
    true
}

fn is_lawful(setup: &Setup, entry: &ReturnFound) -> bool
    ensures lawful { IsTrue result → IsLawfulEntry setup.now entry.now }
    ensures otherwise { IsLawfulEntry setup.now entry.now → IsTrue result }
{
    match setup.station(entry.station) {
        Some((con, station)) => entry.standing.is_lawful(con, station),
        None => false,
    }
}
