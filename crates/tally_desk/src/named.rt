//! What the path of a message names.

ghost use Rattle.std.specs.Prelude.{◌≡◌, ◌≤◌, length, option_map, []};
ghost use Rattle.tally_frac.specs.Limits.{most_lists};
ghost use Rattle.tally_setup.specs.Constituency as value;
ghost use Rattle.tally_desk.specs.Requests.{con_in_target, station_in_target};
ghost use Rattle.tally_desk.specs.internal.Named.{lists_of};

use tally_desk_routes::{con_of_target, station_of_target};
use tally_setup::{Code, ListEntry, Setup};

/// The station or constituency of a command, by its code.
#[derive(Clone, Copy)]
pub(crate) enum Subject {
    Station(Code),
    Con(Code),
}

/// The station of the setup that a target names.
pub(crate) fn station_in_target(setup: &Setup, target: &[u8]) -> Option<Code>
    ensures { result ≡ option_map (λ named. named.0) (station_in_target setup.now target.now) }
{
    let code = station_of_target(target)?;
    setup.station(code)?;
    Some(code)
}

/// The constituency of the setup that a target names.
pub(crate) fn con_in_target(setup: &Setup, target: &[u8]) -> Option<Code>
    ensures { result ≡ option_map (λ named. named.0) (con_in_target setup.now target.now) }
{
    let code = con_of_target(target)?;
    setup.con(code)?;
    Some(code)
}

/// The lists of the constituency that a command is on, or that its station is in.
pub(crate) fn lists_of(setup: &Setup, subject: Subject) -> &[ListEntry]
    ensures lists { result.now ≡ lists_of setup.now subject }
    ensures few { length result.now ≤ most_lists }
{
    match subject {
        Subject::Station(code) => match setup.station(code) {
            Some((con, _)) => &con.lists,
            None => &[],
        },
        Subject::Con(code) => match setup.con(code) {
            Some(con) => &con.lists,
            None => &[],
        },
    }
}
