//! What is decided of a command on a return.

ghost use Rattle.std.specs.Prelude.{◌≡◌, IsSome, IsTrue};
ghost use Rattle.std.specs.Option.{option_copied};
ghost use Rattle.tally_returns.specs.Decide.{limits_named, limits_of, station_in};
ghost use Rattle.tally_returns.specs.Lawful.{IsLawful, IsLawfulWhereNamed};

use std::alloc::Global;
use std::test::*;
use tally_core::{Ask, Change, Refusal, Return, decide_return};
use tally_setup::{Code, Constituency, Setup, Station};
use tally_test_scripts::{TWIN_TOWN, code, command, setup, text_of_refusal};

/// Whether a command may be decided: its station is one of the constituency, and the return that
/// is recorded is lawful there.
fn may_decide(con: &Constituency, found: Option<&Return>, ask: &Ask) -> bool
    ensures station { IsTrue result → IsSome (limits_named con.now ask.now) }
    ensures lawful { IsTrue result →
        IsLawfulWhereNamed con.now ask.now (option_copied found.entry) }
{
    let Some(station) = ask.station() else {
        return false;
    };
    let Some(place) = station_of(con, station) else {
        return false;
    };
    let Some(standing) = found else {
        return true;
    };
    standing.is_lawful(con, place)
}

fn station_of(con: &Constituency, station: Code) -> Option<&Station>
    ensures { option_copied result ≡ station_in con.now station }
{
    con.stations.iter().find(|place| station == place.code)
}

/// The decision on a command. One that may not be decided is answered NoStation.
fn decided(
    alloc: Global,
    con: &Constituency,
    certified: bool,
    found: Option<&Return>,
    ask: &Ask,
) -> Result<Change, Refusal> {
    if !may_decide(con, found, ask) {
        return Err(Refusal::NoStation);
    }
    decide_return(alloc, con, certified, found, ask)
}

/// Carries out what was decided, and shows it.
fn carry_out(
    alloc: Global,
    standing: &mut Option<Return>,
    decided: Result<Change, Refusal>,
) -> Result<String, Fail> {
    match decided {
        Ok(Change::PutReturn(put)) => {
            let text = format!(in alloc; "revision {}", put.rev)?;
            *standing = Some(put);
            Ok(text)
        }
        Ok(_) => Ok(String::from_str(alloc, "nothing changes")?),
        Err(refusal) => text_of_refusal(alloc, &refusal),
    }
}

/// Decides the command of a line, `COMMAND = TEXT`, and carries it out; fails where something else
/// was decided.
fn check_line(
    alloc: Global,
    con: &Constituency,
    certified: bool,
    standing: &mut Option<Return>,
    line: &'static str,
) -> Result<(), Fail> {
    let (ask, wanted) = line.split_once(" = ").ok_or("no text")?;
    let ask = command(alloc, ask)?;
    let decided = decided(alloc, con, certified, standing.as_ref(), &ask);
    if carry_out(alloc, standing, decided)?.as_str() == wanted {
        return Ok(());
    }
    Err(Fail::from(line))
}

fn check_lines(
    alloc: Global,
    con: &Constituency,
    certified: bool,
    lines: &'static str,
) -> Result<(), Fail> {
    let mut standing = None;
    for line in lines.lines() {
        check_line(alloc, con, certified, &mut standing, line)?;
    }
    Ok(())
}

// A station of 300 electors; 6 is TooManyVotes.
const OPEN: &str = "lodge s1 p1 150,150 1 = refused 6
lodge s1 p1 150,150 = revision 1
lodge s1 p1 150,150 = nothing changes
return s1 = nothing changes
query s1 1 sum = revision 2
correct s1 2 p2 1,1 = revision 3
close s1 3 = revision 4
close s1 4 = status Closed";

// 9 is Certified.
const CERTIFIED: &str = "lodge s1 p1 100,100 = revision 1
query s1 1 sum = refused 9
correct s1 1 p2 1,1 = refused 9
close s1 1 = refused 9";

fn check_in(alloc: Global, setup: &Setup) -> Result<(), Fail> {
    let con = setup.con(code("c1")?).ok_or("c1 is there")?;
    check_lines(alloc, con, false, OPEN)?;
    check_lines(alloc, con, true, CERTIFIED)
}

#[test]
fn what_is_decided_of_commands(rt: HostRuntime) -> Result<(), Fail> {
    let setup = setup(rt.alloc(), TWIN_TOWN)?;
    check_in(rt.alloc(), &setup)
}
