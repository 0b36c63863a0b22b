//! Scripts and imports over a keeper that fails as a disk does. While it has turns it answers as
//! other keepers do, and from then on it refuses everything. 23 is Store.

use crate::frail::Frail;
use crate::setups::fresh;
use std::alloc::Global;
use std::test::*;
use tally_core::Keeper;
use tally_test_scripts::{TWIN_TOWN, first_wrong_of_run, setups_and_scripts, text_of_import_from};

/// A new keeper that takes this many requests and imports.
fn frail(alloc: Global, setup: &str, turns: u32) -> Result<Frail, Fail> {
    Ok(Frail {
        book: fresh(alloc, setup)?,
        turns,
        shut: false,
        clean: true,
    })
}

/// Fails where the first wrong line of a script, with the answer to it, is not this one. It is
/// empty where no line is wrong.
fn check_wrong<K: Keeper>(
    alloc: Global,
    keeper: &mut K,
    script: &str,
    wanted: &str,
) -> Result<(), Fail> {
    let wrong = first_wrong_of_run(alloc, keeper, script)?;
    if wrong.as_str() == wanted {
        return Ok(());
    }
    Err(Fail::from(wrong))
}

/// The commands of a script, each of them refused.
fn all_refused(alloc: Global, script: &str) -> Result<String, Fail> {
    let mut refused = String::new(alloc);
    for line in script.lines() {
        let (ask, _answer) = line.split_once(" = ").ok_or("no answer")?;
        writeln!(refused, "{ask} = refused 23")?;
    }
    Ok(refused)
}

/// Fails where for a keeper with this many turns the first wrong line of a script is not this one,
/// or where afterwards it does not refuse each of its commands.
fn check_turns(
    alloc: Global,
    setup: &str,
    script: &str,
    turns: u32,
    wanted: &str,
) -> Result<(), Fail> {
    let mut keeper = frail(alloc, setup, turns)?;
    check_wrong(alloc, &mut keeper, script, wanted)?;
    let refused = all_refused(alloc, script)?;
    check_wrong(alloc, &mut keeper, refused.as_str(), "")
}

/// Fails where a keeper with turns for the first lines of a script, from none of them to all, does
/// not answer just those.
fn check_each_turn(alloc: Global, setup: &str, script: &str) -> Result<(), Fail> {
    let mut turns = 0u32;
    for line in script.lines() {
        let wanted = format!(in alloc; "{line}, and not refused 23")?;
        check_turns(alloc, setup, script, turns, wanted.as_str())?;
        turns = turns.checked_add(1).ok_or("too many lines")?;
    }
    check_turns(alloc, setup, script, turns, "")
}

#[test]
fn scripts_with_turns_enough_and_too_few(rt: HostRuntime) -> Result<(), Fail> {
    let alloc = rt.alloc();
    for (setup, script) in &setups_and_scripts(alloc)? {
        let setup = setup.as_str();
        check_wrong(alloc, &mut frail(alloc, setup, u32::MAX)?, script, "")?;
        check_each_turn(alloc, setup, script)?;
    }
    Ok(())
}

const RETURNS: &[u8] = b"station,slip,blank,spoiled,A,B\ns1,p1,0,0,100,100\n";

const LODGED: &str =
    "Ok(ImportCount { lodged: 1, same: 0, differs: 0, refused: 0, bad: 0, first: None })";

/// Fails where an import of these returns comes to something else.
fn check_import<K: Keeper>(alloc: Global, keeper: &mut K, wanted: &str) -> Result<(), Fail> {
    let got = text_of_import_from(alloc, keeper, RETURNS)?;
    if got.as_str() == wanted {
        return Ok(());
    }
    Err(Fail::from(got))
}

/// Fails where a keeper with this many turns answers an import otherwise, or the next one, or where
/// another return is recorded then.
fn check_turns_of_imports(
    alloc: Global,
    turns: u32,
    wanted: &str,
    recorded: &str,
) -> Result<(), Fail> {
    let mut keeper = frail(alloc, TWIN_TOWN, turns)?;
    check_import(alloc, &mut keeper, wanted)?;
    check_import(alloc, &mut keeper, "Err(Store)")?;
    check_wrong(alloc, &mut keeper, "return s1 = refused 23", "")?;
    check_wrong(alloc, &mut keeper.book, recorded, "")
}

// 8 is NoReturn.
#[test]
fn an_import_takes_a_turn(rt: HostRuntime) -> Result<(), Fail> {
    let alloc = rt.alloc();
    check_import(alloc, &mut fresh(alloc, TWIN_TOWN)?, LODGED)?;
    check_turns_of_imports(alloc, 0, "Err(Store)", "return s1 = refused 8")?;
    let recorded = "return s1 = 1 p1 Received [100, 100] 0 0 ";
    check_turns_of_imports(alloc, 1, LODGED, recorded)
}
