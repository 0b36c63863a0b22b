//! What a stop of a file leaves of an office that is made, opened, asked or imported into, also as
//! a trial.

use crate::counts::{Case, is_whole, shows_of};
use crate::scripts::LODGED;
use std::alloc::Global;
use std::test::*;
use tally_import::Sep;
use tally_test_disks::{
    Deed, FORMER_TABLES, NO_TABLES, Rows, TABLES, are_same, contents_after, former_contents,
    no_contents, wanted,
};
use tally_test_scripts::{CERTIFIED, MORE_STATIONS, RECOUNT, RETURNS, TWIN_TOWN, import_count};

/// By how many calls each run lets more through than the one before. With 1, each call of a file is
/// stopped at in turn: some 540 stops in all, in 8 seconds as `rt test` builds them. `rt try
/// --test` is slower by far, and 10 is enough there.
const MORE: u64 = 1;

/// How many steps of the script are taken: up to the second closing. After it come only steps of
/// kinds that came before.
const STEPS: usize = 20;

/// The content before a deed of one step and after it.
fn pair(alloc: Global, before: String, after: String) -> Result<Vec<String>, Fail> {
    let mut shows = Vec::new(alloc);
    shows.push(before)?;
    shows.push(after)?;
    Ok(shows)
}

fn making(alloc: Global) -> Result<Case<'static>, Fail> {
    let before = String::from_str(alloc, NO_TABLES)?;
    let after = wanted(alloc, TABLES, TWIN_TOWN, "")?;
    Ok(Case {
        contents: no_contents(alloc),
        deed: Deed::Create(TWIN_TOWN),
        shows: pair(alloc, before, after)?,
    })
}

fn taking_over(alloc: Global) -> Result<Case<'static>, Fail> {
    let before = wanted(alloc, FORMER_TABLES, TWIN_TOWN, CERTIFIED)?;
    let after = wanted(alloc, TABLES, TWIN_TOWN, CERTIFIED)?;
    Ok(Case {
        contents: former_contents(alloc, TWIN_TOWN, CERTIFIED)?,
        deed: Deed::Open,
        shows: pair(alloc, before, after)?,
    })
}

fn importing(alloc: Global) -> Result<Case<'static>, Fail> {
    let text = format!(in alloc; "{TWIN_TOWN}{MORE_STATIONS}")?;
    let before = wanted(alloc, TABLES, text.as_str(), "")?;
    let after = wanted(alloc, TABLES, text.as_str(), LODGED)?;
    Ok(Case {
        contents: contents_after(alloc, &no_contents(alloc), Deed::Create(text.as_str()))?,
        deed: Deed::Import(Rows {
            text: RETURNS,
            sep: Sep::Comma,
            piece: 4_096,
            failure: None,
            want: import_count([3, 0, 0, 0, 0], None),
        }),
        shows: pair(alloc, before, after)?,
    })
}

/// The first steps of the script, without those that only show.
fn steps(alloc: Global) -> Result<String, Fail> {
    let mut lines = String::new(alloc);
    for line in RECOUNT
        .lines()
        .filter(|line| !line.starts_with("show"))
        .take(STEPS)
    {
        lines.push_str(line)?;
        lines.push_str("\n")?;
    }
    Ok(lines)
}

fn answering(alloc: Global, lines: &str) -> Result<Case<'_>, Fail> {
    Ok(Case {
        contents: contents_after(alloc, &no_contents(alloc), Deed::Create(TWIN_TOWN))?,
        deed: Deed::Answer(lines),
        shows: shows_of(alloc, TWIN_TOWN, lines)?,
    })
}

#[test]
fn an_office_is_made_whole_or_not_at_all(rt: HostRuntime) -> Result<(), Fail> {
    let case = making(rt.alloc())?;
    assert!(rt; is_whole(rt.alloc(), &case, MORE)?);
    Ok(())
}

#[test]
fn an_office_is_taken_over_whole_or_not_at_all(rt: HostRuntime) -> Result<(), Fail> {
    let case = taking_over(rt.alloc())?;
    assert!(rt; is_whole(rt.alloc(), &case, MORE)?);
    Ok(())
}

#[test]
fn all_rows_are_lodged_or_none(rt: HostRuntime) -> Result<(), Fail> {
    let case = importing(rt.alloc())?;
    assert!(rt; is_whole(rt.alloc(), &case, MORE)?);
    Ok(())
}

#[test]
fn a_trial_leaves_the_files_as_they_were(rt: HostRuntime) -> Result<(), Fail> {
    let alloc = rt.alloc();
    let text = format!(in alloc; "{TWIN_TOWN}{MORE_STATIONS}")?;
    let lines = "lodge s1 p1 10,20 = lodged 1\ntrial = 2 1 0 0 0";
    let made = contents_after(alloc, &no_contents(alloc), Deed::Create(text.as_str()))?;
    let lodged = contents_after(alloc, &made, Deed::Answer("lodge s1 p1 10,20 = lodged 1"))?;
    let tried = contents_after(alloc, &made, Deed::Answer(lines))?;
    assert!(rt; are_same(&lodged, &tried));
    let case = Case {
        contents: made,
        deed: Deed::Answer(lines),
        shows: shows_of(alloc, text.as_str(), lines)?,
    };
    assert!(rt; is_whole(alloc, &case, MORE)?);
    Ok(())
}

#[test]
fn a_step_is_whole_or_not_taken(rt: HostRuntime) -> Result<(), Fail> {
    let lines = steps(rt.alloc())?;
    let case = answering(rt.alloc(), lines.as_str())?;
    assert!(rt; is_whole(rt.alloc(), &case, MORE)?);
    Ok(())
}
