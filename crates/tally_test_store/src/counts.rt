//! A file stops at its first call, at a later one, and so on, until a run meets no stop. After each
//! run the files show what they showed before the step that was stopped, or what they show after
//! it.

use std::alloc::Global;
use std::test::Fail;
use tally_test_disks::{
    Contents, Deed, Done, MIXTURES, Stop, TABLES, are_same, carried_out, files_with, have_stopped,
    mixed, shown_by, stop_after, synced, wanted, written,
};

/// A deed on files of these contents, and what they show before it and after each of its steps.
#[derive(Drop)]
pub(crate) struct Case<'a> {
    pub(crate) contents: Contents,
    pub(crate) deed: Deed<'a>,
    pub(crate) shows: Vec<String>,
}

/// The content of an office of a setup before the first of these lines, and after each.
pub(crate) fn shows_of(alloc: Global, text: &str, lines: &str) -> Result<Vec<String>, Fail> {
    let mut shows = Vec::new(alloc);
    let mut done = String::new(alloc);
    shows.push(wanted(alloc, TABLES, text, "")?)?;
    for line in lines.lines() {
        done.push_str(line)?;
        done.push_str("\n")?;
        shows.push(wanted(alloc, TABLES, text, done.as_str())?)?;
    }
    Ok(shows)
}

/// More runs than a count has.
pub(crate) const MOST: u64 = 100_000;

/// Whether files of these contents show what they may after this many acknowledged steps.
pub(crate) fn check(
    alloc: Global,
    case: &Case<'_>,
    left: &Contents,
    steps: usize,
) -> Result<(), Fail> {
    let shown = shown_by(alloc, left, Deed::Look)?;
    let before = case.shows.get(steps).ok_or("no such step")?;
    let after = case.shows.get(steps.saturating_add(1)).unwrap_or(before);
    if shown.as_str() == before.as_str() || shown.as_str() == after.as_str() {
        return Ok(());
    }
    Err(Fail::from(shown))
}

/// The contents that a crash may leave of the bytes written and those synced.
fn check_left(
    alloc: Global,
    case: &Case<'_>,
    written: &Contents,
    synced: &Contents,
    steps: usize,
) -> Result<(), Fail> {
    check(alloc, case, written, steps)?;
    if are_same(written, synced) {
        return Ok(());
    }
    for mixture in MIXTURES {
        let left = mixed(alloc, written, synced, mixture)?;
        check(alloc, case, &left, steps)?;
    }
    Ok(())
}

/// Whether a file stops in a run where the files stop there.
fn stops(alloc: Global, case: &Case<'_>, stop: Stop) -> Result<bool, Fail> {
    let files = files_with(alloc, &case.contents, stop)?;
    let Done { files, steps, .. } = carried_out(alloc, files, case.deed)?;
    let has_stopped = have_stopped(&files);
    if !has_stopped && steps.saturating_add(1) != case.shows.len() {
        return Err(Fail::from("a refusal without a stop"));
    }
    let written = written(alloc, &files)?;
    let synced = synced(alloc, files)?;
    check_left(alloc, case, &written, &synced, steps)?;
    Ok(has_stopped)
}

/// How many calls one file lets through in the first run that meets no stop. Each run lets as many
/// more through than the one before.
fn counted(alloc: Global, case: &Case<'_>, of_log: bool, more: u64) -> Result<u64, Fail> {
    for run in 0..MOST {
        let calls = run.saturating_mul(more);
        if !stops(alloc, case, stop_after(calls, of_log, u64::MAX))? {
            return Ok(calls);
        }
    }
    Err(Fail::from("no run without a stop"))
}

/// Whether each file stops in some run, and all runs leave what they may.
pub(crate) fn is_whole(alloc: Global, case: &Case<'_>, more: u64) -> Result<bool, Fail> {
    let log = counted(alloc, case, true, more)?;
    let db = counted(alloc, case, false, more)?;
    Ok(log > 0 && db > 0)
}
