//! One call of a file is refused, and each later one is let through. After a line that the store
//! refuses the office shows what a new opening of its files shows; or the store is shut, and shows
//! nothing more.

use crate::counts::{Case, MOST, check, shows_of};
use std::alloc::Global;
use std::test::*;
use tally_core::Book;
use tally_test_disks::{
    Contents, Deed, Done, Stop, TABLES, carried_out, contents_after, files_with, have_stopped,
    no_contents, push_each, shown_by, stop_after, written,
};
use tally_test_scripts::{MORE_STATIONS, TWIN_TOWN, setup};

/// By how many calls each run lets more through than the one before. With 1, each call of a file is
/// refused in turn. `rt try --test` is slower by far, and 10 is enough there.
const MORE: u64 = 1;

/// 9 is Certified.
const LINES: &str = "lodge s1 p1 10,20 = lodged 1
query s1 1 sum = moved 2
trial = 2 1 0 0 0
import = 2 1 0 0 0
cut import = Read
correct s1 2 p1 10,20 = moved 3
close s2 1 = moved 2
certify c1 1 = left 2
close s1 3 = moved 4
close s3 1 = moved 2
certify c1 1 = edition 2
query s1 4 late = refused 9
vacate c1 B 1 gone = vacated None
reopen c1 2 recount = edition 3
query s2 2 sum = moved 3
import = 0 3 0 0 0
correct s2 3 p2 30,40 1 = moved 4
close s2 4 = moved 5
certify c1 3 = edition 4";

/// The content of an office after each of the lines, one text after the other.
fn each_shown(alloc: Global, text: &str) -> Result<String, Fail> {
    let mut book = Book::new(alloc, setup(alloc, text)?)?;
    let mut shown = String::new(alloc);
    push_each(alloc, &mut shown, &mut book, LINES)?;
    Ok(shown)
}

fn case(alloc: Global, text: &str) -> Result<Case<'static>, Fail> {
    Ok(Case {
        contents: contents_after(alloc, &no_contents(alloc), Deed::Create(text))?,
        deed: Deed::Refuse(LINES),
        shows: shows_of(alloc, text, LINES)?,
    })
}

/// The outcome for an office whose file refuses a call.
#[derive(Clone, Copy, PartialEq)]
enum Came {
    /// No call was refused.
    Whole,
    /// It was not opened.
    NotOpened,
    /// It is shut.
    Shut,
    /// It goes on.
    GoesOn,
}

/// The outcome for an office that shows this.
fn shown_as(shown: &str) -> Came {
    if shown.is_empty() {
        return Came::NotOpened;
    }
    for line in shown.lines() {
        if line != "refused 23" {
            return Came::GoesOn;
        }
    }
    Came::Shut
}

/// Whether files of these contents show what the office showed.
fn check_shown(alloc: Global, left: &Contents, shown: &str) -> Result<(), Fail> {
    let look = shown_by(alloc, left, Deed::Look)?;
    let again = look.as_str().strip_prefix(TABLES).ok_or("the tables")?;
    if again == shown {
        return Ok(());
    }
    Err(Fail::from(format!(in alloc; "{shown}, and opened again {again}")?))
}

/// The outcome for an office that is looked at after the line that its store refuses.
fn looked_at(alloc: Global, case: &Case<'_>, stop: Stop) -> Result<Came, Fail> {
    let files = files_with(alloc, &case.contents, stop)?;
    let Done {
        files,
        steps,
        shown,
    } = carried_out(alloc, files, case.deed)?;
    let left = written(alloc, &files)?;
    check(alloc, case, &left, steps)?;
    let came = shown_as(shown.as_str());
    if came == Came::GoesOn {
        check_shown(alloc, &left, shown.as_str())?;
    }
    if have_stopped(&files) {
        return Ok(came);
    }
    Ok(Came::Whole)
}

/// Whether an office that goes on shows after each line, and at the next opening, what one in
/// memory shows.
fn check_going_on(
    alloc: Global,
    case: &Case<'_>,
    each_shown: &str,
    stop: Stop,
) -> Result<(), Fail> {
    let files = files_with(alloc, &case.contents, stop)?;
    let Done {
        files,
        steps,
        shown,
    } = carried_out(alloc, files, Deed::Repeat(LINES))?;
    check(alloc, case, &written(alloc, &files)?, steps)?;
    if steps.saturating_add(1) == case.shows.len() && shown.as_str() == each_shown {
        return Ok(());
    }
    Err(Fail::from(shown))
}

/// In how many runs an office was shut by a call that one file refused, and in how many it went on.
/// Each run lets one more call through than the one before, up to one that meets no refusal.
fn counted(alloc: Global, text: &str, of_log: bool) -> Result<(u64, u64), Fail> {
    let case = case(alloc, text)?;
    let each_shown = each_shown(alloc, text)?;
    let (mut shut, mut going) = (0u64, 0u64);
    for run in 0..MOST {
        let stop = stop_after(run.saturating_mul(MORE), of_log, 1);
        match looked_at(alloc, &case, stop)? {
            Came::Whole => return Ok((shut, going)),
            Came::NotOpened => {}
            Came::Shut => shut = shut.saturating_add(1),
            Came::GoesOn => {
                going = going.saturating_add(1);
                check_going_on(alloc, &case, each_shown.as_str(), stop)?;
            }
        }
    }
    Err(Fail::from("no run without a refusal"))
}

#[test]
fn after_a_refusal_of_the_log(rt: HostRuntime) -> Result<(), Fail> {
    let alloc = rt.alloc();
    let text = format!(in alloc; "{TWIN_TOWN}{MORE_STATIONS}")?;
    let (shut, going) = counted(alloc, text.as_str(), true)?;
    assert!(rt; shut > 0 && going > 0, "{shut} shut, {going} go on");
    Ok(())
}

#[test]
fn after_a_refusal_of_the_database_file(rt: HostRuntime) -> Result<(), Fail> {
    let alloc = rt.alloc();
    let text = format!(in alloc; "{TWIN_TOWN}{MORE_STATIONS}")?;
    let (shut, going) = counted(alloc, text.as_str(), false)?;
    assert!(rt; shut > 0 || going > 0, "{shut} shut, {going} go on");
    Ok(())
}
