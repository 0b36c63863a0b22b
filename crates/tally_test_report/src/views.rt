//! Setups and views as text, and the reports of them.

ghost use Rattle.std.specs.Prelude.{IfOk};
ghost use Rattle.std.specs.List.{AllZip};
ghost use Rattle.tally_returns.specs.View.{FitsView};

use std::alloc::Global;
use std::test::Fail;
use tally_report::{ReportFault, report_text};
use tally_report_names::Report;
use tally_returns::{ConView, Gone, Past};
use tally_setup::Constituency;
use tally_test_scripts::{number, numbers, setup};

/// One constituency of three lists and two seats, by modified Sainte-Laguë.
pub(crate) const THREE_LISTS: &str = r#"[[profile]]
code = "p"
method = "modified-sainte-lague"
threshold = 0
base = "valid"

[[constituency]]
code = "m"
name = "Fifths"
seats = 2
profile = "p"

[[constituency.list]]
code = "A"
name = "A"
candidates = ["a"]

[[constituency.list]]
code = "B"
name = "B"
candidates = ["b"]

[[constituency.list]]
code = "C"
name = "C"
candidates = ["c"]

[[constituency.station]]
code = "s1"
electors = 100
"#;

/// The lists of the example of LOREG article 163, by Hare, under a code of sixteen characters.
pub(crate) const PROVINCE: &str = r#"[[profile]]
code = "p"
method = "hare"
threshold = 300
base = "valid"

[[constituency]]
code = "n"
name = "Province"
seats = 8
profile = "p"

[[constituency.list]]
code = "A"
name = "A list of some length, whose name stands whole and last on its line"
candidates = ["a"]

[[constituency.list]]
code = "B"
name = "B"
candidates = ["b"]

[[constituency.list]]
code = "C-of-16-letters_"
name = "C"
candidates = ["c"]

[[constituency.list]]
code = "D"
name = "D"
candidates = ["d"]

[[constituency.list]]
code = "E"
name = "E"
candidates = ["e"]

[[constituency.list]]
code = "F"
name = "F"
candidates = ["f"]

[[constituency.station]]
code = "s1"
electors = 500000
"#;

/// Fails where a text is another, or another fault than that of a number such as `fault 1`.
pub(crate) fn check_text(
    text: &Result<String, ReportFault>,
    want: &'static str,
) -> Result<(), Fail> {
    let got = match text {
        Ok(text) => text.as_str(),
        Err(fault) => match fault.number() {
            1 => "fault 1",
            2 => "fault 2",
            _ => "out of memory",
        },
    };
    if got == want {
        return Ok(());
    }
    Err(Fail::from(want))
}

fn check_view(
    alloc: Global,
    con: &Constituency,
    view: &ConView,
    report: &str,
    want: &'static str,
) -> Result<(), Fail> {
    if !view.fits(con) {
        return Err(Fail::from("a view that does not fit"));
    }
    let which = Report::named(report).ok_or("no report")?;
    check_text(&report_text(alloc, con, view, which), want)
}

/// Fails where a report of the first constituency of a setup and the view of a line is another.
pub(crate) fn check(
    alloc: Global,
    report: &str,
    text: &str,
    line: &str,
    want: &'static str,
) -> Result<(), Fail> {
    let view = view_of(alloc, line)?;
    let setup = setup(alloc, text)?;
    let con = setup.cons().first().ok_or("no constituency")?;
    check_view(alloc, con, &view, report, want)
}

/// The views of constituencies, each by a line.
pub(crate) fn views_of(
    alloc: Global,
    cons: &[Constituency],
    lines: &str,
) -> Result<Vec<ConView>, Fail>
    ensures { IfOk result (λ views. AllZip FitsView cons.now views.items) }
{
    let mut views = Vec::new(alloc);
    let mut lines = lines.lines();
    for con in cons {
        views.push(fitting(alloc, con, lines.next().unwrap_or(""))?)?;
    }
    Ok(views)
}

fn fitting(alloc: Global, con: &Constituency, line: &str) -> Result<ConView, Fail>
    ensures { IfOk result (FitsView con.now) }
{
    let view = view_of(alloc, line)?;
    if !view.fits(con) {
        return Err(Fail::from("a view that does not fit"));
    }
    Ok(view)
}

fn opening(alloc: Global) -> ConView {
    ConView {
        edition: 1,
        certified: false,
        note: String::new(alloc),
        lot: Vec::new(alloc),
        stations: 0,
        received: 0,
        queried: 0,
        corrected: 0,
        closed: 0,
        votes: Vec::new(alloc),
        blank: 0,
        spoiled: 0,
        seats: Vec::new(alloc),
        gone: Vec::new(alloc),
        past: Vec::new(alloc),
    }
}

/// The view of a line such as `3 1 2: 200 199: 0 1: 1 2: 2 1: 2 1`: the edition, how many stations
/// are closed and how many there are; the votes of the lists; the blank and the spoiled votes; the
/// seats where it is certified; the lot; a list and a candidate of it who is gone. What follows
/// after `past`, such as `past 3 1 2; 7 2 1`, are the editions and seats of the certificates that
/// were reopened.
fn view_of(alloc: Global, line: &str) -> Result<ConView, Fail> {
    let mut view = opening(alloc);
    for (place, part) in line.split(":").enumerate() {
        set_part(alloc, &mut view, place, part.trim())?;
    }
    Ok(view)
}

fn set_part(alloc: Global, view: &mut ConView, place: usize, part: &str) -> Result<(), Fail> {
    match place {
        0 => set_standing(view, part)?,
        1 => view.votes = votes_of(alloc, part)?,
        2 => set_others(view, part)?,
        3 => {
            view.certified = !part.is_empty();
            view.seats = numbers(alloc, part)?;
        }
        4 => view.lot = numbers(alloc, part)?,
        _ => set_gone_and_past(alloc, view, part)?,
    }
    Ok(())
}

fn set_standing(view: &mut ConView, part: &str) -> Result<(), Fail> {
    let (edition, stations) = cut(part, " ");
    let (closed, all) = cut(stations, " ");
    view.edition = number(edition)?;
    view.closed = number(closed)?;
    view.stations = number(all)?;
    Ok(())
}

fn set_others(view: &mut ConView, part: &str) -> Result<(), Fail> {
    let (blank, spoiled) = cut(part, " ");
    view.blank = u64::from(number(blank)?);
    view.spoiled = u64::from(number(spoiled)?);
    Ok(())
}

fn set_gone_and_past(alloc: Global, view: &mut ConView, part: &str) -> Result<(), Fail> {
    let (gone, past) = cut(part, "past ");
    if !gone.is_empty() {
        view.gone.push(gone_of(alloc, gone.trim())?)?;
    }
    if !past.is_empty() {
        for certificate in past.split("; ") {
            view.past.push(past_of(alloc, certificate)?)?;
        }
    }
    Ok(())
}

fn gone_of(alloc: Global, text: &str) -> Result<Gone, Fail> {
    let (list, place) = cut(text, " ");
    Ok(Gone {
        list: number(list)?,
        place: number(place)?,
        note: String::from_str(alloc, "resigned")?,
    })
}

fn past_of(alloc: Global, text: &str) -> Result<Past, Fail> {
    let (edition, seats) = cut(text, " ");
    Ok(Past {
        edition: number(edition)?,
        seats: numbers(alloc, seats)?,
    })
}

/// The texts before a mark and after it; where there is no mark, the whole text and an empty one.
pub(crate) fn cut<'a>(text: &'a str, mark: &str) -> (&'a str, &'a str) {
    text.split_once(mark).unwrap_or((text, ""))
}

fn votes_of(alloc: Global, text: &str) -> Result<Vec<u64>, Fail> {
    let mut votes = Vec::new(alloc);
    for word in text.split_whitespace() {
        votes.push(u64::from(number(word)?))?;
    }
    Ok(votes)
}
