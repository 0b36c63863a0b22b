//! Scripts and imports over files that do not stop. Answers and shows are those of an office in
//! memory.

use std::alloc::Global;
use std::io::ErrorKind;
use std::test::*;
use tally_core::{ImportCount, ImportFault};
use tally_import::Sep;
use tally_test_disks::{
    Contents, Deed, Rows, TABLES, contents_after, former_contents, no_contents, shown_by, wanted,
};
use tally_test_scripts::{
    BAD_RETURNS, CUT_RETURNS, MORE_STATIONS, QUOTED_RETURNS, RECOUNT, RETURNS, TWIN_TOWN,
    import_count, setups_and_scripts, with_bad_rows,
};

// The three returns as requests.
pub(crate) const LODGED: &str = "lodge s1 p1 10,20 = lodged 1
lodge s2 p2 30,40 1 = lodged 1
lodge s3 p3 50,60 0 2 = lodged 1";

const DIFFERING: &str =
    "station,slip,blank,spoiled,A,B\ns1,p1,0,0,10,20\ns2,p2,1,0,31,40\ns3,p3,0,2,50,60\n";

// Those that are lodged where the second is bad.
const LODGED_OF_BAD: &str = "lodge s1 p1 10,20 = lodged 1
lodge s3 p3 50,60 0 2 = lodged 1";

const EXCHANGED: &str = "station,slip,blank,spoiled,B,A\ns1,p1,0,0,20,10\n";

/// Whether files show what an office in memory shows that has answered these lines.
fn shows(alloc: Global, contents: &Contents, text: &str, lines: &str) -> Result<bool, Fail> {
    let shown = shown_by(alloc, contents, Deed::Look)?;
    let wanted = wanted(alloc, TABLES, text, lines)?;
    Ok(shown.as_str() == wanted.as_str())
}

/// Whether a new office of this setup has the answers of these lines, and after each of them,
/// closed and opened again, shows what one in memory does.
fn follows(alloc: Global, text: &str, lines: &str) -> Result<bool, Fail> {
    let mut contents = contents_after(alloc, &no_contents(alloc), Deed::Create(text))?;
    let mut done = String::new(alloc);
    for line in lines.lines() {
        contents = contents_after(alloc, &contents, Deed::Answer(line))?;
        done.push_str(line)?;
        done.push_str("\n")?;
        if !shows(alloc, &contents, text, done.as_str())? {
            return Ok(false);
        }
    }
    Ok(true)
}

#[test]
fn scripts_over_files(rt: HostRuntime) -> Result<(), Fail> {
    let alloc = rt.alloc();
    for (setup, script) in &setups_and_scripts(alloc)? {
        assert!(rt; follows(alloc, setup.as_str(), script)?, "{script}");
    }
    Ok(())
}

/// The lines of the script up to this one, and those after it, without those that only show.
fn cut(alloc: Global, last: &str) -> Result<(String, String), Fail> {
    let mut before = String::new(alloc);
    let mut after = String::new(alloc);
    let mut is_after = false;
    for line in RECOUNT.lines().filter(|line| !line.starts_with("show")) {
        let part = if is_after { &mut after } else { &mut before };
        part.push_str(line)?;
        part.push_str("\n")?;
        is_after = is_after || line == last;
    }
    Ok((before, after))
}

#[test]
fn an_office_of_version_1_goes_on(rt: HostRuntime) -> Result<(), Fail> {
    let alloc = rt.alloc();
    let (before, after) = cut(alloc, "close s1 4 = moved 5")?;
    let former = former_contents(alloc, TWIN_TOWN, before.as_str())?;
    let now = contents_after(alloc, &former, Deed::Answer(after.as_str()))?;
    let shown = shown_by(alloc, &now, Deed::Look)?;
    let end = "\ncertified 6 0 0 0 1/1 [120, 120] 4 1 [1, 2] [2, 1] recount 2.1 resigned\n";
    assert!(rt; shown.as_str().contains(end), "{shown}");
    Ok(())
}

/// Whether imports into a new office, one after the other, come to what they should, and it shows
/// after each what one in memory shows that has answered the lines beside them.
fn import_in_turn(alloc: Global, text: &str, cases: &[(Rows<'_>, &str)]) -> Result<bool, Fail> {
    let mut contents = contents_after(alloc, &no_contents(alloc), Deed::Create(text))?;
    for (rows, lines) in cases {
        contents = contents_after(alloc, &contents, Deed::Import(*rows))?;
        if !shows(alloc, &contents, text, lines)? {
            return Ok(false);
        }
    }
    Ok(true)
}

fn rows(text: &str, sep: Sep, want: Result<ImportCount, ImportFault>) -> Rows<'_> {
    Rows {
        text,
        sep,
        piece: 4_096,
        failure: None,
        want,
    }
}

/// The three returns, by reads of this many bytes.
fn returns_by(piece: usize) -> Rows<'static> {
    Rows {
        text: RETURNS,
        sep: Sep::Comma,
        piece,
        failure: None,
        want: import_count([3, 0, 0, 0, 0], None),
    }
}

/// The first of them, and a read that fails in the second.
fn cut_returns() -> Rows<'static> {
    Rows {
        text: CUT_RETURNS,
        sep: Sep::Comma,
        piece: 7,
        failure: Some(ErrorKind::BrokenPipe),
        want: Err(ImportFault::Read),
    }
}

#[test]
fn imports_over_files(rt: HostRuntime) -> Result<(), Fail> {
    let alloc = rt.alloc();
    let setup = format!(in alloc; "{TWIN_TOWN}{MORE_STATIONS}")?;
    let long = with_bad_rows(alloc, 20_000)?;
    let comma = Sep::Comma;
    let one_after_the_other = [
        (rows(long.as_str(), comma, Err(ImportFault::TooLong)), ""),
        (rows("", comma, Err(ImportFault::BadHeader)), ""),
        (rows(EXCHANGED, comma, Err(ImportFault::BadHeader)), ""),
        (
            rows(RETURNS, comma, import_count([3, 0, 0, 0, 0], None)),
            LODGED,
        ),
        (
            rows(RETURNS, comma, import_count([0, 3, 0, 0, 0], None)),
            LODGED,
        ),
        (
            rows(
                DIFFERING,
                comma,
                import_count([0, 2, 1, 0, 0], Some((2, 7))),
            ),
            LODGED,
        ),
    ];
    assert!(rt; import_in_turn(alloc, setup.as_str(), &one_after_the_other)?);
    let bad = [(
        rows(
            BAD_RETURNS,
            comma,
            import_count([2, 0, 0, 0, 1], Some((2, 0))),
        ),
        LODGED_OF_BAD,
    )];
    assert!(rt; import_in_turn(alloc, setup.as_str(), &bad)?);
    let quoted = [(
        rows(
            QUOTED_RETURNS,
            Sep::Semicolon,
            import_count([3, 0, 0, 0, 0], None),
        ),
        LODGED,
    )];
    assert!(rt; import_in_turn(alloc, setup.as_str(), &quoted)?);
    let cut = [(cut_returns(), "")];
    assert!(rt; import_in_turn(alloc, setup.as_str(), &cut)?);
    for piece in [1, 2, 7] {
        let by_pieces = [(returns_by(piece), LODGED)];
        assert!(rt; import_in_turn(alloc, setup.as_str(), &by_pieces)?);
    }
    Ok(())
}
