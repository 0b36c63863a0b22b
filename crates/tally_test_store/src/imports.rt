//! Imports into an office in a database, which is opened again after each, and the trial of each
//! before it. Texts of other forms are tried over files (`scripts`), and what the tables then hold
//! from outside.

use crate::offices::{made, opened};
use sqlite::Alter;
use std::alloc::Global;
use std::io::ErrorKind;
use std::test::*;
use tally_core::{ImportCount, ImportFault, Keeper};
use tally_import::Sep;
use tally_store::Store;
use tally_test_scripts::{
    CUT_RETURNS, MORE_STATIONS, Pieces, RETURNS, TWIN_TOWN, check_answers, import_count,
    import_from, text_of_named, text_of_tried, trial_from,
};

// Of 301 votes at a station of 300 electors.
const TOO_MANY: &str = "station,slip,blank,spoiled,A,B\ns1,p1,0,0,200,101\ns2,p2,1,0,30,40\n";

const DIFFERING: &str =
    "station,slip,blank,spoiled,A,B\ns1,p1,0,0,10,20\ns2,p2,1,0,31,40\nzz,p3,0,2,50,60\n";

/// A text, what separates its fields, how many bytes a read gives, how a read fails at its end,
/// what its import comes to, and lines with their answers.
#[derive(Clone, Copy)]
struct Case<'a> {
    text: &'a str,
    sep: Sep,
    piece: usize,
    failure: Option<ErrorKind>,
    want: Result<ImportCount, ImportFault>,
    lines: &'a str,
}

/// The reader of the text of an import.
fn reader<'a>(case: &Case<'a>) -> Pieces<'a> {
    Pieces {
        text: case.text.as_bytes(),
        piece: case.piece,
        failure: case.failure,
    }
}

/// Fails where the trial of an import, or the import after it, comes to something else than it
/// should.
fn check_import<K: Keeper>(alloc: Global, office: &mut K, case: &Case<'_>) -> Result<(), Fail> {
    let tried = trial_from(alloc, office, reader(case), case.sep)?;
    let came = import_from(alloc, office, reader(case), case.sep)?;
    if tried == case.want && came == case.want {
        return Ok(());
    }
    Err(Fail::from(format!(in alloc; "{tried:?} and {came:?}")?))
}

/// As above for these imports, one after the other, with the answers of the office that is opened
/// again after each.
fn check_imports<S: Alter + Drop>(
    alloc: Global,
    mut office: Store<S>,
    cases: &[Case<'_>],
) -> Result<(), Fail> {
    for case in cases {
        check_import(alloc, &mut office, case)?;
        office = opened(alloc, office.close())?;
        check_answers(alloc, &mut office, case.lines)?;
    }
    Ok(())
}

#[test]
fn imports_one_after_the_other(rt: HostRuntime) -> Result<(), Fail> {
    let alloc = rt.alloc();
    let cases = [
        Case {
            text: CUT_RETURNS,
            sep: Sep::Comma,
            piece: 7,
            failure: Some(ErrorKind::BrokenPipe),
            want: Err(ImportFault::Read),
            lines: "close s1 1 = refused 8\nshow c1 = open 1 0 0 0 0/3 [0, 0] 0 0 [] []",
        },
        Case {
            text: TOO_MANY,
            sep: Sep::Comma,
            piece: 4_096,
            failure: None,
            want: import_count([1, 0, 0, 1, 0], Some((1, 6))),
            lines: "close s1 1 = refused 8\nreturn s2 = 1 p2 Received [30, 40] 1 0 ",
        },
        Case {
            text: RETURNS,
            sep: Sep::Comma,
            piece: 1,
            failure: None,
            want: import_count([2, 1, 0, 0, 0], None),
            lines: "return s3 = 1 p3 Received [50, 60] 0 2 \nclose s1 1 = moved 2\n\
show c1 = open 1 2 0 0 1/3 [10, 20] 0 0 [] []",
        },
        Case {
            text: RETURNS,
            sep: Sep::Comma,
            piece: 4_096,
            failure: Some(ErrorKind::BrokenPipe),
            want: Err(ImportFault::Read),
            lines: "close s2 1 = moved 2",
        },
        Case {
            text: RETURNS,
            sep: Sep::Comma,
            piece: 2,
            failure: None,
            want: import_count([0, 3, 0, 0, 0], None),
            lines: "close s3 1 = moved 2",
        },
        Case {
            text: DIFFERING,
            sep: Sep::Comma,
            piece: 4_096,
            failure: None,
            want: import_count([0, 1, 1, 0, 1], Some((2, 7))),
            lines: "show c1 = open 1 0 0 0 3/3 [90, 120] 1 2 [] []",
        },
        Case {
            text: "station,slip,blank,spoiled,B,A\ns1,p1,0,0,20,10\n",
            sep: Sep::Comma,
            piece: 4_096,
            failure: None,
            want: Err(ImportFault::BadHeader),
            lines: "show c1 = open 1 0 0 0 3/3 [90, 120] 1 2 [] []",
        },
    ];
    let setup = format!(in alloc; "{TWIN_TOWN}{MORE_STATIONS}")?;
    check_imports(alloc, made(alloc, setup.as_str())?, &cases)
}

// A return, another of the same station, one without a number, one of 301 votes at a station of 300
// electors, and the first again.
const NAMED: &str = "station,slip,blank,spoiled,A,B\ns1,p1,0,0,10,20\ns1,p2,0,0,1,2\n\
s2,p2,1,0,x,40\ns2,p2,0,0,200,101\ns1,p1,0,0,10,20\n";

const NAMES: &str = "[NamedRow { row: 2, cause: Refused(\"s1\", Differs { rev: 1 }) }, \
    NamedRow { row: 3, cause: Bad(BadNumber(List(0))) }, \
    NamedRow { row: 4, cause: Refused(\"s2\", TooManyVotes) }]";

#[test]
fn a_trial_and_an_import_name_the_same_rows(rt: HostRuntime) -> Result<(), Fail> {
    let alloc = rt.alloc();
    let setup = format!(in alloc; "{TWIN_TOWN}{MORE_STATIONS}")?;
    let mut office = made(alloc, setup.as_str())?;
    let tried = text_of_tried(alloc, &mut office, NAMED.as_bytes())?;
    assert!(rt; tried.as_str() == NAMES, "{tried}");
    let named = text_of_named(alloc, &mut office, NAMED.as_bytes())?;
    assert!(rt; named.as_str() == NAMES, "{named}");
    Ok(())
}
