//! The stations of a constituency of an office in a database, with their returns.

use crate::offices::{made, opened};
use sqlite::Alter;
use std::alloc::Global;
use std::test::*;
use tally_store::Store;
use tally_test_scripts::{TWIN_TOWN, check_answers, text_of_stations};

// Stations in another order than that of their codes.
const STATIONS: &str = r#"
[[constituency.station]]
code = "t"
electors = 400

[[constituency.station]]
code = "k"
electors = 500
"#;

// Lines with their answers, and what is then shown of the stations.
const SHOWN: [(&str, &str); 4] = [
    ("", "s1 300 -\nt 400 -\nk 500 -\n"),
    (
        "lodge k p3 5,6 7 8 = lodged 1",
        "s1 300 -\nt 400 -\nk 500 1 p3 Received [5, 6] 7 8 \n",
    ),
    (
        "lodge s1 p1 100,100 = lodged 1\nclose s1 1 = moved 2",
        "s1 300 2 p1 Closed [100, 100] 0 0 \nt 400 -\nk 500 1 p3 Received [5, 6] 7 8 \n",
    ),
    (
        "lodge t p2 1,2 = lodged 1\nquery t 1 sum = moved 2",
        "s1 300 2 p1 Closed [100, 100] 0 0 \nt 400 2 p2 Queried [1, 2] 0 0 sum\n\
k 500 1 p3 Received [5, 6] 7 8 \n",
    ),
];

/// Whether an office has these answers, and shows these stations, also when it was opened again.
fn goes_on<S: Alter + Drop>(
    alloc: Global,
    mut office: Store<S>,
    lines: &str,
    stations: &str,
) -> Result<Store<S>, Fail> {
    check_answers(alloc, &mut office, lines)?;
    check_stations(alloc, &mut office, stations)?;
    let mut office = opened(alloc, office.close())?;
    check_stations(alloc, &mut office, stations)?;
    Ok(office)
}

fn check_stations<S: Alter + Drop>(
    alloc: Global,
    office: &mut Store<S>,
    wanted: &str,
) -> Result<(), Fail> {
    let shown = text_of_stations(alloc, office, "c1")?;
    if shown.as_str() == wanted {
        return Ok(());
    }
    Err(Fail::from(shown))
}

#[test]
fn stations_in_the_order_of_the_setup(rt: HostRuntime) -> Result<(), Fail> {
    let alloc = rt.alloc();
    let setup = format!(in alloc; "{TWIN_TOWN}{STATIONS}")?;
    let mut office = made(alloc, setup.as_str())?;
    for (lines, stations) in SHOWN {
        office = goes_on(alloc, office, lines, stations)?;
    }
    Ok(())
}

// 2 is NoConstituency.
#[test]
fn no_stations_of_an_unknown_constituency(rt: HostRuntime) -> Result<(), Fail> {
    let mut office = made(rt.alloc(), TWIN_TOWN)?;
    let shown = text_of_stations(rt.alloc(), &mut office, "h")?;
    assert!(rt; shown.as_str() == "refused 2\n", "{shown}");
    Ok(())
}
