//! Stations of a constituency that has many.

use crate::setups::fresh;
use std::alloc::Global;
use std::test::*;
use tally_test_scripts::{TWIN_TOWN, check_answers, text_of_stations};

const STATIONS: u32 = 300;

/// Twin Town with this many stations.
fn many_stations(alloc: Global) -> Result<String, Fail> {
    let mut setup = String::new(alloc);
    setup.push_str(TWIN_TOWN)?;
    for n in 2..=STATIONS {
        writeln!(
            setup,
            "[[constituency.station]]\ncode = \"s{n}\"\nelectors = 300"
        )?;
    }
    Ok(setup)
}

/// The return of the first and of the last station, and none of another.
fn first_and_last(alloc: Global) -> Result<String, Fail> {
    let mut text = String::new(alloc);
    for n in 1..=STATIONS {
        if n == 1 || n == STATIONS {
            writeln!(text, "s{n} 300 1 p{n} Received [{n}, 0] 0 0 ")?;
        } else {
            writeln!(text, "s{n} 300 -")?;
        }
    }
    Ok(text)
}

#[test]
fn each_of_many_stations_is_shown(rt: HostRuntime) -> Result<(), Fail> {
    let mut book = fresh(rt.alloc(), many_stations(rt.alloc())?.as_str())?;
    let script = "lodge s1 p1 1,0 = lodged 1\nlodge s300 p300 300,0 = lodged 1";
    check_answers(rt.alloc(), &mut book, script)?;
    let shown = text_of_stations(rt.alloc(), &mut book, "c1")?;
    assert!(rt; shown.as_str() == first_and_last(rt.alloc())?.as_str());
    Ok(())
}
