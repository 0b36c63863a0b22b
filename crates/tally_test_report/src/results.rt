//! The result in one answer, byte for byte.

use crate::views::{PROVINCE, check_text, views_of};
use std::alloc::Global;
use std::test::*;
use tally_report_result::{result_text, results_text};
use tally_test_scripts::{TWIN_TOWN, setup};

// Equal votes without a lot, and with one; certified, and then the one candidate of B is gone; and
// reopened after that.
const TIED: &str = "1 1 1: 100 100: 0 0: : : ";

const DRAWN: &str = "2 1 1: 100 100: 0 0: : 2 1: ";

const VACATED: &str = "3 1 1: 100 100: 0 0: 1 2: 2 1: 2 1";

const REOPENED: &str = "4 1 1: 100 100: 0 0: : 2 1: 2 1 past 3 1 2";

const NONE: &str = "1 0 1: 0 0: 0 0: : : ";

// The example of LOREG article 163, open, with blank and spoiled votes.
const LOREG: &str = "1 1 1: 168000 104000 72000 64000 40000 32000: 5 7: : : ";

const TIED_RESULT: &str =
    r#"{"awards":[],"base":"valid","blank":0,"certified":false,"closed":1,"con":"c1","corrected":0,"edition":1,"entry":"single","gone":[],"group":["A","B"],"holders":[],"lists":[{"code":"A","eligible":true,"name":"Alpha","provisional":1,"seats":null,"short":null,"votes":100},{"code":"B","eligible":true,"name":"Beta","provisional":1,"seats":null,"short":null,"votes":100}],"lot":[],"lot_rule":"fixed","method":"dhondt","name":"Twin Town","note":"","past":[],"queried":0,"question":1,"quota":[],"received":0,"seats":3,"spoiled":0,"stations":1,"status":"lot","threshold":0}"#;

const DRAWN_RESULT: &str =
    r#"{"awards":[["B",1,100,1],["A",1,100,1],["B",2,100,2]],"base":"valid","blank":0,"certified":false,"closed":1,"con":"c1","corrected":0,"edition":2,"entry":"single","gone":[],"group":[],"holders":[],"lists":[{"code":"A","eligible":true,"name":"Alpha","provisional":1,"seats":null,"short":1,"votes":100},{"code":"B","eligible":true,"name":"Beta","provisional":2,"seats":null,"short":200,"votes":100}],"lot":["B","A"],"lot_rule":"fixed","method":"dhondt","name":"Twin Town","note":"","past":[],"queried":0,"question":0,"quota":[],"received":0,"seats":3,"spoiled":0,"stations":1,"status":"open","threshold":0}"#;

const VACATED_RESULT: &str =
    r#"{"awards":[["B",1,100,1],["A",1,100,1],["B",2,100,2]],"base":"valid","blank":0,"certified":true,"closed":1,"con":"c1","corrected":0,"edition":3,"entry":"single","gone":[["B",1,"resigned"]],"group":[],"holders":[["A",1,"Ana"],["B",null,null],["B",null,null]],"lists":[{"code":"A","eligible":true,"name":"Alpha","provisional":1,"seats":1,"short":1,"votes":100},{"code":"B","eligible":true,"name":"Beta","provisional":2,"seats":2,"short":200,"votes":100}],"lot":["B","A"],"lot_rule":"fixed","method":"dhondt","name":"Twin Town","note":"","past":[],"queried":0,"question":0,"quota":[],"received":0,"seats":3,"spoiled":0,"stations":1,"status":"certified","threshold":0}"#;

const REOPENED_RESULT: &str =
    r#"{"awards":[["B",1,100,1],["A",1,100,1],["B",2,100,2]],"base":"valid","blank":0,"certified":false,"closed":1,"con":"c1","corrected":0,"edition":4,"entry":"single","gone":[["B",1,"resigned"]],"group":[],"holders":[],"lists":[{"code":"A","eligible":true,"name":"Alpha","provisional":1,"seats":null,"short":1,"votes":100},{"code":"B","eligible":true,"name":"Beta","provisional":2,"seats":null,"short":200,"votes":100}],"lot":["B","A"],"lot_rule":"fixed","method":"dhondt","name":"Twin Town","note":"","past":[{"edition":3,"seats":[1,2]}],"queried":0,"question":0,"quota":[],"received":0,"seats":3,"spoiled":0,"stations":1,"status":"open","threshold":0}"#;

const NONE_RESULT: &str =
    r#"{"awards":[],"base":"valid","blank":0,"certified":false,"closed":0,"con":"c1","corrected":0,"edition":1,"entry":"single","gone":[],"group":[],"holders":[],"lists":[{"code":"A","eligible":false,"name":"Alpha","provisional":0,"seats":null,"short":null,"votes":0},{"code":"B","eligible":false,"name":"Beta","provisional":0,"seats":null,"short":null,"votes":0}],"lot":[],"lot_rule":"fixed","method":"dhondt","name":"Twin Town","note":"","past":[],"queried":0,"question":0,"quota":[],"received":0,"seats":3,"spoiled":0,"stations":1,"status":"no_eligible","threshold":0}"#;

// By Hare there are quotas, and no awards or votes short.
const LOREG_RESULT: &str =
    r#"{"awards":[],"base":"valid","blank":5,"certified":false,"closed":1,"con":"n","corrected":0,"edition":1,"entry":"single","gone":[],"group":[],"holders":[],"lists":[{"code":"A","eligible":true,"name":"A list of some length, whose name stands whole and last on its line","provisional":3,"seats":null,"short":null,"votes":168000},{"code":"B","eligible":true,"name":"B","provisional":2,"seats":null,"short":null,"votes":104000},{"code":"C-of-16-letters_","eligible":true,"name":"C","provisional":1,"seats":null,"short":null,"votes":72000},{"code":"D","eligible":true,"name":"D","provisional":1,"seats":null,"short":null,"votes":64000},{"code":"E","eligible":true,"name":"E","provisional":1,"seats":null,"short":null,"votes":40000},{"code":"F","eligible":true,"name":"F","provisional":0,"seats":null,"short":null,"votes":32000}],"lot":[],"lot_rule":"fixed","method":"hare","name":"Province","note":"","past":[],"queried":0,"question":0,"quota":[["A",2,384000,3],["B",1,352000,2],["C-of-16-letters_",1,96000,1],["D",1,32000,1],["E",0,320000,1],["F",0,256000,0]],"received":0,"seats":8,"spoiled":7,"stations":1,"status":"open","threshold":300}"#;

const RESULTS: [(&str, &str, &str); 6] = [
    (TWIN_TOWN, TIED, TIED_RESULT),
    (TWIN_TOWN, DRAWN, DRAWN_RESULT),
    (TWIN_TOWN, VACATED, VACATED_RESULT),
    (TWIN_TOWN, REOPENED, REOPENED_RESULT),
    (TWIN_TOWN, NONE, NONE_RESULT),
    (PROVINCE, LOREG, LOREG_RESULT),
];

#[test]
fn the_result_of_a_constituency(rt: HostRuntime) -> Result<(), Fail> {
    let alloc = rt.alloc();
    for (text, view, want) in RESULTS {
        check_result(alloc, text, view, want)?;
    }
    Ok(())
}

fn check_result(alloc: Global, text: &str, view: &str, want: &'static str) -> Result<(), Fail> {
    let setup = setup(alloc, text)?;
    let cons = setup.cons();
    let views = views_of(alloc, cons, view)?;
    let con = cons.first().ok_or("no constituency")?;
    let view = views.first().ok_or("no view")?;
    if !view.fits(con) {
        return Err(Fail::from("a view that does not fit"));
    }
    check_text(&result_text(alloc, con, view), want)?;
    let all = results_text(alloc, cons, &views).ok().ok_or("no results")?;
    let within = all.strip_prefix("[").ok_or("no array")?;
    let one = within.strip_suffix("]").ok_or("no array")?;
    if one == want {
        return Ok(());
    }
    Err(Fail::from("other results"))
}
