//! Requests to an office in a database have the answers of one in memory. That it shows the same
//! where it is opened again after each is tried over files (`scripts`).

use crate::offices::{database, made, opened};
use sqlite::{Alter, Connection};
use std::alloc::Global;
use std::test::*;
use tally_store::Store;
use tally_test_scripts::{
    CERTIFIED, TWIN_TOWN, first_wrong, first_wrong_of_run, setups_and_scripts,
};

/// The first wrong line of a script.
fn wrong_at_once<S: Alter + Drop>(
    alloc: Global,
    mut office: Store<S>,
    script: &str,
) -> Result<String, Fail> {
    first_wrong(alloc, &mut office, script)
}

/// As above where all commands of the script are one run.
fn wrong_as_one_run<S: Alter + Drop>(
    alloc: Global,
    mut office: Store<S>,
    script: &str,
) -> Result<String, Fail> {
    first_wrong_of_run(alloc, &mut office, script)
}

#[test]
fn scripts_at_once_and_as_one_run(rt: HostRuntime) -> Result<(), Fail> {
    let alloc = rt.alloc();
    for (setup, script) in &setups_and_scripts(alloc)? {
        let setup = setup.as_str();
        let wrong = wrong_at_once(alloc, made(alloc, setup)?, script)?;
        assert!(rt; wrong.is_empty(), "{wrong}");
        let wrong = wrong_as_one_run(alloc, made(alloc, setup)?, script)?;
        assert!(rt; wrong.is_empty(), "{wrong}");
    }
    Ok(())
}

// The tables of version 1 have no record of a certificate that was reopened.
const FORMER: &str = "DROP TABLE past; UPDATE setup SET version = 1";

// Once they were taken over a reopening puts the certificate on record.
const REOPENED: &str = "certify c1 3 = refused 9
reopen c1 3 recount = edition 4
show c1 = open 4 0 0 0 1/1 [100, 100] 0 0 [2, 1] [] recount past 3 [1, 2]";

// A certificate that was reopened, and votes that were counted again.
const COUNTED_AGAIN: &str = "lodge s1 p1 100,100 = lodged 1
close s1 1 = moved 2
draw c1 1 B,A = edition 2
certify c1 2 = edition 3
vacate c1 B 1 resigned = vacated None
reopen c1 3 recount = edition 4
query s1 2 sum = moved 3
correct s1 3 p2 120,120 = moved 4
close s1 4 = moved 5";

const CERTIFIED_AGAIN: &str = "show c1 = open 4 0 0 0 1/1 [120, 120] 0 0 [] [] recount 2.1 resigned
certify c1 4 = lot of 1 2 for 1
draw c1 4 A,B = edition 5
certify c1 5 = edition 6
show c1 = certified 6 0 0 0 1/1 [120, 120] 0 0 [1, 2] [2, 1] recount 2.1 resigned
lodge s1 p1 100,100 = differs 5
lodge s1 p2 120,120 = same 5";

/// The fault in a script where a database was changed by these statements before.
fn wrong_after<S: Alter + Drop>(
    alloc: Global,
    mut conn: Connection<S>,
    statements: &str,
    script: &str,
) -> Result<String, Fail> {
    conn.execute_batch(statements)?;
    wrong_at_once(alloc, opened(alloc, conn)?, script)
}

#[test]
fn offices_of_version_1_go_on(rt: HostRuntime) -> Result<(), Fail> {
    let alloc = rt.alloc();
    for (before, statements, after) in [
        (CERTIFIED, FORMER, REOPENED),
        (COUNTED_AGAIN, FORMER, CERTIFIED_AGAIN),
    ] {
        let conn = database(alloc, TWIN_TOWN, before)?;
        let wrong = wrong_after(alloc, conn, statements, after)?;
        assert!(rt; wrong.is_empty(), "{wrong}");
    }
    Ok(())
}
