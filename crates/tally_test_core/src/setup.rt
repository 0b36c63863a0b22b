//! A setup as it is read, what is found in it, and its faults. Which fault a text has is shown on
//! the program, in `tests/program/test_setup.py`.

use std::alloc::{AllocError, Global};
use std::test::Fail;
use tally_rules::{Place, SetupArray, SetupFault, Way, read_setup, read_setup_placed};
use tally_setup::{Code, Setup, good_note};

const EXAMPLE: &[u8] = br#"[[profile]]
code = "d3"
method = "dhondt"
threshold = 300
base = "lists"
lot = "alternating"
[[constituency]]
code = "c1"
name = "Twin Town"
seats = 7
profile = "d3"
entry = "double"
[[constituency.list]]
code = "A"
name = "Alpha"
candidates = ["Ana", "Abel"]
[[constituency.list]]
code = "B"
name = "Beta"
candidates = ["Bea"]
[[constituency.station]]
code = "s1"
electors = 400
agents = 2
"#;

/// A copy of the example's constituency, as text.
const TWIN_TOWN: &str =
    "Constituency { code: \"c1\", name: \"Twin Town\", seats: 7, profile_code: \"d3\", \
    profile: Profile { method: DHondt, threshold: 300, base: Lists, lot: Alternating }, \
    entry: Double, \
    lists: [ListEntry { code: \"A\", name: \"Alpha\", candidates: [\"Ana\", \"Abel\"] }, \
    ListEntry { code: \"B\", name: \"Beta\", candidates: [\"Bea\"] }], \
    stations: [Station { code: \"s1\", electors: 400, agents: 2 }] }";

const STATION: &str = "Station { code: \"s1\", electors: 400, agents: 2 }";

/// A copy of the constituency of a code, or the station of it, as text.
fn found(alloc: Global, setup: &Setup, code: Code) -> Result<String, AllocError> {
    if let Some(con) = setup.con(code) {
        let copy = con.try_copy(alloc)?;
        return format!(in alloc; "{copy:?}");
    }
    match setup.station(code) {
        Some((_con, station)) => format!(in alloc; "{station:?}"),
        None => String::from_str(alloc, "none"),
    }
}

/// As above, in the example.
fn found_in_example(alloc: Global, code: &str) -> Result<String, Fail> {
    let code = Code::new(code.as_bytes()).ok_or("no code")?;
    let setup = read_setup(alloc, EXAMPLE).ok().ok_or("no setup")?;
    Ok(found(alloc, &setup, code)?)
}

#[test]
fn codes_find_all_that_the_example_says(rt: HostRuntime) -> Result<(), Fail> {
    for (code, want) in [
        ("c1", TWIN_TOWN),
        ("s1", STATION),
        ("C1", "none"),
        ("A", "none"),
    ] {
        assert!(rt;
            found_in_example(rt.alloc(), code)?.as_str() == want,
            "{code}"
        );
    }
    Ok(())
}

const FAULTS: &str = "\
1 not TOML
2 `seats` is missing
3 `seats` has a wrong value
4 `list` is over its limit
5 the code `s1` occurs twice
6 no such profile
7 out of memory
";

#[test]
fn faults_have_their_numbers_and_texts(rt: HostRuntime) -> Result<(), Fail> {
    let faults = [
        SetupFault::NotToml,
        SetupFault::Missing("seats"),
        SetupFault::BadValue("seats"),
        SetupFault::OverLimit("list"),
        SetupFault::Duplicate(Code::new(b"s1").ok_or("no code")?),
        SetupFault::UnknownProfile,
        SetupFault::Memory,
    ];
    let mut text = String::new(rt.alloc());
    for fault in &faults {
        writeln!(text, "{} {fault}", fault.number())?;
    }
    assert!(rt; text.as_str() == FAULTS);
    Ok(())
}

#[test]
fn a_text_that_is_no_setup_has_its_fault(rt: HostRuntime) {
    let fault = read_setup(rt.alloc(), b"profile = []").err();
    assert!(rt; fault == Some(SetupFault::Missing("profile")));
    let placed = read_setup_placed(rt.alloc(), b"profile = [{}]").err();
    let way = Way {
        array: SetupArray::Profiles,
        number: 1,
        code: None,
    };
    let place = Place::Entry(way, None);
    assert!(rt; placed == Some((SetupFault::Missing("code"), Some(place))));
}

const LONGEST: &str =
    "1234567890123456789012345678901234567890123456789012345678901234567890123456789012345678901234567890\
                       1234567890123456789012345678901234567890123456789012345678901234567890123456789012345678901234567890";

const TOO_LONG: &str =
    "12345678901234567890123456789012345678901234567890123456789012345678901234567890123456789012345678901\
                        1234567890123456789012345678901234567890123456789012345678901234567890123456789012345678901234567890";

#[test]
fn a_note_has_1_to_200_bytes_and_no_control_bytes(rt: HostRuntime) {
    for good in ["sum", " ", "~", "caña", LONGEST] {
        assert!(rt; good_note(good));
    }
    for bad in ["", "a\tb", "a\u{7f}", "\u{1f}", "\n", TOO_LONG] {
        assert!(rt; !good_note(bad));
    }
}
