//! Setups, and the codes and numbers of a text.

use std::alloc::Global;
use std::test::Fail;
use tally_rules::read_setup;
use tally_setup::{Code, Setup};

/// One constituency of two lists, and one station.
pub const TWIN_TOWN: &str = r#"[[profile]]
code = "d0"
method = "dhondt"
threshold = 0
base = "valid"

[[constituency]]
code = "c1"
name = "Twin Town"
seats = 3
profile = "d0"

[[constituency.list]]
code = "A"
name = "Alpha"
candidates = ["Ana", "Abel"]

[[constituency.list]]
code = "B"
name = "Beta"
candidates = ["Bea"]

[[constituency.station]]
code = "s1"
electors = 300
"#;

/// Two more stations of it.
pub const MORE_STATIONS: &str = r#"
[[constituency.station]]
code = "s2"
electors = 300

[[constituency.station]]
code = "s3"
electors = 300
"#;

/// The setup of a text.
pub fn setup(alloc: Global, text: &str) -> Result<Setup, Fail> {
    let setup = read_setup(alloc, text.as_bytes());
    Ok(setup.ok().ok_or("a setup")?)
}

/// Twin Town by another method, and with another number of seats.
pub fn twin_town(alloc: Global, method: &str, seats: u32) -> Result<String, Fail> {
    let setup = with(alloc, TWIN_TOWN, "dhondt", method)?;
    let seats = format!(in alloc; "seats = {seats}")?;
    with(alloc, setup.as_str(), "seats = 3", seats.as_str())
}

/// Twin Town where a return is closed by its second entry alone.
pub fn entered_twice(alloc: Global) -> Result<String, Fail> {
    let last = "profile = \"d0\"\n";
    with(
        alloc,
        TWIN_TOWN,
        last,
        "profile = \"d0\"\nentry = \"double\"\n",
    )
}

/// As above, in a large constituency, with two agents at its station.
pub fn with_agents(alloc: Global) -> Result<String, Fail> {
    let setup = entered_twice(alloc)?;
    let large = with(
        alloc,
        setup.as_str(),
        "\"double\"",
        "\"double\"\nsize = \"large\"",
    )?;
    with(
        alloc,
        large.as_str(),
        "electors = 300",
        "electors = 300\nagents = 2",
    )
}

/// A text with another piece in the place of this one.
fn with(alloc: Global, text: &str, piece: &str, other: &str) -> Result<String, Fail> {
    let (front, back) = text.split_once(piece).ok_or("the piece is not there")?;
    Ok(format!(in alloc; "{front}{other}{back}")?)
}

/// The code of a text.
pub fn code(text: &str) -> Result<Code, Fail> {
    Ok(Code::new(text.as_bytes()).ok_or("no code")?)
}

/// The codes of a text such as `B,A`, or of an empty one none.
pub fn codes(alloc: Global, text: &str) -> Result<Vec<Code>, Fail> {
    let mut order = Vec::new(alloc);
    if text.is_empty() {
        return Ok(order);
    }
    for list in text.split(",") {
        order.push(code(list)?)?;
    }
    Ok(order)
}

/// The number of a text.
pub fn number(text: &str) -> Result<u32, Fail> {
    Ok(text.parse::<u32>().ok().ok_or("no number")?)
}

/// The numbers of a text such as `2 1`, or of an empty one none.
pub fn numbers(alloc: Global, text: &str) -> Result<Vec<u32>, Fail> {
    let mut found = Vec::new(alloc);
    for word in text.split_whitespace() {
        found.push(number(word)?)?;
    }
    Ok(found)
}
