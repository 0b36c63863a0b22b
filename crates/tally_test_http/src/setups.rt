//! Setups of one constituency.

use std::alloc::{AllocError, Global};
use std::test::Fail;
use tally_rules::read_setup;
use tally_setup::Setup;

const WITHOUT_LISTS: &str = r#"[[profile]]
code = "d0"
method = "dhondt"
threshold = 0
base = "valid"

[[constituency]]
code = "c1"
name = "Twin Town"
seats = 3
profile = "d0"

[[constituency.station]]
code = "s1"
electors = 300
"#;

fn text_of(alloc: Global, lists: &str) -> Result<String, AllocError> {
    let mut text = String::from_str(alloc, WITHOUT_LISTS)?;
    for list in lists.split(" ") {
        text.push_str("\n[[constituency.list]]\ncode = \"")?;
        text.push_str(list)?;
        text.push_str("\"\nname = \"List\"\ncandidates = [\"a\", \"b\"]\n")?;
    }
    Ok(text)
}

/// The constituency `c1`, with lists of the codes of a text such as `A B`.
pub(crate) fn setup(alloc: Global, lists: &str) -> Result<Setup, Fail> {
    let text = text_of(alloc, lists)?;
    match read_setup(alloc, text.as_bytes()) {
        Ok(setup) => Ok(setup),
        Err(_) => Err(Fail::from("no setup")),
    }
}
