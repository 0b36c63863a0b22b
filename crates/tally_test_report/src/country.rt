//! The text of the country, byte for byte.

use crate::views::{check_text, views_of};
use std::alloc::Global;
use std::test::*;
use tally_report_overview::country_text;
use tally_test_scripts::{TWIN_TOWN, setup};

// After Twin Town: B under its name, and C.
const PORT: &str = r#"
[[constituency]]
code = "c2"
name = "Port"
seats = 2
profile = "d0"

[[constituency.list]]
code = "B"
name = "Beta"
candidates = ["Ben"]

[[constituency.list]]
code = "C"
name = "Gamma"
candidates = ["Cas"]

[[constituency.station]]
code = "t1"
electors = 100
"#;

// After both: B under a third name, before A under a second one.
const ISLE: &str = r#"
[[constituency]]
code = "c3"
name = "Isle"
seats = 1
profile = "d0"

[[constituency.list]]
code = "B"
name = "Bet"
candidates = ["Bo"]

[[constituency.list]]
code = "A"
name = "Aleph"
candidates = ["Al"]

[[constituency.station]]
code = "u1"
electors = 100
"#;

// Twin Town is certified and Port is not.
const TWO_VIEWS: &str = "3 1 1: 100 100: 0 0: 1 2: 2 1:
1 1 1: 30 10: 0 0: : :";

const TWO: &str = "COUNTRY
constituencies 2 certified 1
stations 2 closed 2
A                     1           100 Alpha
B                     2           130 Beta
C                     0            10 Gamma
total                 3           240
seats 5 majority 3
";

// Twin Town was certified and reopened, and has a lot; Port is certified; Isle has no return.
const THREE_VIEWS: &str = "4 1 1: 100 100: 0 0: : 2 1: past 3 1 2
2 1 2: 30 10: 1 2: 2 0: :
1 0 4: 0 0: 0 0: : :";

const THREE: &str = "COUNTRY
constituencies 3 certified 1
stations 7 closed 2
A                     0           100 Alpha
B                     2           130 Beta
C                     0            10 Gamma
total                 2           240
seats 6 majority 4
";

#[test]
fn the_country(rt: HostRuntime) -> Result<(), Fail> {
    let alloc = rt.alloc();
    let mut text = String::from_str(alloc, TWIN_TOWN)?;
    text.push_str(PORT)?;
    check_country(alloc, text.as_str(), TWO_VIEWS, TWO)?;
    text.push_str(ISLE)?;
    check_country(alloc, text.as_str(), THREE_VIEWS, THREE)
}

fn check_country(alloc: Global, text: &str, views: &str, want: &'static str) -> Result<(), Fail> {
    let setup = setup(alloc, text)?;
    let cons = setup.cons();
    let views = views_of(alloc, cons, views)?;
    check_text(&country_text(alloc, cons, &views), want)
}
