//! What a setup is: the constituencies with their lists and stations, the codes that name them, and
//! the rule that each is held under, with the threshold that decides which lists are eligible.
#![tactic(auto)]

mod code;
mod codes;
mod constituency;
mod limits;
mod profile;
mod setup;
mod text;
mod threshold;

pub use code::Code;
pub use codes::Codes;
pub use constituency::{Constituency, Entry, ListEntry, Station, are_few_entitled};
pub use limits::{
    MOST_AGENTS, MOST_CANDIDATES, MOST_CONSTITUENCIES, MOST_ELECTORS, MOST_NORMAL_STATIONS,
    MOST_PROFILES, MOST_STATIONS,
};
pub use profile::{Base, LotRule, Method, Profile};
pub use setup::Setup;
pub use text::{good_name, good_note};
pub use threshold::{base_of, eligible, is_eligible};
