//! The reading of a setup from its text: the setup, or the first fault of the text and its place.
//! What a setup is comes from `tally_setup`, and is passed on.
#![tactic(auto)]

mod fault;
mod place;
mod read;

pub use fault::SetupFault;
pub use place::{Holder, Place, SetupArray, Way};
pub use read::{read_setup, read_setup_placed};
pub use tally_setup::{
    Base, Code, Constituency, Entry, ListEntry, LotRule, MOST_CANDIDATES, MOST_CONSTITUENCIES,
    MOST_ELECTORS, MOST_PROFILES, MOST_STATIONS, Method, Profile, Setup, Station, base_of,
    eligible, good_note, is_eligible,
};
