//! Votes of lists from CSV, and the seats that they come to.
#![tactic(auto)]

mod allot;
mod fault;
mod lot;
mod votes;

pub use allot::{allot_csv, allot_watched, trouble_of};
pub use fault::{AllotTrouble, BadVotes, VotesFault};
pub use lot::{lot_places, words_given};
pub use tally_import_options::AllotOptions;
pub use tally_import_records::{Sep, Watch};
