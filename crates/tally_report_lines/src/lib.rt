//! Lines, columns and words that the texts of several crates have: those of the reports, of an
//! allotment, of a recount and of a result.
#![tactic(auto)]

mod award;
mod column;
mod quota;
mod short;
mod votes;
mod words;

pub use award::push_award_of;
pub use column::{CODE_WIDTH, push_heading, push_left, push_number};
pub use quota::{push_quota_columns, push_quota_front};
pub use short::{push_votes, votes_short_at};
pub use votes::{push_valid, push_votes_of};
pub use words::{base_word, lot_rule_word, method_word};
