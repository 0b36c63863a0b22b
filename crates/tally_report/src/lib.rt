//! The reports of a constituency: the texts of the tables that an electoral office publishes of it.
#![tactic(auto)]

mod awards;
mod fault;
mod holders;
mod lots;
mod past;
mod provisional;
mod quota;
mod quotients;
mod report;
mod seats;
mod short;
mod status;
mod tally;

pub use awards::{awards_in, awards_text};
pub use fault::ReportFault;
pub use holders::{gone_by_list, holders_text, places_at};
pub use past::past_text;
pub use provisional::provisional_text;
pub use quota::quota_text;
pub use quotients::quotients_text;
pub use report::report_text;
pub use seats::seats_text;
pub use short::{short_text, votes_short_in};
pub use status::{Provisional, ProvisionalStatus, provisional_seats};
pub use tally::tally_text;
