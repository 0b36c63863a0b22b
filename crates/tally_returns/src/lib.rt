//! The returns of polling stations: the office's commands and its state, and what is decided of a
//! command on a return.
#![tactic(auto)]

mod ask;
mod change;
mod counts;
mod decide;
mod lodge;
mod moves;
mod progress;
mod refusal;
mod reply;
mod returns;
mod station_row;
mod view;

pub use ask::Ask;
pub use change::Change;
pub use counts::Counts;
pub use decide::{decide_at, decide_return};
pub use lodge::decide_lodge;
pub use progress::ProgressRow;
pub use refusal::Refusal;
pub use reply::{LodgeReply, Reply};
pub use returns::{Return, Status, is_note_or_empty};
pub use station_row::StationRow;
pub use tally_frac::ListSet;
pub use view::{ConView, Gone, LAST_EDITION, Past};
