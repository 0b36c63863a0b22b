//! The contest of lists for the seats of a poll: who has which pairs of a list and a seat, which of
//! two ranks above, the award of the seats by each rule, and the lot that is needed. `tally_allot`
//! is built on it and has the calls for programs.
#![tactic(auto)]

mod contest;
mod divisor_contest;
mod hare_contest;
mod heap_award;
mod lot;
mod need;
mod poll;
mod quota;
mod remainder_award;
mod scan_award;
mod won;

pub use contest::{Contest, has_eligible, is_fair};
pub use divisor_contest::DivisorContest;
pub use hare_contest::HareContest;
pub use heap_award::{AwardedSeats, award_from_heap};
pub use lot::is_order_of;
pub use need::{Need, may_be_taken, need_of};
pub use poll::Poll;
pub use remainder_award::award_remainders;
pub use scan_award::contested_seats;
pub use won::WonSeat;
