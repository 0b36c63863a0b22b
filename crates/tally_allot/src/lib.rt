//! Seat allotment: from the votes of a constituency to the seats of its lists, by D'Hondt, by
//! Sainte-Laguë, by modified Sainte-Laguë or by Hare with the largest remainders, and by a lot
//! where the votes leave a choice.
#![tactic(auto)]

mod allotment;
mod award;
mod award_table;
mod fault;
pub mod laws;
mod least;
mod lot;
mod next;
mod quota_row;
mod quota_table;
mod short;
mod under_lot;

pub use allotment::{allot, is_allotment, lot_need};
pub use award::Award;
pub use award_table::awards;
pub use fault::AllotFault;
pub use least::least_seats;
pub use next::next_list;
pub use quota_row::QuotaRow;
pub use quota_table::quotas;
pub use short::votes_short;
pub use tally_allot_award::Need;
pub use tally_frac::ListSet;
