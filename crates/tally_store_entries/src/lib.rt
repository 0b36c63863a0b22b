//! What an entry of the office's state has in the tables: all of its rows written, and all of its
//! rows looked up.
#![tactic(auto)]

mod constituencies;
mod find;
mod items;
mod returns;
mod views;

pub use constituencies::{put_con, put_gone, put_lot, put_record, put_seats, put_sums};
pub use find::find_return;
pub use returns::{add_return, change_return, correct_return};
pub use views::{find_certified, find_progress_row, find_sums, find_view, rows_of_cons};
