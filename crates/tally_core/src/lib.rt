//! A keeper of an electoral office's state in memory. What any keeper promises, runs and imports
//! are those of `tally_keeper`, what is decided of commands that of `tally_machine`, commands and
//! state those of `tally_returns`; what a program over a keeper names of these is here too.
#![tactic(auto)]

mod book;

pub use book::Book;
pub use tally_keeper::{Keeper, moved, run};
pub use tally_machine::{decide_con, holders};
pub use tally_returns::{
    Ask, Change, ConView, Counts, Gone, ListSet, LodgeReply, Past, ProgressRow, Refusal, Reply,
    Return, StationRow, Status, decide_at, decide_lodge, decide_return,
};
pub use tally_returns_rows::{
    FirstRow, ImportCount, ImportFault, NamedRow, ROW_LIMIT, Row, RowSource,
};
