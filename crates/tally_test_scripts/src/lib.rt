//! Scripts of commands and their answers as lines of text, and texts of returns, for the tests of
//! keepers.
#![tactic(auto)]

mod answers;
mod commands;
mod imports;
mod readers;
mod returns;
mod scripts;
mod setups;

pub use answers::{
    check_answers, first_wrong, first_wrong_of_run, text_of_answer, text_of_answers,
    text_of_refusal, text_of_stations,
};
pub use commands::{command, counts};
pub use imports::{import_from, text_of_import_from, text_of_named, text_of_tried, trial_from};
pub use readers::{Failing, Pieces};
pub use returns::{
    ALL_LODGED, BAD_RETURNS, CUT_RETURNS, HEADER, NONE_LODGED, QUOTED_RETURNS, RETURNS,
    TWO_ROWS_AND_A_PIECE, failing_reads, import_count, with_bad_rows,
};
pub use scripts::{CERTIFIED, RECOUNT, setups_and_scripts};
pub use setups::{
    MORE_STATIONS, TWIN_TOWN, code, codes, entered_twice, number, numbers, setup, twin_town,
};
