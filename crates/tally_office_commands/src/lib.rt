//! What the commands of the program do over an office: new offices, imports, reports and the
//! progress as text; and what the offices are that commands open.
//!
//! Errors are matched and returned, and not passed on by `?`, in all modules, since the `?` of an
//! enum that holds a text (`Trouble`) has no proof yet.
#![tactic(auto)]

mod ending;
mod import;
mod make;
mod offices;
mod results;
mod show;

pub use ending::{close_and_print, line_room};
pub use import::{has_con, import_at, import_from, import_returns};
pub use make::{CONSTITUENCIES_ROOM, constituencies_text, make_at};
pub use offices::Offices;
pub use results::{show_result, show_results};
pub use show::{
    show_at, show_country, show_progress, show_report, show_stations, trouble_of_report,
};
