//! What a keeper shows for reports; the texts that go over many stations or constituencies: the
//! returns of a constituency as CSV, its stations, the progress, and the country; and the names of
//! all that is shown of an office.
#![tactic(auto)]

mod country;
mod progress;
mod returns;
mod stations;
mod stations_report;
mod views;

pub use country::{country_report, country_text};
pub use progress::progress_text;
pub use returns::returns_text;
pub use stations::stations_text;
pub use stations_report::stations_report_text;
pub use views::{all_views, progress_of, view_for, whole_view, whole_views};
