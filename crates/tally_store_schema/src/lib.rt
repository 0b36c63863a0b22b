//! The tables of the office: making them, seeing whether a database has them, and the statements
//! over them, each in a function of its own. It knows rows and tables, and nothing of what the
//! rows mean.
#![tactic(auto)]

mod cells;
mod comparison;
mod delete;
mod faults;
mod insert;
mod making;
mod names;
mod numbered;
mod running;
mod same_schema;
mod select;
mod setup;
mod table;
mod update;

pub use cells::{number_at, text_at, wide_number_at};
pub use comparison::{is_former_schema, is_office_schema};
pub use delete::{delete_lot, delete_seats};
pub use faults::is_memory;
pub use insert::{insert_con, insert_gone, insert_return, insert_total};
pub use making::{create_former_tables, create_past, create_tables};
pub use names::{has_former_tables, has_past, takes_office_name};
pub use numbered::{insert_lots, insert_numbers, insert_past, insert_seats};
pub use same_schema::is_same_schema;
pub use select::{all_rows, rows_of_key};
pub use setup::{all_setup, insert_setup, update_version};
pub use table::KeyedTable;
pub use update::{update_con, update_count, update_return, update_total};
