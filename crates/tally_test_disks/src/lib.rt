//! An office over two files in memory, of which one stops at some call, or refuses one. For tests
//! of stores.
#![tactic(auto)]

mod deeds;
mod disks;
mod faltering;
mod lines;
mod looks;
mod runs;

pub use deeds::{Deed, Rows};
pub use disks::{
    Contents, Disks, MIXTURES, Mixture, Stop, are_same, files_with, have_stopped, mixed,
    no_contents, stop_after, synced, written,
};
pub use faltering::Faltering;
pub use lines::push_each;
pub use looks::{FORMER_TABLES, NO_TABLES, TABLES, wanted};
pub use runs::{Done, carried_out, contents_after, former_contents, shown_by};
