//! Keepers in memory of setups.

use std::alloc::Global;
use std::test::Fail;
use tally_core::Book;
use tally_test_scripts::setup;

/// A keeper of the setup of a text, in which no return is recorded.
pub(crate) fn fresh(alloc: Global, text: &str) -> Result<Book, Fail> {
    let setup = setup(alloc, text)?;
    Ok(Book::new(alloc, setup)?)
}
