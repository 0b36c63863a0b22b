//! Keepers in memory of setups.

use std::alloc::Global;
use std::test::Fail;
use tally_core::Book;
use tally_test_scripts::{check_answers, first_wrong_of_run, setup};

/// A keeper of the setup of a text, in which no return is recorded.
pub(crate) fn fresh(alloc: Global, text: &str) -> Result<Book, Fail> {
    let setup = setup(alloc, text)?;
    Ok(Book::new(alloc, setup)?)
}

/// Fails at the first line of a script that a new keeper answers otherwise, be it line by line or
/// in one run.
pub(crate) fn check_fresh(alloc: Global, setup: &str, script: &str) -> Result<(), Fail> {
    let mut book = fresh(alloc, setup)?;
    check_answers(alloc, &mut book, script)?;
    let mut other = fresh(alloc, setup)?;
    let wrong = first_wrong_of_run(alloc, &mut other, script)?;
    if wrong.is_empty() {
        return Ok(());
    }
    Err(Fail::from(wrong))
}
