//! What lines of text say. A line that says nothing is taken for zeros and empty texts, so that the
//! test that has it fails.

use std::alloc::{AllocError, Global};

/// The texts before a mark and after it; where there is no mark, the whole text and an empty one.
pub(crate) fn cut<'a>(text: &'a str, mark: &str) -> (&'a str, &'a str) {
    text.split_once(mark).unwrap_or((text, ""))
}

pub(crate) fn number(text: &str) -> u32 {
    text.parse::<u32>().unwrap_or(0)
}

/// The numbers of a text such as `100 50`.
pub(crate) fn sums(alloc: Global, text: &str) -> Result<Vec<u64>, AllocError> {
    let mut found = Vec::new(alloc);
    for word in text.split_whitespace() {
        found.push(u64::from(number(word)))?;
    }
    Ok(found)
}
