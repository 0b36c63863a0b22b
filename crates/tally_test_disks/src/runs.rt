//! Deeds on files of given contents.

use crate::deeds::{Deed, Work, carry_out};
use crate::disks::{
    Conn, Contents, Disks, NO_STOP, Stored, connected, files_of, files_with, no_contents, written,
};
use std::alloc::Global;
use std::test::Fail;

/// The files after the steps that were acknowledged, how many these were, and what was shown.
#[derive(Drop)]
pub struct Done {
    pub files: Disks,
    pub steps: usize,
    pub shown: String,
}

// A call over this store costs the prover much, whatever is called. This is the only one.
fn worked(alloc: Global, conn: Conn, deed: Deed<'_>) -> Result<Work<Stored>, Fail> {
    carry_out(alloc, conn, deed)
}

fn on_connection(alloc: Global, conn: Conn, deed: Deed<'_>) -> Result<Done, Fail> {
    let Work { left, steps, shown } = worked(alloc, conn, deed)?;
    Ok(Done {
        files: files_of(left),
        steps,
        shown,
    })
}

/// Opens the files and carries a deed out, as far as it goes.
pub fn carried_out(alloc: Global, files: Disks, deed: Deed<'_>) -> Result<Done, Fail> {
    match connected(alloc, files) {
        Ok(conn) => on_connection(alloc, conn, deed),
        Err(files) => Ok(Done {
            files,
            steps: 0,
            shown: String::new(alloc),
        }),
    }
}

/// Carries a deed out over files of these contents that do not stop.
fn whole(alloc: Global, contents: &Contents, deed: Deed<'_>) -> Result<Done, Fail> {
    let files = files_with(alloc, contents, NO_STOP)?;
    let done = carried_out(alloc, files, deed)?;
    if done.steps == 0 {
        return Err(Fail::from("a refusal without a stop"));
    }
    Ok(done)
}

/// The text that such a deed shows.
pub fn shown_by(alloc: Global, contents: &Contents, deed: Deed<'_>) -> Result<String, Fail> {
    let Done { shown, .. } = whole(alloc, contents, deed)?;
    Ok(shown)
}

/// The contents of the files after it.
pub fn contents_after(
    alloc: Global,
    contents: &Contents,
    deed: Deed<'_>,
) -> Result<Contents, Fail> {
    let done = whole(alloc, contents, deed)?;
    written(alloc, &done.files)
}

/// The contents of the files of an office of this setup that has answered these lines, in tables of
/// version 1. Part of them is in the log alone.
pub fn former_contents(alloc: Global, text: &str, lines: &str) -> Result<Contents, Fail> {
    let made = contents_after(alloc, &no_contents(alloc), Deed::Create(text))?;
    let office = contents_after(alloc, &made, Deed::Answer(lines))?;
    let change = "DROP TABLE past; UPDATE setup SET version = 1";
    contents_after(alloc, &office, Deed::Leave(change))
}
