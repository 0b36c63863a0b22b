//! A text that is read as a whole.

ghost use Rattle.std.specs.Prelude.{◌≡◌, ◌<◌, IfOk, IfSome};
ghost use Rattle.tally_import_records.specs.Input.{GaveWithin, size_limit};
ghost use Rattle.tally_import_records.specs.Watch.{NotesStop, has_failed};

use crate::end::Stop;
use crate::held::HeldText;
use crate::watch::Watch;
use std::alloc::{AllocError, Global};
use std::io::Read;

/// The bytes that came of an input, and what stopped it, unless it ended of itself.
#[derive(Drop)]
pub struct WholeText {
    /// The bytes, up to a limit.
    pub bytes: Vec<u8>,
    /// The reason why the input stopped.
    pub stop: Option<Stop>,
}

/// Reads an input to its end, or until it goes on past a limit, below 16 MiB.
pub fn read_whole<R: Read>(
    alloc: Global,
    input: &mut R,
    watch: &mut Watch<R>,
    limit: usize,
) -> Result<WholeText, AllocError>
    requires { limit < size_limit }
    ensures gave { IfOk result (λ whole. IfSome (R.remaining input.old) (λ text.
        GaveWithin limit text (R.remaining input.new) whole.bytes.items whole.stop)) }
    ensures failed { IfOk result (λ whole.
        NotesStop whole.stop (has_failed watch.old) (has_failed watch.new)) }
{
    let mut held = HeldText::new(alloc);
    let end = held.fill(input, watch, limit + 1)?;
    let mut bytes = held.bytes;
    if bytes.len() > limit {
        bytes.truncate(limit);
        return Ok(WholeText {
            bytes,
            stop: Some(Stop::TooLong),
        });
    }
    match end {
        Some(end) => Ok(WholeText {
            bytes,
            stop: end.stop,
        }),
        None => unreachable!(),
    }
}
