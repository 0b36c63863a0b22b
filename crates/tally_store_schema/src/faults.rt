//! Why a call on the database failed.

ghost use Rattle.std.specs.Prelude.{◌≡◌, ◌↔◌, IsTrue};

use sqlite::{Error, ErrorCode};

/// Whether it was out of memory.
pub fn is_memory(error: &Error) -> bool
    ensures { IsTrue result ↔ error.now ≡ Error.SqliteFailure ErrorCode.OutOfMemory }
{
    matches!(error, Error::SqliteFailure(ErrorCode::OutOfMemory))
}
