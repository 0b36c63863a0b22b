//! Why returns were not counted.

ghost use Rattle.std.specs.Prelude.{◌≡◌, IfOk, string_bytes};
ghost use Rattle.tally_import_recount.specs.Troubles.{no_station_line, recount_line};
ghost use Rattle.tally_import_recount.specs.Troubles.{recount_status};

use std::alloc::{AllocError, Global};
use tally_import_votes::AllotTrouble;
use tally_setup::Code;

/// Why the text of a recount was not written.
#[derive(Drop)]
pub enum RecountTrouble {
    /// A word for a station that is left out is the code of none; the code, where it is one.
    NoStation(Option<Code>),
    /// The text is not the returns of the constituency, they come to no seats, or a write failed.
    Allot(AllotTrouble),
}

impl RecountTrouble {
    /// The exit status: 1 where what was asked is refused, 3 where something failed.
    pub fn status(&self) -> u8
        ensures { result ≡ recount_status self.now }
    {
        match self {
            RecountTrouble::NoStation(_) => 1,
            RecountTrouble::Allot(trouble) => trouble.status(),
        }
    }

    /// Its line on standard error.
    pub fn line(&self, alloc: Global) -> Result<String, AllocError>
        ensures { IfOk result (λ line. string_bytes line ≡ recount_line self.now) }
    {
        match self {
            RecountTrouble::NoStation(code) => no_station_line(alloc, code),
            RecountTrouble::Allot(trouble) => trouble.line(alloc),
        }
    }
}

fn no_station_line(alloc: Global, code: &Option<Code>) -> Result<String, AllocError>
    ensures { IfOk result (λ line. string_bytes line ≡ no_station_line code.now) }
{
    match code {
        Some(code) => format!(in alloc; "refused: no_station {code}\n"),
        None => String::from_str(alloc, "refused: no_station\n"),
    }
}
