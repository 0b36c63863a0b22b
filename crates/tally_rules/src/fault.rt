//! Why a text is not a setup.

ghost use Rattle.std.specs.Prelude.{◌≡◌};
ghost use Rattle.tally_rules.specs.Fault.{setup_fault_number};

use tally_setup::Code;
use thiserror::Error;

/// The first fault of a setup's text. A key is the key's own name, as `seats`.
#[derive(Clone, Copy, Debug, PartialEq, Eq, Error)]
pub enum SetupFault {
    /// 1: the text is not TOML, or not UTF-8.
    #[error("not TOML")]
    NotToml,
    /// 2: a key is absent, or its array is empty.
    #[error("`{0}` is missing")]
    Missing(&'static str),
    /// 3: a value is of another type than its key takes, or none that it may have: a number outside
    /// its limits, a code or a name that is not one, a word that the key does not know.
    #[error("`{0}` has a wrong value")]
    BadValue(&'static str),
    /// 4: the text or an array is longer than its limit.
    #[error("`{0}` is over its limit")]
    OverLimit(&'static str),
    /// 5: a code occurs twice where codes have to differ.
    #[error("the code `{0}` occurs twice")]
    Duplicate(Code),
    /// 6: a constituency names a profile that does not exist.
    #[error("no such profile")]
    UnknownProfile,
    /// 7: an allocation was refused, which says nothing of the text.
    #[error("out of memory")]
    Memory,
}

impl SetupFault {
    /// The fault's number.
    pub fn number(&self) -> u32
        ensures { result ≡ setup_fault_number self.now }
    {
        match self {
            SetupFault::NotToml => 1,
            SetupFault::Missing(_) => 2,
            SetupFault::BadValue(_) => 3,
            SetupFault::OverLimit(_) => 4,
            SetupFault::Duplicate(_) => 5,
            SetupFault::UnknownProfile => 6,
            SetupFault::Memory => 7,
        }
    }
}
