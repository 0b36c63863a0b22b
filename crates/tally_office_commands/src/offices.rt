//! The offices that commands work on.

ghost use Rattle.std.specs.Prelude.{◌≡◌, ℕ, List, IfErr, IfOk, Ok};
ghost use Rattle.tally_rules.specs.Reading.{setup_of_text};
ghost use Rattle.tally_office_trouble.specs.Trouble.{IsTroubleOfMaking, IsTroubleOfOpening};
ghost use Rattle.tally_office_commands.specs.Made.{IsMakingTrouble};
ghost use Rattle.tally_office_commands.specs.Offices.{AtPath, AtPort, ClosingOutcome};
ghost use Rattle.tally_office_commands.specs.Offices.{OpeningOutcome, Resource, opening_of};

use std::net::TcpListener;
use tally_keeper::Keeper;
use tally_office_trouble::{NamedFiles, Trouble};

/// The offices that a program can open, each at a path, the ports on which it can listen, and the
/// files that it reads. Offices may be files, or kept in another way.
pub trait Offices: NamedFiles {
    /// An office that is open.
    type Office: Keeper + Drop;

    /// The outcomes that opening an office or a port may have: it is open, or there is a trouble.
    /// Only `open_office` and `listen` say that one of them happened.
    ghost Opens: { Self → Resource → OpeningOutcome };

    /// The offices that opening the one at a path may give. Only `open_office` says that it gave
    /// one of them.
    ghost Finds: { Self → List ℕ → Self.Office → Type 0 };

    /// The offices that making one at a path, of the text of a setup, may give. Only `make_office`
    /// says that it gave one of them.
    ghost Makes: { Self → List ℕ → List ℕ → Self.Office → Type 0 };

    /// The outcomes that closing this office at a path may have: all of it is there, or not. Only
    /// `close_office` says that one of them happened.
    ghost Closes: { Self → List ℕ → Self.Office → ClosingOutcome };

    /// Opens the office at a path. Where there is none, none is made.
    fn open_office(&self, rt: &HostRuntime, path: &str) -> Result<Self::Office, Trouble>
        ensures opens { Opens self.now (AtPath path.now) (opening_of result) }
        ensures finds { IfOk result (λ office. Finds self.now path.now office) }
        ensures named { IfErr result IsTroubleOfOpening };

    /// Makes an office of the text of a setup at a path where there is none yet, and opens it. A
    /// text that is no setup is reported by its own first fault, and by no other.
    fn make_office(
        &self,
        rt: &HostRuntime,
        path: &str,
        text: &[u8],
    ) -> Result<Self::Office, Trouble>
        ensures makes { IfOk result (λ office. Makes self.now path.now text.now office) }
        ensures setup { IfOk result (λ office.
            setup_of_text text.now ≡ Ok (Self.Office.constituencies office)) }
        ensures trouble { IfErr result (IsMakingTrouble text.now) }
        ensures named { IfErr result IsTroubleOfMaking };

    /// Listens on a port of this machine's own address.
    fn listen(&self, rt: &HostRuntime, port: u16) -> Result<TcpListener, Trouble>
        ensures opens { Opens self.now (AtPort port) (opening_of result) }
        ensures named { IfErr result (λ t. t ≡ Trouble.Port) };

    /// Closes the office at a path, and returns whether all of it is there. If not, or if a failed
    /// disk shut the office, the command has failed.
    fn close_office(&self, rt: &HostRuntime, path: &str, office: Self::Office) -> bool
        ensures { Closes self.now path.now office result };
}
