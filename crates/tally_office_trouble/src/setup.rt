//! What the text of a setup is judged, and the setup of a file.

ghost use Rattle.std.specs.Prelude.{◌≡◌, IfErr, IfOk, IsOk, Ok, OnOk};
ghost use Rattle.tally_rules.specs.Reading.{setup_of_text};
ghost use Rattle.tally_office_trouble.specs.SetupFile.{IsJudged, IsSetupOfFile};
ghost use Rattle.tally_office_trouble.specs.SetupFile.{IsTroubleOfSetupFile};
ghost use Rattle.tally_office_trouble.specs.Trouble.{IsTroubleOfMaking};
ghost use Rattle.tally_office_trouble.specs.internal.Judged.{placed_trouble};

use crate::files::{NamedFiles, read_setup_text};
use crate::trouble::{Trouble, copy_of};
use std::alloc::Global;
use tally_import::Watch;
use tally_rules::{Place, SetupFault, read_setup_placed};
use tally_setup::Setup;

/// Judges the text of a setup before an office is made of it. If it is no setup, the trouble is its
/// fault and the fault's place.
pub fn judge_setup(alloc: Global, text: &[u8]) -> Result<(), Trouble>
    ensures setup { OnOk result (IsOk (setup_of_text text.now)) }
    ensures fault { IfErr result (IsJudged text.now) }
    ensures named { IfErr result IsTroubleOfMaking }
{
    let read = read_setup_placed(alloc, text);
    match &read {
        Ok(_) => Ok(()),
        Err((fault, place)) => Err(trouble_of(fault, place)),
    }
}

/// Reads the setup in a file. Its text is judged as that of a new office is.
pub fn setup_at<F: NamedFiles>(rt: &HostRuntime, files: &F, path: &str) -> Result<Setup, Trouble>
    ensures setup { IfOk result (λ setup. IsSetupOfFile (F.Gives files.now path.now) setup) }
    ensures trouble { IfErr result (IsTroubleOfSetupFile (F.Gives files.now path.now)) }
{
    let text = match read_setup_text(rt, files, path, &mut Watch::new()) {
        Ok(text) => text,
        Err(trouble) => return Err(trouble),
    };
    setup_of(rt.alloc(), text.as_slice())
}

/// The setup of a text. If it is no setup, the trouble is its fault and the fault's place.
fn setup_of(alloc: Global, text: &[u8]) -> Result<Setup, Trouble>
    ensures setup { IfOk result (λ setup. setup_of_text text.now ≡ Ok setup) }
    ensures fault { IfErr result (IsJudged text.now) }
    ensures named { IfErr result IsTroubleOfMaking }
{
    match read_setup_placed(alloc, text) {
        Ok(setup) => Ok(setup),
        Err((fault, place)) => Err(trouble_of(&fault, &place)),
    }
}

/// The trouble of a fault at this place.
fn trouble_of(fault: &SetupFault, place: &Option<Place>) -> Trouble
    ensures { result ≡ placed_trouble fault.now place.now }
{
    match fault {
        SetupFault::Memory => Trouble::Memory,
        _ => Trouble::Setup(copy_of(fault), *place),
    }
}
