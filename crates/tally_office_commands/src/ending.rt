//! How a command ends: its office is closed, and then its text is written.

ghost use Rattle.std.specs.Prelude.{◌≡◌, ◌⊎◌, ◌≤◌, [], IfErr, IfOk, IsOk, OnOk, Err, false, true};
ghost use Rattle.std.specs.Prelude.{string_bytes, string_capacity, string_len};
ghost use Rattle.tally_office_trouble.specs.Troubles.{IsTroubleOfEnding};
ghost use Rattle.tally_office_trouble.specs.Written.{IsWritten};

use crate::offices::Offices;
use std::io::Write;
use tally_import::write_text;
use tally_office_trouble::Trouble;

/// Room for a line, which is reserved before anything is changed.
pub fn line_room(rt: &HostRuntime, bytes: usize) -> Result<String, Trouble>
    ensures empty { IfOk result (λ line. string_bytes line ≡ []) }
    ensures len { IfOk result (λ line. string_len line ≡ 0) }
    ensures room { IfOk result (λ line. bytes ≤ string_capacity line) }
    ensures trouble { IfErr result (λ trouble. trouble ≡ Trouble.Memory) }
{
    match String::with_capacity(rt.alloc(), bytes) {
        Ok(text) => Ok(text),
        Err(_) => Err(Trouble::Memory),
    }
}

/// Closes the office of a command, and then writes the text of the command, if it has one. If the
/// closing failed, nothing is written and the command has failed.
pub fn close_and_print<O: Offices, W: Write>(
    rt: &HostRuntime,
    offices: &O,
    db: &str,
    office: O::Office,
    outcome: Result<String, Trouble>,
    output: &mut W,
) -> Result<(), Trouble>
    ensures text { IfOk outcome (λ text.
        IsWritten W.contents (λ t. t ≡ string_bytes text) output.old output.new result) }
    ensures named { OnOk outcome (IfErr result IsTroubleOfEnding) }
    ensures closed { OnOk result (O.Closes offices.now db.now office true) }
    ensures printed { (output.new ≡ output.old) ⊎ O.Closes offices.now db.now office true }
    ensures cut { IsOk outcome → result ≡ Err Trouble.Write
        → O.Closes offices.now db.now office true }
    ensures unclosed { IsOk outcome → result ≡ Err Trouble.Store
        → O.Closes offices.now db.now office false }
    ensures trouble { IfErr outcome (λ t. (result ≡ Err t) × (output.new ≡ output.old)) }
{
    let is_closed = offices.close_office(rt, db, office);
    match outcome {
        Ok(text) => print_if_closed(is_closed, &text, output),
        Err(trouble) => Err(trouble),
    }
}

/// Writes the text of a command, if its office was closed. If this write fails, what the command
/// did remains done.
fn print_if_closed<W: Write>(is_closed: bool, text: &str, output: &mut W) -> Result<(), Trouble>
    ensures closed { is_closed ≡ false →
        (result ≡ Err Trouble.Store) × (output.new ≡ output.old) }
    ensures done { OnOk result (is_closed ≡ true) }
    ensures printed { (output.new ≡ output.old) ⊎ (is_closed ≡ true) }
    ensures cut { result ≡ Err Trouble.Write → is_closed ≡ true }
    ensures unclosed { result ≡ Err Trouble.Store → is_closed ≡ false }
    ensures written { IsWritten W.contents (λ t. t ≡ text.now) output.old output.new result }
    ensures named { IfErr result IsTroubleOfEnding }
{
    if !is_closed {
        return Err(Trouble::Store);
    }
    match write_text(output, text.as_bytes()) {
        Ok(()) => Ok(()),
        Err(_) => Err(Trouble::Write),
    }
}
