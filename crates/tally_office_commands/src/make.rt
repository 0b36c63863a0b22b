//! New offices. An office is made of the text of a setup, and a line has the number of its
//! constituencies.

ghost use Rattle.std.specs.Prelude.{◌≡◌, ◌≤◌, ◌+◌, ◌++◌, [], IfErr, IsOk, OnErr, OnOk};
ghost use Rattle.std.specs.Prelude.{string_bytes, string_len, string_capacity};
ghost use Rattle.tally_office_commands.specs.Done.{IsMadeAt};
ghost use Rattle.tally_office_commands.specs.Made.{IsNewTrouble, constituencies_text};
ghost use Rattle.tally_office_commands.specs.Offices.{known};
ghost use Rattle.tally_office_trouble.specs.Written.{IsWritten};

use crate::ending::{close_and_print, line_room};
use crate::offices::Offices;
use std::alloc::AllocError;
use std::io::Write;
use tally_import::Watch;
use tally_import::room::push_number;
use tally_keeper::Keeper;
use tally_office_trouble::{Trouble, judge_setup, read_setup_text};
use tally_setup::Setup;

/// The most bytes of the line with the number of constituencies.
pub const CONSTITUENCIES_ROOM: usize = 32;

/// Makes an office of a setup, and judges the setup before it opens the database. A fault of a
/// setup is reported only of a text that has it, and where the text is a setup, none is.
#[inline(never)]
pub fn make_at<O: Offices, W: Write>(
    rt: &HostRuntime,
    offices: &O,
    db: &str,
    setup: &str,
    output: &mut W,
) -> Result<(), Trouble>
    ensures written { IsWritten W.contents (IsMadeAt (known O.Office.Keeper
        (O.Opens offices.now) (O.Finds offices.now) (O.Makes offices.now) (O.Closes offices.now)
        (O.Gives offices.now))
        db.now setup.now) output.old output.new result }
    ensures trouble { IfErr result (IsNewTrouble (O.Gives offices.now setup.now)) }
{
    let text = match read_setup_text(rt, offices, setup, &mut Watch::new()) {
        Ok(text) => text,
        Err(trouble) => return Err(trouble),
    };
    match judge_setup(rt.alloc(), text.as_slice()) {
        Ok(()) => {}
        Err(trouble) => return Err(trouble),
    }
    let line = match line_room(rt, CONSTITUENCIES_ROOM) {
        Ok(line) => line,
        Err(trouble) => return Err(trouble),
    };
    let office = match offices.make_office(rt, db, text.as_slice()) {
        Ok(office) => office,
        Err(trouble) => return Err(trouble),
    };
    let text = made_text(line, &office);
    close_and_print(rt, offices, db, office, Ok(text), output)
}

/// Writes the number of constituencies into a line that is empty and has the room. It takes no
/// memory.
fn made_text<K: Keeper>(mut line: String, keeper: &K) -> String
    requires empty { string_bytes line ≡ [] }
    requires len { string_len line ≡ 0 }
    requires room { CONSTITUENCIES_ROOM ≤ string_capacity line }
    ensures { string_bytes result ≡ constituencies_text (K.constituencies keeper.now) }
{
    match constituencies_text(&mut line, keeper.setup()) {
        Ok(()) => line,
        Err(_) => unreachable!(),
    }
}

/// Appends how many constituencies a setup has. A text that has the room takes no memory.
pub fn constituencies_text(text: &mut String, setup: &Setup) -> Result<(), AllocError>
    ensures appended { OnOk result (string_bytes text.new
        ≡ string_bytes text.old ++ constituencies_text setup.now) }
    ensures kept { OnErr result (string_bytes text.new ≡ string_bytes text.old) }
    ensures room { string_len text.old + CONSTITUENCIES_ROOM ≤ string_capacity text.old
        → IsOk result }
{
    text.reserve(CONSTITUENCIES_ROOM)?;
    push_number(text, "constituencies", setup.cons().len() as u32);
    Ok(())
}
