//! What `serve` does. Errors are matched and returned, and not passed on by `?`, since the `?` of
//! an enum that holds a text (`Trouble`) has no proof yet.

ghost use Rattle.std.specs.Prelude.{◌≡◌, ◌≤◌, [], IfErr, IfOk, OnErr, OnOk, Ok, string_bytes};
ghost use Rattle.std.specs.Prelude.{string_capacity, string_len};
ghost use Rattle.tally_desk.specs.Respond.{office_of};
ghost use Rattle.tally_office_commands.specs.Offices.{AtPath, AtPort};
ghost use Rattle.tally_office_trouble.specs.Reported.{IsReported};
ghost use Rattle.tally_office_program.specs.Served.{IsServedText, listening_line};
ghost use Rattle.tally_office_trouble.specs.Troubles.{IsTroubleOfServe};
ghost use Rattle.tally_office_trouble.specs.Written.{IsWritten};
ghost use Rattle.tally_office_program.specs.Commands.{IsTroubleOfListening, TakesCourse};
ghost use Rattle.tally_office_program.specs.internal.Served.{IsReportOfServing};

use crate::server_lines::{LISTENING_ROOM, SERVED_ROOM, listening_text, served_text};
use std::alloc::Global;
use std::io::Write;
use tally_desk::{Door, TcpDoor, serve};
use tally_keeper::Keeper;
use tally_office_commands::{Offices, close_and_print, line_room};
use tally_office_trouble::{Trouble, tell};

/// Serves this many connections on this machine's own address, one after the other.
#[inline(never)]
pub fn serve_office<O: Offices, W: Write, E: Write>(
    rt: &HostRuntime,
    offices: &O,
    db: &str,
    port: u16,
    count: u32,
    output: &mut W,
    errors: &mut E,
) -> Result<(), Trouble>
    ensures written { IsWritten W.contents (IsServedText count) output.old output.new result }
    ensures named { IfErr result IsTroubleOfServe }
    ensures takes { TakesCourse (O.Opens offices.now (AtPath db.now))
        (O.Opens offices.now (AtPort port)) E.contents port count errors.old errors.new result }
{
    let mut office = match offices.open_office(rt, db) {
        Ok(office) => office,
        Err(unopened) => return Err(unopened),
    };
    let outcome = serve_on(rt, offices, &mut office, port, count, errors);
    close_and_print(rt, offices, db, office, outcome, output)
}

/// Listens, says so, serves, and answers how many connections were answered and how many failed.
/// The room of these lines is reserved before: nothing takes memory for them once it listens.
fn serve_on<O: Offices, K: Keeper, E: Write>(
    rt: &HostRuntime,
    offices: &O,
    keeper: &mut K,
    port: u16,
    count: u32,
    errors: &mut E,
) -> Result<String, Trouble>
    ensures trusted { K.IsTrusted keeper.new → K.IsTrusted keeper.old }
    ensures text { IfOk result (λ text. IsServedText count (string_bytes text)) }
    ensures listens { OnOk result (O.Opens offices.now (AtPort port) (Ok tt)) }
    ensures named { IfErr result (IsTroubleOfListening (O.Opens offices.now (AtPort port))) }
    ensures unserved { IfErr result (λ trouble. keeper.new ≡ keeper.old) }
    ensures said { OnOk result (IsReported (E.contents errors.old) (E.contents errors.new)
        (listening_line port count)) }
    ensures silent { OnErr result (errors.new ≡ errors.old) }
{
    let line = match line_room(rt, SERVED_ROOM) {
        Ok(line) => line,
        Err(trouble) => return Err(trouble),
    };
    let listening = match where_listening(rt, port, count) {
        Ok(listening) => listening,
        Err(trouble) => return Err(trouble),
    };
    let listener = match offices.listen(rt, port) {
        Ok(listener) => listener,
        Err(trouble) => return Err(trouble),
    };
    tell(listening.as_str(), errors);
    let mut door = TcpDoor::timed(listener, rt);
    Ok(serve_through(rt.alloc(), keeper, &mut door, count, line))
}

/// The line that says where a server listens.
fn where_listening(rt: &HostRuntime, port: u16, count: u32) -> Result<String, Trouble>
    ensures line { IfOk result (λ line. string_bytes line ≡ listening_line port count) }
    ensures trouble { IfErr result (λ trouble. trouble ≡ Trouble.Memory) }
{
    match line_room(rt, LISTENING_ROOM) {
        Ok(mut line) => {
            listening_text(&mut line, port, count);
            Ok(line)
        }
        Err(trouble) => Err(trouble),
    }
}

/// Serves this many connections of a door. How many were answered and how many failed is written
/// into a line that is empty and has the room.
fn serve_through<K: Keeper, D: Door>(
    alloc: Global,
    keeper: &mut K,
    door: &mut D,
    count: u32,
    mut line: String,
) -> String
    requires empty { string_bytes line ≡ [] }
    requires len { string_len line ≡ 0 }
    requires room { SERVED_ROOM ≤ string_capacity line }
    ensures trusted { K.IsTrusted keeper.new → K.IsTrusted keeper.old }
    ensures text { IsServedText count (string_bytes result) }
    ensures served { IsReportOfServing (K.IsTrusted keeper.new) count
        (D.known door.old) (D.known door.new)
        (office_of K.Keeper keeper.old) (office_of K.Keeper keeper.new) (string_bytes result) }
{
    let served = serve(alloc, keeper, door, count);
    served_text(&mut line, served.answered, served.failed);
    line
}
