//! Commands.

ghost use Rattle.std.specs.Prelude.{◌≡◌, true};
ghost use Rattle.tally_returns.specs.Named.{BringsCode, con_named, slip_named, station_named};
ghost use Rattle.tally_setup.specs.Code.{is_code};

use crate::counts::Counts;
use tally_setup::Code;

/// A request to the office. Stations, constituencies and lists are named by their codes. A
/// command on a return names the revision that it speaks of, and one on a constituency the edition,
/// so that it acts on that one or on none.
#[derive(Debug, Drop)]
pub enum Ask {
    /// Lodges the first return of a station, under the code of its slip.
    Lodge {
        station: Code,
        slip: Code,
        counts: Counts,
    },
    /// Calls a return in question, with a note of 1 to 200 bytes that says why.
    Query {
        station: Code,
        rev: u32,
        note: String,
    },
    /// Puts other counts into a return that was called in question, under the code of another slip.
    Correct {
        station: Code,
        rev: u32,
        slip: Code,
        counts: Counts,
    },
    /// Closes a return as it was entered, so that its votes count.
    Close {
        station: Code,
        rev: u32,
    },
    /// Closes a return by its second entry, which brings the slip and the counts once more.
    Confirm {
        station: Code,
        rev: u32,
        slip: Code,
        counts: Counts,
    },
    /// Shows the return of a station.
    ShowReturn {
        station: Code,
    },
    /// Records the lot that was drawn among the lists of a group: their codes in its order (LOREG
    /// article 163.1 d)).
    Draw {
        con: Code,
        edition: u32,
        order: Vec<Code>,
    },
    /// Certifies a constituency, so that its seats are allotted.
    Certify {
        con: Code,
        edition: u32,
    },
    /// Opens a certified constituency again, with a note of 1 to 200 bytes that says why.
    Reopen {
        con: Code,
        edition: u32,
        note: String,
    },
    /// Records that the candidate at this place of a list, from 1, who holds a seat, is gone for
    /// good, with a note of 1 to 200 bytes that says why.
    Vacate {
        con: Code,
        list: Code,
        place: u32,
        note: String,
    },
    /// Shows what a constituency has come to.
    ShowCon {
        con: Code,
    },
    /// Shows how far each constituency has come.
    ShowProgress,
}

impl Ask {
    /// The station that a command on a return names.
    pub fn station(&self) -> Option<Code>
        ensures { result ≡ station_named self.now }
    {
        match self {
            Ask::Lodge { station, .. } => Some(*station),
            Ask::Query { station, .. } => Some(*station),
            Ask::Correct { station, .. } => Some(*station),
            Ask::Close { station, .. } => Some(*station),
            Ask::Confirm { station, .. } => Some(*station),
            Ask::ShowReturn { station } => Some(*station),
            Ask::Draw { .. } => None,
            Ask::Certify { .. } => None,
            Ask::Reopen { .. } => None,
            Ask::Vacate { .. } => None,
            Ask::ShowCon { .. } => None,
            Ask::ShowProgress => None,
        }
    }

    /// The code of the slip that a command brings.
    pub fn slip(&self) -> Option<Code>
        ensures slip { result ≡ slip_named self.now }
        ensures code { BringsCode self.now }
    {
        match self {
            Ask::Lodge { slip, .. } => Some(known(*slip)),
            Ask::Correct { slip, .. } => Some(known(*slip)),
            Ask::Confirm { slip, .. } => Some(known(*slip)),
            _ => None,
        }
    }

    /// The constituency that a command on one names.
    pub fn con(&self) -> Option<Code>
        ensures { result ≡ con_named self.now }
    {
        match self {
            Ask::Draw { con, .. } => Some(*con),
            Ask::Certify { con, .. } => Some(*con),
            Ask::Reopen { con, .. } => Some(*con),
            Ask::Vacate { con, .. } => Some(*con),
            Ask::ShowCon { con } => Some(*con),
            Ask::Lodge { .. } => None,
            Ask::Query { .. } => None,
            Ask::Correct { .. } => None,
            Ask::Close { .. } => None,
            Ask::Confirm { .. } => None,
            Ask::ShowReturn { .. } => None,
            Ask::ShowProgress => None,
        }
    }
}

/// This code, of which contracts then know that it is one.
fn known(code: Code) -> Code
    ensures same { result ≡ code }
    ensures code { is_code code ≡ true }
{
    // Called for what its contract says: these are the bytes of a code.
    let _characters = code.as_bytes();
    code
}
