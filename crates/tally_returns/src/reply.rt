//! Replies to commands that were accepted.

use crate::progress::ProgressRow;
use crate::returns::Return;
use crate::view::ConView;

/// The answer to an accepted Lodge.
#[derive(Clone, Copy)]
pub enum LodgeReply {
    /// The return was lodged, as this revision (1).
    Lodged { rev: u32 },
    /// A return with this slip and these counts is recorded already, at this revision; nothing
    /// changed.
    Same { rev: u32 },
}

/// The answer to an accepted command.
#[derive(Debug, Drop)]
pub enum Reply {
    /// The return was lodged, as this revision (1).
    Lodged { rev: u32 },
    /// A return with this slip and these counts is recorded already, at this revision; nothing
    /// changed.
    Same { rev: u32 },
    /// The return moved on, to this revision.
    Moved { rev: u32 },
    /// The return of the station.
    Return(Return),
    /// The constituency is at this edition now.
    Edition { edition: u32 },
    /// The candidate is gone, and the one at this place of the list, from 1, moves in, or nobody.
    Vacated { next: Option<u32> },
    /// The view of the constituency.
    Con(ConView),
    /// How far each constituency has come, in the setup's order.
    Progress(Vec<ProgressRow>),
}

impl From<LodgeReply> for Reply {
    ghost use Rattle.std.specs.Prelude.{◌≡◌};
    ghost use Rattle.tally_returns.specs.Reply.{as_reply};

    ghost from_gives = { λ lodged reply. reply ≡ as_reply lodged };

    fn from(lodged: LodgeReply) -> Reply {
        match lodged {
            LodgeReply::Lodged { rev } => Reply::Lodged { rev },
            LodgeReply::Same { rev } => Reply::Same { rev },
        }
    }
}
