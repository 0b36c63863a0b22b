//! Returns of polling stations.

ghost use Rattle.std.specs.Prelude.{◌≡◌, ◌≤◌, length, IfOk, IsTrue};
ghost use Rattle.tally_frac.specs.Limits.{most_lists};
ghost use Rattle.tally_setup.specs.declared.constituency.Entry as declared;
ghost use Rattle.tally_returns.specs.Decide.{limits_of};
ghost use Rattle.tally_returns.specs.Lawful.{IsLawful, is_note_or_empty};
ghost use Rattle.tally_returns.specs.Lodge.{is_return_of, limits_for};
ghost use Rattle.tally_returns.specs.Return.{first_return, status_word};

use crate::counts::Counts;
use crate::moves::LAST_REVISION;
use std::alloc::{AllocError, Global};
use std::marker::Model;
use tally_setup::{Code, Constituency, Station, good_note};

/// How far the office has come with a return.
#[derive(Clone, Copy, Debug, PartialEq, Eq)]
pub enum Status {
    /// Lodged, and not yet looked at.
    Received,
    /// Called in question.
    Queried,
    /// Corrected after a query.
    Corrected,
    /// Closed: its votes count.
    Closed,
}

impl Status {
    /// Its word, as it is shown.
    pub fn word(self) -> &'static str
        ensures word { result.now ≡ status_word self }
        ensures short { length result.now ≤ 16 }
    {
        match self {
            Status::Received => "received",
            Status::Queried => "queried",
            Status::Corrected => "corrected",
            Status::Closed => "closed",
        }
    }
}

/// The return of a polling station.
#[derive(Debug, Drop)]
pub struct Return {
    /// The revision, from 1.
    pub rev: u32,
    /// The code of the slip that it was lodged or last corrected with.
    pub slip: Code,
    pub status: Status,
    /// The note of its last query, empty where there was none.
    pub note: String,
    pub counts: Counts,
}

impl Model for Return {
    ghost use Rattle.std.specs.Prelude.{string_bytes};
    ghost use Rattle.tally_returns.specs.Return.{StationReturn};

    ghost Value = { StationReturn };

    ghost view = { λ r. record {
      rev = r.rev;
      slip = r.slip;
      status = r.status;
      note = string_bytes r.note;
      counts = r.counts;
    } };
}

impl Return {
    /// A return as it is lodged: revision 1, received, with no note.
    pub fn lodged(alloc: Global, slip: Code, counts: Counts) -> Return
        ensures { result ≡ first_return slip counts }
    {
        Return {
            rev: 1,
            slip,
            status: Status::Received,
            note: String::new(alloc),
            counts,
        }
    }

    /// Whether the return has this slip and these counts.
    pub(crate) fn is_of(&self, slip: Code, counts: &Counts) -> bool
        ensures { result ≡ is_return_of slip counts.now self.now }
    {
        self.slip == slip && self.counts == *counts
    }

    /// A copy with the same content.
    pub fn try_copy(&self, alloc: Global) -> Result<Return, AllocError>
        ensures { IfOk result (λ copy. copy ≡ self.now) }
    {
        Ok(Return {
            rev: self.rev,
            slip: self.slip,
            status: self.status,
            note: String::from_str(alloc, self.note.as_str())?,
            counts: self.counts.try_copy(alloc)?,
        })
    }

    /// Whether the return may be recorded at a station of a constituency: by its revision, note and
    /// counts.
    pub fn is_lawful(&self, con: &Constituency, station: &Station) -> bool
        ensures lawful { IsTrue result → IsLawful (limits_of con.now station.now) self.now }
        ensures otherwise { IsLawful (limits_of con.now station.now) self.now → IsTrue result }
    {
        self.is_lawful_for(con.lists.len(), station.entitled())
    }

    /// As `is_lawful`, for this many lists (at most 60) and this many who may vote.
    fn is_lawful_for(&self, lists: usize, entitled: u64) -> bool
        requires { lists ≤ most_lists }
        ensures lawful { (entry : declared.Entry) → IsTrue result
            → IsLawful (limits_for lists entitled entry) self.now }
        ensures otherwise { (entry : declared.Entry)
            → IsLawful (limits_for lists entitled entry) self.now → IsTrue result }
    {
        if !self.counts.are_for(lists) {
            return false;
        }
        // Called for what its contract says: a slip is a code.
        let _slip = self.slip.as_bytes();
        self.rev >= 1
            && self.rev <= LAST_REVISION
            && is_note_or_empty(self.note.as_str())
            && self.counts.all_votes() <= entitled
    }
}

/// Whether a text is empty or may be a note: 1 to 200 bytes, none of them 00 to 1F or 7F.
pub fn is_note_or_empty(note: &str) -> bool
    ensures { result ≡ is_note_or_empty note.now }
{
    note.is_empty() || good_note(note)
}
