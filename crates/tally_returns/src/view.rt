//! What is seen of a constituency.

ghost use Rattle.std.specs.Prelude.{◌≡◌, [], All, IfOk, IsTrue};
ghost use Rattle.tally_returns.specs.View.{FitsView, HasEachList, is_before};
ghost use Rattle.tally_setup.specs.Threshold.{IsWithinVotes};

use std::alloc::{AllocError, Global};
use std::marker::Model;
use tally_frac::MOST_VOTES;
use tally_setup::Constituency;

/// The last edition that a constituency can have.
pub const LAST_EDITION: u32 = 9_999;

/// A candidate who is gone for good: the place of the list in the constituency and the candidate's
/// own place in the list, both from 1, and a note of 1 to 200 bytes that says why.
#[derive(Debug, Drop)]
pub struct Gone {
    pub list: u32,
    pub place: u32,
    pub note: String,
}

impl Model for Gone {
    ghost use Rattle.std.specs.Prelude.{string_bytes};
    ghost use Rattle.tally_returns.specs.GoneCandidate.{GoneCandidate};

    ghost Value = { GoneCandidate };

    ghost view = { λ gone. record {
      list = gone.list;
      place = gone.place;
      note = string_bytes gone.note;
    } };
}

impl Gone {
    /// Whether this candidate comes before another, in order of list and then of candidate.
    pub fn is_before(&self, other: &Gone) -> bool
        ensures { result ≡ is_before self.now other.now }
    {
        self.list < other.list || self.list == other.list && self.place < other.place
    }

    /// A copy with the same content.
    pub fn try_copy(&self, alloc: Global) -> Result<Gone, AllocError>
        ensures { IfOk result (λ copy. copy ≡ self.now) }
    {
        Ok(Gone {
            list: self.list,
            place: self.place,
            note: String::from_str(alloc, self.note.as_str())?,
        })
    }
}

/// The seats of a certificate that was reopened, and its edition.
#[derive(Debug, Drop)]
pub struct Past {
    /// The edition of the constituency with the certificate, from 1.
    pub edition: u32,
    /// The seats of each list, in the setup's order.
    pub seats: Vec<u32>,
}

impl Model for Past {
    ghost use Rattle.tally_returns.specs.PastSeats.{PastSeats};

    ghost Value = { PastSeats };

    ghost view = { λ past. record { edition = past.edition; seats = past.seats.items } };
}

impl Past {
    /// A copy with the same content.
    pub fn try_copy(&self, alloc: Global) -> Result<Past, AllocError>
        ensures { IfOk result (λ copy. copy ≡ self.now) }
    {
        Ok(Past {
            edition: self.edition,
            seats: self.seats.as_slice().to_vec(alloc)?,
        })
    }
}

/// The view of a constituency.
#[derive(Debug, Drop)]
pub struct ConView {
    /// From 1 to 9,999.
    pub edition: u32,
    pub certified: bool,
    /// The note of its last reopening, empty where there was none.
    pub note: String,
    /// The places of the lists in the order of the recorded lot, empty where there is none.
    pub lot: Vec<u32>,
    /// How many stations there are.
    pub stations: u32,
    /// How many of their returns are received, and so on.
    pub received: u32,
    pub queried: u32,
    pub corrected: u32,
    pub closed: u32,
    /// The votes for each list in the closed returns.
    pub votes: Vec<u64>,
    /// The blank votes in the closed returns.
    pub blank: u64,
    /// The spoiled votes in the closed returns.
    pub spoiled: u64,
    /// The seats of each list where the constituency is certified, and else empty.
    pub seats: Vec<u32>,
    /// The candidates who are gone, in order of list and then of candidate.
    pub gone: Vec<Gone>,
    /// The seats of each certificate that was reopened, in order of edition.
    pub past: Vec<Past>,
}

impl Model for ConView {
    ghost use Rattle.std.specs.Prelude.{string_bytes};
    ghost use Rattle.tally_returns.specs.View.{View};

    ghost Value = { View };

    ghost view = { λ v. record {
      edition = v.edition;
      certified = v.certified;
      note = string_bytes v.note;
      lot = v.lot.items;
      stations = v.stations;
      received = v.received;
      queried = v.queried;
      corrected = v.corrected;
      closed = v.closed;
      votes = v.votes.items;
      blank = v.blank;
      spoiled = v.spoiled;
      seats = v.seats.items;
      gone = v.gone.items;
      past = v.past.items;
    } };
}

impl ConView {
    /// Whether the view has the shape of one of this constituency, as one that came from a database
    /// may not: a number of votes for each list, and seats where it is certified and in each
    /// certificate that was reopened; votes, edition and closed stations within their limits.
    pub fn fits(&self, con: &Constituency) -> bool
        ensures fits { IsTrue result → FitsView con.now self.now }
        ensures otherwise { FitsView con.now self.now → IsTrue result }
    {
        let lists = con.lists.len();
        if self.certified && self.seats.len() != lists {
            return false;
        }
        if !have_each_list(con, &self.past) {
            return false;
        }
        self.votes.len() == lists
            && self.edition <= LAST_EDITION
            && self.closed <= self.stations
            && are_within(&self.votes, self.blank)
    }

    /// The view without its certificates on record.
    pub fn without_past(self) -> ConView
        ensures { result ≡ record self { past = [] } }
    {
        let mut shown = self;
        shown.past.clear();
        shown
    }

    /// A copy with the same content.
    pub fn try_copy(&self, alloc: Global) -> Result<ConView, AllocError>
        ensures { IfOk result (λ copy. copy ≡ self.now) }
    {
        Ok(ConView {
            edition: self.edition,
            certified: self.certified,
            note: String::from_str(alloc, self.note.as_str())?,
            lot: self.lot.as_slice().to_vec(alloc)?,
            stations: self.stations,
            received: self.received,
            queried: self.queried,
            corrected: self.corrected,
            closed: self.closed,
            votes: self.votes.as_slice().to_vec(alloc)?,
            blank: self.blank,
            spoiled: self.spoiled,
            seats: self.seats.as_slice().to_vec(alloc)?,
            gone: gone_copies(alloc, &self.gone)?,
            past: past_copies(alloc, &self.past)?,
        })
    }
}

fn are_within(votes: &[u64], blank: u64) -> bool
    ensures within { IsTrue result → IsWithinVotes votes.now blank }
    ensures otherwise { IsWithinVotes votes.now blank → IsTrue result }
{
    if blank > MOST_VOTES {
        return false;
    }
    let mut left = MOST_VOTES - blank;
    for list in votes {
        if *list > left {
            return false;
        }
        left -= *list;
    }
    true
}

/// Whether each of the certificates that were reopened gave each list a number of seats.
fn have_each_list(con: &Constituency, past: &[Past]) -> bool
    ensures each { IsTrue result → All (HasEachList con.now) past.now }
    ensures otherwise { All (HasEachList con.now) past.now → IsTrue result }
{
    for certificate in past {
        if certificate.seats.len() != con.lists.len() {
            return false;
        }
    }
    true
}

fn gone_copies(alloc: Global, gone: &[Gone]) -> Result<Vec<Gone>, AllocError>
    ensures { IfOk result (λ copies. copies.items ≡ gone.now) }
{
    let mut copies = Vec::new(alloc);
    for candidate in gone {
        copies.push(candidate.try_copy(alloc)?)?;
    }
    Ok(copies)
}

fn past_copies(alloc: Global, past: &[Past]) -> Result<Vec<Past>, AllocError>
    ensures { IfOk result (λ copies. copies.items ≡ past.now) }
{
    let mut copies = Vec::new(alloc);
    for certificate in past {
        copies.push(certificate.try_copy(alloc)?)?;
    }
    Ok(copies)
}
