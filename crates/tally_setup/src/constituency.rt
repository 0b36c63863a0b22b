//! Constituencies, with their lists and stations.

ghost use Rattle.std.specs.Prelude.{◌≡◌, ◌≤◌, IfOk, IsTrue, sum_by};
ghost use Rattle.tally_frac.specs.Limits.{most_votes};
ghost use Rattle.tally_setup.specs.Constituency.{entitled};

use crate::code::Code;
use crate::profile::Profile;
use std::alloc::{AllocError, Global};
use std::marker::Model;
use tally_frac::MOST_VOTES;

/// How many entries a return of a constituency needs before it is closed.
#[derive(Clone, Copy, Debug, PartialEq, Eq)]
pub enum Entry {
    /// One: a return is closed as it was entered.
    Single,
    /// Two: a return is closed by a second entry of the same slip and counts alone.
    Double,
}

/// A polling station.
#[derive(Clone, Copy, Debug, PartialEq, Eq)]
pub struct Station {
    /// The code, which no other station of the setup has.
    pub code: Code,
    /// The number of electors, 1 to 1,000,000.
    pub electors: u32,
    /// The agents of lists who vote here and are no electors of this station (LOREG article 105.4),
    /// 0 to 1,000; together with the electors at most 1,000,000.
    pub agents: u32,
}

impl Station {
    /// How many may vote here: the electors and the agents.
    pub fn entitled(&self) -> u64
        ensures { result ≡ entitled self.now }
    {
        u64::from(self.electors) + u64::from(self.agents)
    }
}

/// Whether those who may vote at these stations are together at most 5,000,000,000, the most votes
/// of an allotment.
pub fn are_few_entitled(stations: &[Station]) -> bool
    ensures few { IsTrue result → sum_by entitled stations.now ≤ most_votes }
    ensures otherwise { sum_by entitled stations.now ≤ most_votes → IsTrue result }
{
    let mut left = MOST_VOTES;
    for station in stations {
        let entitled = station.entitled();
        if entitled > left {
            return false;
        }
        left -= entitled;
    }
    true
}

/// A list that stands for election. Contracts see its texts as lists of bytes.
#[derive(Debug, Drop)]
pub struct ListEntry {
    /// The code, which no other list of the constituency has.
    pub code: Code,
    /// The name, 1 to 80 bytes.
    pub name: String,
    /// The names of its 1 to 1,000 candidates, in the order in which they take seats (LOREG
    /// article 163.1 e)).
    pub candidates: Vec<String>,
}

impl Model for ListEntry {
    ghost use Rattle.std.specs.Prelude.{map, string_bytes};
    ghost use Rattle.tally_setup.specs.Constituency as value;
    ghost use Rattle.tally_setup.specs.Limits as limits;

    ghost Value = { value.ListEntry };

    ghost view = { λ list. record {
      code = list.code;
      name = string_bytes list.name;
      candidates = map string_bytes list.candidates.items;
    } };

    ghost invariant = { λ list. limits.IsListEntry (record {
      code = list.code;
      name = string_bytes list.name;
      candidates = map string_bytes list.candidates.items;
    }) };
}

impl ListEntry {
    /// A copy with the same code and the same texts.
    pub fn try_copy(&self, alloc: Global) -> Result<ListEntry, AllocError>
        ensures { IfOk result (λ list. list ≡ self.now) }
    {
        let mut candidates = Vec::with_capacity(alloc, self.candidates.len())?;
        for name in &self.candidates {
            candidates.push(String::from_str(alloc, name.as_str())?)?;
        }
        Ok(ListEntry {
            code: self.code,
            name: String::from_str(alloc, self.name.as_str())?,
            candidates,
        })
    }
}

/// A constituency. Contracts see its texts as lists of bytes.
#[derive(Debug, Drop)]
pub struct Constituency {
    /// The code, which no other constituency of the setup has.
    pub code: Code,
    /// The name, 1 to 80 bytes.
    pub name: String,
    /// The number of seats, 1 to 500.
    pub seats: u32,
    /// The code of the profile.
    pub profile_code: Code,
    /// The rule that the seats are allotted by.
    pub profile: Profile,
    /// How many entries a return needs.
    pub entry: Entry,
    /// The 1 to 60 lists, in order; no two have one code.
    pub lists: Vec<ListEntry>,
    /// The 1 to 20,000 stations, with at most 5,000,000,000 who may vote at them.
    pub stations: Vec<Station>,
}

impl Model for Constituency {
    ghost use Rattle.std.specs.Prelude.{string_bytes};
    ghost use Rattle.tally_setup.specs.Constituency as value;
    ghost use Rattle.tally_setup.specs.Limits as limits;

    ghost Value = { value.Constituency };

    ghost view = { λ con. record {
      code = con.code;
      name = string_bytes con.name;
      seats = con.seats;
      profile_code = con.profile_code;
      profile = con.profile;
      entry = con.entry;
      lists = con.lists.items;
      stations = con.stations.items;
    } };

    ghost invariant = { λ con. limits.IsConstituency (record {
      code = con.code;
      name = string_bytes con.name;
      seats = con.seats;
      profile_code = con.profile_code;
      profile = con.profile;
      entry = con.entry;
      lists = con.lists.items;
      stations = con.stations.items;
    }) };
}

impl Constituency {
    /// A copy with the same content.
    pub fn try_copy(&self, alloc: Global) -> Result<Constituency, AllocError>
        ensures { IfOk result (λ con. con ≡ self.now) }
    {
        let mut lists = Vec::with_capacity(alloc, self.lists.len())?;
        for list in &self.lists {
            lists.push(list.try_copy(alloc)?)?;
        }
        Ok(Constituency {
            code: self.code,
            name: String::from_str(alloc, self.name.as_str())?,
            seats: self.seats,
            profile_code: self.profile_code,
            profile: self.profile,
            entry: self.entry,
            lists,
            stations: self.stations.as_slice().to_vec(alloc)?,
        })
    }
}
