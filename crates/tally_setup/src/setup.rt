//! Setups.

ghost use Rattle.std.specs.Prelude.{◌≡◌, ◌++◌, IfOk, Some, map, option_copied, option_map};
ghost use Rattle.tally_setup.specs.Setup.{all_station_codes, constituency_codes, constituency_with};
ghost use Rattle.tally_setup.specs.Setup.{station_with, all_stations};
ghost use Rattle.tally_setup.specs.internal.Index.{places_in, station_at};
ghost use Rattle.tally_setup.specs.Limits.{IsSetup};

use crate::code::Code;
use crate::codes::Codes;
use crate::constituency::{Constituency, Station};
use std::alloc::{AllocError, Global};
use std::marker::Model;

/// The setup of an election: 1 to 200 constituencies, whose codes differ, as do the codes of all
/// their stations. Contracts see the list of the constituencies.
#[derive(Drop)]
pub struct Setup {
    cons: Vec<Constituency>,
    con_codes: Codes,
    station_codes: Codes,
    station_places: Vec<StationPlace>,
}

/// Where a station is: the number of its constituency and its own number there, from 0.
#[derive(Clone, Copy)]
struct StationPlace {
    con: usize,
    station: usize,
}

impl Model for Setup {
    ghost use Rattle.std.specs.Prelude.{List};
    ghost use Rattle.tally_setup.specs.Constituency as value;
    ghost use Rattle.tally_setup.specs.internal.Index.{IsIndexed};

    ghost Value = { List value.Constituency };

    ghost view = { λ s. s.cons.items };

    ghost invariant = { λ s. IsIndexed s.cons.items s.con_codes s.station_codes
        s.station_places.items };
}

impl Setup {
    /// The setup of these constituencies, with their codes and those of their stations.
    pub fn new(
        alloc: Global,
        cons: Vec<Constituency>,
        codes: Codes,
        stations: Codes,
    ) -> Result<Setup, AllocError>
        requires limits { IsSetup cons.items }
        requires codes { codes ≡ constituency_codes cons.items }
        requires stations { stations ≡ all_station_codes cons.items }
        ensures { IfOk result (λ setup. setup ≡ cons.items) }
    {
        let station_places = station_places(alloc, &cons)?;
        Ok(Setup {
            cons,
            con_codes: codes,
            station_codes: stations,
            station_places,
        })
    }

    /// The constituencies, in order.
    pub fn cons(&self) -> &[Constituency]
        ensures cons { result.now ≡ self.now }
        ensures limits { IsSetup self.now }
    {
        &self.cons
    }

    /// The constituency of a code.
    pub fn con(&self, code: Code) -> Option<&Constituency>
        ensures found { option_copied result ≡ constituency_with code self.now }
        ensures limits { IsSetup self.now }
    {
        self.cons.get(self.con_codes.index_of(code)?)
    }

    /// The station of a code, with its constituency.
    pub fn station(&self, code: Code) -> Option<(&Constituency, &Station)>
        ensures found { option_map (λ place. (place.0.now, place.1.now)) result ≡
            station_with code self.now }
        ensures limits { IsSetup self.now }
    {
        let place = self.station_places.get(self.station_codes.index_of(code)?)?;
        let con = self.cons.get(place.con)?;
        Some((con, con.stations.get(place.station)?))
    }
}

fn station_places(alloc: Global, cons: &[Constituency]) -> Result<Vec<StationPlace>, AllocError>
    ensures { IfOk result (λ places.
        map (station_at cons.now) places.items ≡ map Some (all_stations cons.now)) }
{
    let mut places = Vec::new(alloc);
    for (con, entry) in cons.iter().enumerate() {
        push_places(&mut places, con, entry.stations.len())?;
    }
    Ok(places)
}

fn push_places(places: &mut Vec<StationPlace>, con: usize, count: usize) -> Result<(), AllocError>
    ensures { IfOk result (λ _. places.new.items ≡ places.old.items ++ places_in con count) }
{
    for station in 0..count {
        places.push(StationPlace { con, station })?;
    }
    Ok(())
}
