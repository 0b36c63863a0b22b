//! The returns that the rows of a text lodge in a fresh office.

ghost use Rattle.std.specs.Prelude.{◌≡◌, ◌+◌, ◌≤◌, ℕ, List, [], if◌then◌else◌, IfErr, IfOk, OnOk};
ghost use Rattle.std.specs.Prelude.{None, Some, length, map, option_map};
ghost use Rattle.std.specs.List.{find};
ghost use Rattle.std.specs.Prelude.{nat_eq, string_bytes};
ghost use Rattle.std.specs.Cmp.Lexicographic.{pointwise};
ghost use Rattle.std.specs.HashMap.{get};
ghost use Rattle.std.specs.HashSet.{contains};
ghost use Rattle.std.specs.Str.{bytes_eq};
ghost use Rattle.tally_frac.specs.Limits.{most_lists};
ghost use Rattle.tally_setup.specs.Constituency.{Constituency, entitled};
ghost use Rattle.tally_returns_rows.specs.Import.{is_lodged};
ghost use Rattle.tally_returns_rows.specs.Source.{row_limit};
ghost use Rattle.tally_returns_rows.specs.declared.import.Row.{Row};
ghost use Rattle.tally_returns.specs.Counts.{VoteCounts};
ghost use Rattle.tally_returns.specs.Lodge.{lodge, lodge_answer};
ghost use Rattle.tally_returns.specs.Return.{Returns};
ghost use Rattle.tally_import.specs.ReturnRows.{station_limits_in};
ghost use Rattle.tally_import_votes.specs.Lot.{words_given};

use crate::fault::RecountTrouble;
use crate::without::stations_named;
use std::alloc::{AllocError, Global};
use std::collections::{HashMap, HashSet};
use tally_import_votes::{AllotTrouble, words_given};
use tally_returns::{Ask, Counts, LodgeReply, Return, decide_lodge};
use tally_returns_rows::Row;
use tally_setup::{Code, Constituency, Station};

/// How far a recount has come.
#[derive(Drop)]
pub(crate) struct Register {
    /// How many lists there are.
    lists: usize,
    /// How many may vote at each station, by its code.
    entitled: HashMap<Code, u64>,
    /// The stations that are left out.
    pub(crate) left_out: HashSet<Code>,
    /// The returns that were lodged, by station.
    pub(crate) returns: HashMap<Code, Return>,
    /// How many rows were judged and not lodged.
    pub(crate) passed: u32,
}

impl Register {
    ghost use Rattle.tally_import_recount.specs.Counted.{no_station};
    ghost use Rattle.tally_import.specs.internal.Table.{Holds};
    ghost use Rattle.tally_import_recount.specs.internal.Finds.{IsNoStation};
    ghost use Rattle.tally_import_recount.specs.internal.Register.{HasStations, HasTaken, TakesRow};

    /// The register of a constituency, without the stations that a text names.
    pub(crate) fn new(
        alloc: Global,
        con: &Constituency,
        without: &Option<String>,
    ) -> Result<Register, RecountTrouble>
        ensures known { OnOk result
            (no_station con.now (words_given (option_map string_bytes without.now)) ≡ None) }
        ensures taken { IfOk result
            (HasTaken con.now (words_given (option_map string_bytes without.now)) []) }
        ensures lists { IfOk result (λ register. register.lists ≤ most_lists) }
        ensures none { IfOk result (λ register. register.passed ≡ 0) }
        ensures trouble { IfErr result
            (IsNoStation con.now (words_given (option_map string_bytes without.now))) }
    {
        let Ok(words) = words_given(alloc, without) else {
            return Err(RecountTrouble::Allot(AllotTrouble::Memory));
        };
        let Ok(entitled) = entitled_at(alloc, &con.stations) else {
            return Err(RecountTrouble::Allot(AllotTrouble::Memory));
        };
        match stations_named(alloc, con, &entitled, &words) {
            Ok(left_out) => Ok(Register {
                lists: con.lists.len(),
                entitled,
                left_out,
                returns: HashMap::new(alloc),
                passed: 0,
            }),
            Err(trouble) => Err(trouble),
        }
    }

    /// Takes the next row.
    pub(crate) fn take(&mut self, alloc: Global, row: Row) -> Result<(), AllocError>
        requires lists { self.old.lists ≤ most_lists }
        requires few { self.old.passed ≤ row_limit }
        ensures taken { OnOk result (TakesRow self.old row self.new) }
        ensures passed { OnOk result (self.new.passed ≤ self.old.passed + 1) }
        ensures lists { self.new.lists ≡ self.old.lists }
    {
        match row {
            Row::Lodge(ask) => self.take_ask(alloc, ask),
            Row::Bad(_) => {
                self.pass();
                Ok(())
            }
        }
    }

    /// Takes what a Lodge brings, unless its station is left out. It is a function of its own,
    /// since the prover opens one enum at a time.
    fn take_ask(&mut self, alloc: Global, ask: Ask) -> Result<(), AllocError>
        requires lists { self.old.lists ≤ most_lists }
        requires few { self.old.passed ≤ row_limit }
        ensures taken { OnOk result (TakesRow self.old (Row.Lodge ask) self.new) }
        ensures passed { OnOk result (self.new.passed ≤ self.old.passed + 1) }
        ensures lists { self.new.lists ≡ self.old.lists }
    {
        let Ask::Lodge {
            station,
            slip,
            counts,
        } = ask
        else {
            self.pass();
            return Ok(());
        };
        if self.is_left_out(&station) {
            return Ok(());
        }
        let lodged = self.lodge(alloc, station, slip, counts)?;
        self.count(lodged);
        Ok(())
    }

    /// Lodges a return, and says whether it was lodged.
    fn lodge(
        &mut self,
        alloc: Global,
        station: Code,
        slip: Code,
        counts: Counts,
    ) -> Result<bool, AllocError>
        requires lists { self.old.lists ≤ most_lists }
        ensures answer { IfOk result (λ lodged. (con : Constituency) (returns : Returns)
            → self.old.lists ≡ length con.lists → HasStations con self.old.entitled
            → Holds self.old.returns returns
            → lodged ≡ is_lodged
            (Some (lodge_answer (station_limits_in con) returns station slip counts))) }
        ensures table { OnOk result ((con : Constituency) (returns : Returns)
            → self.old.lists ≡ length con.lists → HasStations con self.old.entitled
            → Holds self.old.returns returns
            → Holds self.new.returns (lodge (station_limits_in con) returns station slip counts)) }
        ensures kept { self.new ≡ record self.old { returns = self.new.returns } }
    {
        let Some(entitled) = self.entitled.get(&station) else {
            return Ok(false);
        };
        let found = self.returns.get(&station);
        let answer = decide_lodge(self.lists, *entitled, found, slip, &counts);
        let Ok(LodgeReply::Lodged { .. }) = answer else {
            return Ok(false);
        };
        let lodged = Return::lodged(alloc, slip, counts);
        self.returns.insert(station, lodged)?;
        Ok(true)
    }

    /// Whether a station is left out.
    fn is_left_out(&self, station: &Code) -> bool
        ensures { result ≡ contains bytes_eq self.now.left_out station.now }
    {
        self.left_out.contains(station)
    }

    /// Counts a row that brings no return.
    fn pass(&mut self)
        requires { self.old.passed ≤ row_limit }
        ensures { self.new ≡ record self.old { passed = self.old.passed + 1 } }
    {
        self.count(false);
    }

    /// Counts a row that was judged.
    fn count(&mut self, lodged: bool)
        requires { self.old.passed ≤ row_limit }
        ensures { self.new ≡
            record self.old { passed = self.old.passed + (if lodged then 0 else 1) } }
    {
        if !lodged {
            self.passed += 1;
        }
    }
}

/// How many may vote at each of these stations, by its code.
fn entitled_at(alloc: Global, stations: &[Station]) -> Result<HashMap<Code, u64>, AllocError>
    ensures { IfOk result (λ table. (code : List ℕ) → get (pointwise nat_eq) table code
        ≡ option_map entitled (find (λ station. bytes_eq code station.code) stations.now)) }
{
    let mut table = HashMap::with_capacity(alloc, stations.len())?;
    // From the last one on, so that the first one of a code counts.
    for count in 0..stations.len() {
        let station = &stations[stations.len() - 1 - count];
        table.insert(station.code, station.entitled())?;
    }
    Ok(table)
}
