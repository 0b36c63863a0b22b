//! The stations that are left out.

ghost use Rattle.std.specs.Prelude.{◌≡◌, IfErr, IfOk, None, OnOk};
ghost use Rattle.tally_import_votes.specs.Lot.{bytes_of};
ghost use Rattle.tally_import_recount.specs.Counted.{no_station};
ghost use Rattle.tally_import_recount.specs.internal.Finds.{IsNoStation};
ghost use Rattle.tally_import_recount.specs.internal.Register.{HasStations, HasWords};

use crate::fault::RecountTrouble;
use std::alloc::Global;
use std::collections::{HashMap, HashSet};
use tally_import_votes::AllotTrouble;
use tally_setup::{Code, Constituency};

/// The stations that words name, among those of a constituency, which are in this table. The first
/// word that names none is a trouble.
pub(crate) fn stations_named(
    alloc: Global,
    con: &Constituency,
    stations: &HashMap<Code, u64>,
    words: &[Vec<u8>],
) -> Result<HashSet<Code>, RecountTrouble>
    requires { HasStations con.now stations.now }
    ensures known { OnOk result (no_station con.now (bytes_of words.now) ≡ None) }
    ensures words { IfOk result (HasWords (bytes_of words.now)) }
    ensures trouble { IfErr result (IsNoStation con.now (bytes_of words.now)) }
{
    let mut codes = HashSet::new(alloc);
    for word in words {
        let Some(code) = Code::new(word) else {
            return Err(RecountTrouble::NoStation(None));
        };
        if !stations.contains_key(&code) {
            return Err(RecountTrouble::NoStation(Some(code)));
        }
        let Ok(_) = codes.insert(code) else {
            return Err(RecountTrouble::Allot(AllotTrouble::Memory));
        };
    }
    Ok(codes)
}
