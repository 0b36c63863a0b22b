//! The entries of the arrays of a setup.

ghost use Rattle.std.specs.Prelude.{◌≡◌, ◌≤◌, ◌<◌, ◌^◌, ◌++◌, ◌∷◌, [], All, Ok, IfOk, IfErr};
ghost use Rattle.std.specs.Prelude.{OnOk, length, map, string_bytes, sum_by, true};
ghost use Rattle.std.specs.List.{list_all};
ghost use Rattle.toml.specs.View.{view};
ghost use Rattle.tally_frac.specs.Limits.{most_lists, most_votes};
ghost use Rattle.tally_setup.specs.Code.{is_code};
ghost use Rattle.tally_setup.specs.Codes.{AreDistinct};
ghost use Rattle.tally_setup.specs.Constituency.{entitled, list_codes, station_codes};
ghost use Rattle.tally_setup.specs.Limits.{IsConstituency, IsListEntry, IsStation};
ghost use Rattle.tally_setup.specs.Limits.{most_candidates};
ghost use Rattle.tally_rules.specs.internal.Found.{first_found, key_name, IsFoundIn, is_kind};
ghost use Rattle.tally_rules.specs.internal.Found.{IsPlacedIn};
ghost use Rattle.tally_rules.specs.Place.{in_entry};
ghost use Rattle.tally_rules.specs.Reading.{candidate, constituency_entry, first_in};
ghost use Rattle.tally_rules.specs.Reading.{first_station, list_entry, next_code, read_array};
ghost use Rattle.tally_rules.specs.Reading.{read_candidates, read_each_station, read_lists};
ghost use Rattle.tally_rules.specs.Reading.{read_stations, station_coded, with_few_entitled};
ghost use Rattle.tally_rules.specs.Reading.{rest_of_constituency, rest_of_list, rest_of_station};
ghost use Rattle.tally_rules.specs.Reading.{station_entry, station_way};
ghost use Rattle.tally_setup.specs.Setup.{all_station_codes, constituency_codes};
ghost use Rattle.tally_setup.specs.Text.{IsName};

use crate::place::{Holder, Place, SetupArray, Way};
use crate::read::fault::{Key, KeyFault, PlacedFault, in_entry};
use crate::read::key::{
    name_from, new_code, read_agents, read_code, read_entry, read_name, read_number,
    read_station_limit, read_value,
};
use crate::read::profile::Profiles;
use std::alloc::Global;
use tally_frac::{MOST_LISTS, MOST_SEATS};
use tally_setup::{
    Code, Codes, Constituency, ListEntry, MOST_CANDIDATES, MOST_ELECTORS, Station, are_few_entitled,
};
use toml::Value;

/// The type that the items of an array must have.
#[derive(Clone, Copy)]
pub(super) enum Kind {
    Text,
    Table,
}

impl Kind {
    fn is(self, value: &Value) -> bool
        ensures { result ≡ is_kind self (view value.now) }
    {
        match self {
            Kind::Text => value.is_str(),
            Kind::Table => value.is_table(),
        }
    }
}

/// The array of a key, of one to `limit` items.
#[tactic(auto, unfolding(crate::specs::Reading::read_array))]
pub(super) fn read_array(
    entry: &Value,
    key: Key,
    kind: Kind,
    limit: usize,
) -> Result<&[Value], KeyFault>
    ensures array { IfOk result (λ items.
        read_array (is_kind kind) (key_name key) limit (view entry.now) ≡ Ok (map view items.now)) }
    ensures some { IfOk result (λ items. 1 ≤ length items.now) }
    ensures limit { IfOk result (λ items. length items.now ≤ limit) }
    ensures fault { IfErr result
        (IsFoundIn (read_array (is_kind kind) (key_name key) limit (view entry.now))) }
{
    let items = match read_value(entry, key)?.as_array() {
        Some(items) => items.as_slice(),
        None => return Err(KeyFault::BadValue(key)),
    };
    if items.is_empty() {
        Err(KeyFault::Missing(key))
    } else if !are(kind, items) {
        Err(KeyFault::BadValue(key))
    } else if items.len() > limit {
        Err(KeyFault::OverLimit(key))
    } else {
        Ok(items)
    }
}

/// As `read_array`, for a key of an entry, which has the fault, if there is one.
fn array_in<'a>(
    entry: &'a Value,
    way: &Way,
    key: Key,
    kind: Kind,
    limit: usize,
) -> Result<&'a [Value], PlacedFault>
    ensures array { IfOk result (λ items.
        in_entry way.now (read_array (is_kind kind) (key_name key) limit (view entry.now)) ≡
        Ok (map view items.now)) }
    ensures some { IfOk result (λ items. 1 ≤ length items.now) }
    ensures limit { IfOk result (λ items. length items.now ≤ limit) }
    ensures fault { IfErr result (IsPlacedIn
        (in_entry way.now (read_array (is_kind kind) (key_name key) limit (view entry.now)))) }
{
    in_entry(way, read_array(entry, key, kind, limit))
}

fn are(kind: Kind, items: &[Value]) -> bool
    ensures { result ≡ list_all (λ item. is_kind kind (view item)) items.now }
{
    items.iter().all(|item| kind.is(item))
}

/// The entry that has a code first, among those of these codes.
fn first_in(array: &SetupArray, taken: &Codes, fault: &KeyFault) -> Option<Way>
    ensures { result ≡ first_found (first_in array.now taken.now) fault.now }
{
    match fault {
        KeyFault::Duplicate(code) => Some(array.coded(taken.index_of(*code)? + 1, *code)),
        _ => None,
    }
}

/// The code of the entry after those of these codes, to which it is added.
#[tactic(auto, unfolding(crate::specs::Reading::next_code))]
pub(super) fn next_code(
    entry: &Value,
    array: &SetupArray,
    taken: &mut Codes,
) -> Result<Code, PlacedFault>
    ensures code { IfOk result (λ code.
        next_code array.now taken.old (view entry.now) ≡ Ok code) }
    ensures is_code { IfOk result (λ code. is_code code ≡ true) }
    ensures taken { IfOk result (λ code. taken.new ≡ taken.old ++ code ∷ []) }
    ensures distinct { OnOk result (AreDistinct taken.new) }
    ensures fault { IfErr result (IsPlacedIn (next_code array.now taken.old (view entry.now))) }
{
    let way = array.nth(taken.len() + 1);
    match new_code(entry, taken) {
        Ok(code) => Ok(code),
        Err(fault) => {
            let first = first_in(array, taken, &fault);
            Err(PlacedFault {
                fault,
                place: Some(Place::Entry(way, first)),
            })
        }
    }
}

/// The way to the station at a place, from 0, among those of these constituencies and after them
/// those so far of one more.
fn station_way(cons: &[Constituency], con: &Holder, place: usize, code: Code) -> Way
    requires bound { place < 2 ^ 63 }
    ensures way { result ≡ station_way 1 cons.now con.now place code }
{
    let mut left = place;
    for (index, first) in cons.iter().enumerate() {
        if left < first.stations.len() {
            let first = Holder {
                number: index + 1,
                code: first.code,
            };
            return first.stations().coded(left + 1, code);
        }
        left -= first.stations.len();
    }
    con.stations().coded(left + 1, code)
}

/// The station that has a code first.
fn first_station(
    before: &[Constituency],
    con: &Holder,
    taken: &Codes,
    fault: &KeyFault,
) -> Option<Way>
    ensures { result ≡ first_found (first_station before.now con.now taken.now) fault.now }
{
    match fault {
        KeyFault::Duplicate(code) => {
            Some(station_way(before, con, taken.index_of(*code)?, *code))
        }
        _ => None,
    }
}

/// The keys of an entry of `station` beside its code.
#[tactic(auto, unfolding(crate::specs::Reading::station_coded))]
fn station_coded(entry: &Value, code: Code) -> Result<Station, KeyFault>
    requires { is_code code ≡ true }
    ensures station { IfOk result (λ station. station_coded code (view entry.now) ≡ Ok station) }
    ensures code { IfOk result (λ station. station.code ≡ code) }
    ensures limits { IfOk result IsStation }
    ensures fault { IfErr result (IsFoundIn (station_coded code (view entry.now))) }
{
    let electors = read_number(entry, Key::Electors, 1, MOST_ELECTORS)?;
    let agents = read_agents(entry, electors)?;
    Ok(Station {
        code,
        electors,
        agents,
    })
}

/// The keys of an entry of `station` beside its code, for this number and code.
#[tactic(auto, unfolding(crate::specs::Reading::rest_of_station))]
fn rest_of_station(
    entry: &Value,
    con: &Holder,
    number: usize,
    code: Code,
) -> Result<Station, PlacedFault>
    requires { is_code code ≡ true }
    ensures station { IfOk result (λ station.
        rest_of_station con.now number code (view entry.now) ≡ Ok station) }
    ensures code { IfOk result (λ station. station.code ≡ code) }
    ensures limits { IfOk result IsStation }
    ensures fault { IfErr result
        (IsPlacedIn (rest_of_station con.now number code (view entry.now))) }
{
    in_entry(
        &con.stations().coded(number, code),
        station_coded(entry, code),
    )
}

/// An entry of `station` of a constituency, after these constituencies and these stations, whose
/// code is added to those taken.
#[tactic(auto, unfolding(crate::specs::Reading::station_entry))]
fn station_entry(
    entry: &Value,
    before: &[Constituency],
    con: &Holder,
    stations: &[Station],
    taken: &mut Codes,
) -> Result<Station, PlacedFault>
    requires taken { taken.old ≡ all_station_codes before.now ++ station_codes stations.now }
    ensures station { IfOk result (λ station.
        station_entry before.now con.now stations.now (view entry.now) ≡ Ok station) }
    ensures taken { IfOk result (λ station. taken.new ≡ taken.old ++ station.code ∷ []) }
    ensures distinct { OnOk result (AreDistinct taken.new) }
    ensures limits { IfOk result IsStation }
    ensures fault { IfErr result
        (IsPlacedIn (station_entry before.now con.now stations.now (view entry.now))) }
{
    let number = stations.len() + 1;
    let way = con.stations().nth(number);
    match new_code(entry, taken) {
        Ok(code) => rest_of_station(entry, con, number, code),
        Err(fault) => {
            let first = first_station(before, con, taken, &fault);
            Err(PlacedFault {
                fault,
                place: Some(Place::Entry(way, first)),
            })
        }
    }
}

/// Each entry of `station` of a constituency with at most this many, after these constituencies.
/// The codes of its stations are added to those taken.
#[tactic(auto, unfolding(crate::specs::Reading::read_each_station))]
fn read_each_station(
    alloc: Global,
    entry: &Value,
    before: &[Constituency],
    con: &Holder,
    limit: usize,
    taken: &mut Codes,
) -> Result<Vec<Station>, PlacedFault>
    requires taken { taken.old ≡ all_station_codes before.now }
    requires distinct { AreDistinct taken.old }
    ensures stations { IfOk result (λ stations.
        read_each_station before.now con.now limit (view entry.now) ≡ Ok stations.items) }
    ensures taken { IfOk result (λ stations.
        taken.new ≡ taken.old ++ station_codes stations.items) }
    ensures distinct { OnOk result (AreDistinct taken.new) }
    ensures some { IfOk result (λ stations. 1 ≤ length stations.items) }
    ensures limit { IfOk result (λ stations. length stations.items ≤ limit) }
    ensures each { IfOk result (λ stations. All IsStation stations.items) }
    ensures fault { IfErr result
        (IsPlacedIn (read_each_station before.now con.now limit (view entry.now))) }
{
    let here = con.constituency_way();
    let entries = array_in(entry, &here, Key::Station, Kind::Table, limit)?;
    let mut stations = Vec::with_capacity(alloc, entries.len())?;
    for station in entries {
        let station = station_entry(station, before, con, &stations, taken)?;
        stations.push_reserved(station);
    }
    Ok(stations)
}

/// Those stations, where at most 5,000,000,000 may vote at them.
fn with_few_entitled(con: &Holder, stations: Vec<Station>) -> Result<Vec<Station>, PlacedFault>
    ensures stations { IfOk result (λ s. with_few_entitled con.now stations.items ≡ Ok s.items) }
    ensures same { IfOk result (λ s. s.items ≡ stations.items) }
    ensures few { IfOk result (λ s. sum_by entitled s.items ≤ most_votes) }
    ensures fault { IfErr result (IsPlacedIn (with_few_entitled con.now stations.items)) }
{
    if are_few_entitled(&stations) {
        return Ok(stations);
    }
    Err(PlacedFault {
        fault: KeyFault::OverLimit(Key::Electors),
        place: Some(Place::Entry(con.constituency_way(), None)),
    })
}

/// The stations of a constituency with at most this many, after these constituencies, whose codes
/// are added to those taken.
#[tactic(auto, unfolding(crate::specs::Reading::read_stations))]
fn read_stations(
    alloc: Global,
    entry: &Value,
    before: &[Constituency],
    con: &Holder,
    limit: usize,
    taken: &mut Codes,
) -> Result<Vec<Station>, PlacedFault>
    requires taken { taken.old ≡ all_station_codes before.now }
    requires distinct { AreDistinct taken.old }
    ensures stations { IfOk result (λ stations.
        read_stations before.now con.now limit (view entry.now) ≡ Ok stations.items) }
    ensures taken { IfOk result (λ stations.
        taken.new ≡ taken.old ++ station_codes stations.items) }
    ensures distinct { OnOk result (AreDistinct taken.new) }
    ensures some { IfOk result (λ stations. 1 ≤ length stations.items) }
    ensures limit { IfOk result (λ stations. length stations.items ≤ limit) }
    ensures each { IfOk result (λ stations. All IsStation stations.items) }
    ensures few { IfOk result (λ stations. sum_by entitled stations.items ≤ most_votes) }
    ensures fault { IfErr result
        (IsPlacedIn (read_stations before.now con.now limit (view entry.now))) }
{
    match read_each_station(alloc, entry, before, con, limit, taken) {
        Ok(stations) => with_few_entitled(con, stations),
        Err(fault) => Err(fault),
    }
}

/// The name of the candidate of a number.
fn candidate(
    alloc: Global,
    name: &Value,
    con: &Holder,
    list: &Holder,
    number: usize,
) -> Result<String, PlacedFault>
    ensures name { IfOk result (λ n.
        candidate con.now list.now number (view name.now) ≡ Ok (string_bytes n)) }
    ensures limits { IfOk result (λ n. IsName (string_bytes n)) }
    ensures fault { IfErr result (IsPlacedIn (candidate con.now list.now number (view name.now))) }
{
    let here = con.candidates(list).nth(number);
    in_entry(&here, name_from(alloc, name, Key::Candidates))
}

/// The names of the candidates of a list of a constituency.
#[tactic(auto, unfolding(crate::specs::Reading::read_candidates))]
fn read_candidates(
    alloc: Global,
    entry: &Value,
    con: &Holder,
    list: &Holder,
) -> Result<Vec<String>, PlacedFault>
    ensures candidates { IfOk result (λ names.
        read_candidates con.now list.now (view entry.now) ≡ Ok (map string_bytes names.items)) }
    ensures some { IfOk result (λ names. 1 ≤ length names.items) }
    ensures limit { IfOk result (λ names. length names.items ≤ most_candidates) }
    ensures each { IfOk result (λ names. All IsName (map string_bytes names.items)) }
    ensures fault { IfErr result (IsPlacedIn (read_candidates con.now list.now (view entry.now))) }
{
    let here = con.list_way(list);
    let entries = array_in(entry, &here, Key::Candidates, Kind::Text, MOST_CANDIDATES)?;
    let mut names = Vec::with_capacity(alloc, entries.len())?;
    for name in entries {
        let name = candidate(alloc, name, con, list, names.len() + 1)?;
        names.push_reserved(name);
    }
    Ok(names)
}

/// The keys of an entry of `list` beside its code, for this constituency and this list.
#[tactic(auto, unfolding(crate::specs::Reading::rest_of_list))]
fn rest_of_list(
    alloc: Global,
    entry: &Value,
    con: &Holder,
    list: &Holder,
) -> Result<ListEntry, PlacedFault>
    requires { is_code list.now.code ≡ true }
    ensures list { IfOk result (λ l. rest_of_list con.now list.now (view entry.now) ≡ Ok l) }
    ensures code { IfOk result (λ l. l.code ≡ list.now.code) }
    ensures limits { IfOk result IsListEntry }
    ensures fault { IfErr result (IsPlacedIn (rest_of_list con.now list.now (view entry.now))) }
{
    Ok(ListEntry {
        code: list.code,
        name: in_entry(&con.list_way(list), read_name(alloc, entry))?,
        candidates: read_candidates(alloc, entry, con, list)?,
    })
}

/// An entry of `list` of a constituency, whose code is added to those taken.
#[tactic(auto, unfolding(crate::specs::Reading::list_entry))]
fn list_entry(
    alloc: Global,
    entry: &Value,
    con: &Holder,
    taken: &mut Codes,
) -> Result<ListEntry, PlacedFault>
    ensures list { IfOk result (λ list.
        list_entry con.now taken.old (view entry.now) ≡ Ok list) }
    ensures taken { IfOk result (λ list. taken.new ≡ taken.old ++ list.code ∷ []) }
    ensures distinct { OnOk result (AreDistinct taken.new) }
    ensures limits { IfOk result IsListEntry }
    ensures fault { IfErr result (IsPlacedIn (list_entry con.now taken.old (view entry.now))) }
{
    let number = taken.len() + 1;
    let code = next_code(entry, &con.lists(), taken)?;
    rest_of_list(alloc, entry, con, &Holder { number, code })
}

/// The lists of a constituency.
#[tactic(auto, unfolding(crate::specs::Reading::read_lists))]
fn read_lists(alloc: Global, entry: &Value, con: &Holder) -> Result<Vec<ListEntry>, PlacedFault>
    ensures lists { IfOk result (λ lists. read_lists con.now (view entry.now) ≡ Ok lists.items) }
    ensures distinct { IfOk result (λ lists. AreDistinct (list_codes lists.items)) }
    ensures some { IfOk result (λ lists. 1 ≤ length lists.items) }
    ensures limit { IfOk result (λ lists. length lists.items ≤ most_lists) }
    ensures each { IfOk result (λ lists. All IsListEntry lists.items) }
    ensures fault { IfErr result (IsPlacedIn (read_lists con.now (view entry.now))) }
{
    let here = con.constituency_way();
    let entries = array_in(entry, &here, Key::List, Kind::Table, MOST_LISTS)?;
    let mut lists = Vec::with_capacity(alloc, entries.len())?;
    let mut codes = Codes::new(alloc);
    for list in entries {
        lists.push_reserved(list_entry(alloc, list, con, &mut codes)?);
    }
    Ok(lists)
}

/// The keys of an entry of `constituency` beside its code, after these constituencies. The
/// codes of its stations are added to those taken.
#[tactic(auto, unfolding(crate::specs::Reading::rest_of_constituency))]
fn rest_of_constituency(
    alloc: Global,
    entry: &Value,
    profiles: &Profiles,
    before: &[Constituency],
    con: &Holder,
    stations: &mut Codes,
) -> Result<Constituency, PlacedFault>
    requires is_code { is_code con.now.code ≡ true }
    requires stations { stations.old ≡ all_station_codes before.now }
    requires distinct { AreDistinct stations.old }
    ensures constituency { IfOk result (λ c.
        rest_of_constituency profiles.now before.now con.now (view entry.now) ≡ Ok c) }
    ensures code { IfOk result (λ c. c.code ≡ con.now.code) }
    ensures stations { IfOk result (λ c.
        stations.new ≡ stations.old ++ station_codes c.stations) }
    ensures distinct { OnOk result (AreDistinct stations.new) }
    ensures limits { IfOk result IsConstituency }
    ensures fault { IfErr result
        (IsPlacedIn (rest_of_constituency profiles.now before.now con.now (view entry.now))) }
{
    let here = con.constituency_way();
    let name = in_entry(&here, read_name(alloc, entry))?;
    let seats = in_entry(&here, read_number(entry, Key::Seats, 1, MOST_SEATS))?;
    let profile_code = in_entry(&here, read_code(entry, Key::Profile))?;
    let profile = profiles.find(profile_code).ok_or(KeyFault::UnknownProfile);
    let profile = in_entry(&here, profile)?;
    let needed = in_entry(&here, read_entry(entry))?;
    let limit = in_entry(&here, read_station_limit(entry))?;
    Ok(Constituency {
        code: con.code,
        name,
        seats,
        profile_code,
        profile,
        entry: needed,
        lists: read_lists(alloc, entry, con)?,
        stations: read_stations(alloc, entry, before, con, limit, stations)?,
    })
}

/// An entry of `constituency` after these, whose code and whose stations' codes are added to those
/// taken.
#[tactic(auto, unfolding(crate::specs::Reading::constituency_entry))]
pub(super) fn constituency_entry(
    alloc: Global,
    entry: &Value,
    profiles: &Profiles,
    before: &[Constituency],
    taken: &mut Codes,
    stations: &mut Codes,
) -> Result<Constituency, PlacedFault>
    requires taken { taken.old ≡ constituency_codes before.now }
    requires stations { stations.old ≡ all_station_codes before.now }
    requires distinct { AreDistinct stations.old }
    ensures constituency { IfOk result (λ con.
        constituency_entry profiles.now before.now (view entry.now) ≡ Ok con) }
    ensures taken { IfOk result (λ con. taken.new ≡ taken.old ++ con.code ∷ []) }
    ensures stations { IfOk result (λ con.
        stations.new ≡ stations.old ++ station_codes con.stations) }
    ensures distinct { OnOk result (AreDistinct taken.new) }
    ensures distinct_stations { OnOk result (AreDistinct stations.new) }
    ensures limits { IfOk result IsConstituency }
    ensures fault { IfErr result
        (IsPlacedIn (constituency_entry profiles.now before.now (view entry.now))) }
{
    let number = before.len() + 1;
    let code = next_code(entry, &SetupArray::Constituencies, taken)?;
    rest_of_constituency(
        alloc,
        entry,
        profiles,
        before,
        &Holder { number, code },
        stations,
    )
}
