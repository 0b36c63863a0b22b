//! The keys of an entry.

ghost use Rattle.std.specs.Prelude.{◌≡◌, ◌≢◌, ◌≤◌, ◌+◌, ◌++◌, ◌∷◌, [], true, Ok, IfOk, IfErr};
ghost use Rattle.std.specs.Prelude.{OnOk};
ghost use Rattle.std.specs.Prelude.{string_bytes};
ghost use Rattle.toml.specs.View.{view};
ghost use Rattle.tally_setup.specs.Code.{is_code};
ghost use Rattle.tally_setup.specs.Codes.{AreDistinct};
ghost use Rattle.tally_setup.specs.Limits.{most_agents, most_electors, most_stations};
ghost use Rattle.tally_rules.specs.internal.Found.{key_name, IsFoundIn};
ghost use Rattle.tally_rules.specs.Reading.{read_base, read_code, read_entry, read_lot_rule};
ghost use Rattle.tally_rules.specs.Reading.{read_agents, read_method, read_station_limit};
ghost use Rattle.tally_rules.specs.Reading.{name_from, read_name, new_code, read_number, number_in};
ghost use Rattle.tally_rules.specs.Reading.{read_text, read_value};
ghost use Rattle.tally_setup.specs.Text.{IsName};
ghost use Rattle.tally_rules.specs.declared.read.fault.KeyFault.TheVariants.{Memory};

use crate::read::fault::{Key, KeyFault};
use std::alloc::Global;
use tally_setup::{
    Base, Code, Codes, Entry, LotRule, MOST_AGENTS, MOST_ELECTORS, MOST_NORMAL_STATIONS,
    MOST_STATIONS, Method, good_name,
};
use toml::Value;

/// The value of a key.
#[tactic(auto, unfolding(crate::specs::Reading::read_value))]
pub(super) fn read_value<'a>(entry: &'a Value, key: Key) -> Result<&'a Value, KeyFault>
    ensures value { IfOk result (λ value.
        read_value (key_name key) (view entry.now) ≡ Ok (view value.now)) }
    ensures fault { IfErr result (IsFoundIn (read_value (key_name key) (view entry.now))) }
{
    match entry.get(key.name()) {
        Some(value) => Ok(value),
        None => Err(KeyFault::Missing(key)),
    }
}

/// The text of a key.
#[tactic(auto, unfolding(crate::specs::Reading::read_text))]
pub(super) fn read_text<'a>(entry: &'a Value, key: Key) -> Result<&'a str, KeyFault>
    ensures text { IfOk result (λ t. read_text (key_name key) (view entry.now) ≡ Ok t.now) }
    ensures fault { IfErr result (IsFoundIn (read_text (key_name key) (view entry.now))) }
{
    match read_value(entry, key)?.as_str() {
        Some(text) => Ok(text),
        None => Err(KeyFault::BadValue(key)),
    }
}

fn number_in(low: u32, high: u32, number: i64) -> Option<u32>
    ensures { result ≡ number_in low high number }
{
    match u32::try_from(number) {
        Ok(number) if low <= number && number <= high => Some(number),
        _ => None,
    }
}

/// The number of a key, which is whole and from `low` to `high`.
#[tactic(auto, unfolding(crate::specs::Reading::read_number))]
pub(super) fn read_number(entry: &Value, key: Key, low: u32, high: u32) -> Result<u32, KeyFault>
    ensures number { IfOk result (λ number.
        read_number (key_name key) low high (view entry.now) ≡ Ok number) }
    ensures low { IfOk result (λ number. low ≤ number) }
    ensures high { IfOk result (λ number. number ≤ high) }
    ensures fault { IfErr result
        (IsFoundIn (read_number (key_name key) low high (view entry.now))) }
{
    match read_value(entry, key)?.as_integer() {
        Some(number) => number_in(low, high, number).ok_or(KeyFault::BadValue(key)),
        None => Err(KeyFault::BadValue(key)),
    }
}

/// The code of a key.
#[tactic(auto, unfolding(crate::specs::Reading::read_code))]
pub(super) fn read_code(entry: &Value, key: Key) -> Result<Code, KeyFault>
    ensures code { IfOk result (λ code. read_code (key_name key) (view entry.now) ≡ Ok code) }
    ensures is_code { IfOk result (λ code. is_code code ≡ true) }
    ensures fault { IfErr result (IsFoundIn (read_code (key_name key) (view entry.now))) }
{
    Code::new(read_text(entry, key)?.as_bytes()).ok_or(KeyFault::BadValue(key))
}

/// The entry's code, which is added to those taken.
#[tactic(auto, unfolding(crate::specs::Reading::new_code))]
pub(super) fn new_code(entry: &Value, taken: &mut Codes) -> Result<Code, KeyFault>
    ensures code { IfOk result (λ code. new_code taken.old (view entry.now) ≡ Ok code) }
    ensures is_code { IfOk result (λ code. is_code code ≡ true) }
    ensures taken { IfOk result (λ code. taken.new ≡ taken.old ++ code ∷ []) }
    ensures distinct { OnOk result (AreDistinct taken.new) }
    ensures fault { IfErr result (IsFoundIn (new_code taken.old (view entry.now))) }
    ensures kept { IfErr result (λ fault. fault ≢ Memory → taken.new ≡ taken.old) }
{
    let code = read_code(entry, Key::Code)?;
    if taken.insert(code)? {
        Ok(code)
    } else {
        Err(KeyFault::Duplicate(code))
    }
}

/// A name, the value of a key or one of the items of its array.
#[tactic(auto, unfolding(crate::specs::Reading::name_from))]
pub(super) fn name_from(alloc: Global, value: &Value, key: Key) -> Result<String, KeyFault>
    ensures name { IfOk result (λ name.
        name_from (key_name key) (view value.now) ≡ Ok (string_bytes name)) }
    ensures limits { IfOk result (λ name. IsName (string_bytes name)) }
    ensures fault { IfErr result (IsFoundIn (name_from (key_name key) (view value.now))) }
{
    match value.as_str() {
        Some(name) if good_name(name) => Ok(String::from_str(alloc, name)?),
        _ => Err(KeyFault::BadValue(key)),
    }
}

/// The entry's name.
#[tactic(auto, unfolding(crate::specs::Reading::read_name))]
pub(super) fn read_name(alloc: Global, entry: &Value) -> Result<String, KeyFault>
    ensures name { IfOk result (λ name. read_name (view entry.now) ≡ Ok (string_bytes name)) }
    ensures limits { IfOk result (λ name. IsName (string_bytes name)) }
    ensures fault { IfErr result (IsFoundIn (read_name (view entry.now))) }
{
    name_from(alloc, read_value(entry, Key::Name)?, Key::Name)
}

/// The profile's method.
#[tactic(auto, unfolding(crate::specs::Reading::read_method))]
pub(super) fn read_method(entry: &Value) -> Result<Method, KeyFault>
    ensures method { IfOk result (λ method. read_method (view entry.now) ≡ Ok method) }
    ensures fault { IfErr result (IsFoundIn (read_method (view entry.now))) }
{
    Method::named(read_text(entry, Key::Method)?).ok_or(KeyFault::BadValue(Key::Method))
}

/// The base of the profile's threshold.
#[tactic(auto, unfolding(crate::specs::Reading::read_base))]
pub(super) fn read_base(entry: &Value) -> Result<Base, KeyFault>
    ensures base { IfOk result (λ base. read_base (view entry.now) ≡ Ok base) }
    ensures fault { IfErr result (IsFoundIn (read_base (view entry.now))) }
{
    match read_text(entry, Key::Base)? {
        "valid" => Ok(Base::Valid),
        "lists" => Ok(Base::Lists),
        _ => Err(KeyFault::BadValue(Key::Base)),
    }
}

/// How the profile's lots decide. A profile that does not say it has fixed lots.
#[tactic(auto, unfolding(crate::specs::Reading::read_lot_rule))]
pub(super) fn read_lot_rule(entry: &Value) -> Result<LotRule, KeyFault>
    ensures lot { IfOk result (λ lot. read_lot_rule (view entry.now) ≡ Ok lot) }
    ensures fault { IfErr result (IsFoundIn (read_lot_rule (view entry.now))) }
{
    if entry.get(Key::Lot.name()).is_none() {
        return Ok(LotRule::Fixed);
    }
    match read_text(entry, Key::Lot)? {
        "fixed" => Ok(LotRule::Fixed),
        "alternating" => Ok(LotRule::Alternating),
        _ => Err(KeyFault::BadValue(Key::Lot)),
    }
}

/// How many entries a return of the constituency needs: one, unless it says two.
#[tactic(auto, unfolding(crate::specs::Reading::read_entry))]
pub(super) fn read_entry(con: &Value) -> Result<Entry, KeyFault>
    ensures entry { IfOk result (λ entry. read_entry (view con.now) ≡ Ok entry) }
    ensures fault { IfErr result (IsFoundIn (read_entry (view con.now))) }
{
    if con.get(Key::Entry.name()).is_none() {
        return Ok(Entry::Single);
    }
    match read_text(con, Key::Entry)? {
        "single" => Ok(Entry::Single),
        "double" => Ok(Entry::Double),
        _ => Err(KeyFault::BadValue(Key::Entry)),
    }
}

/// How many stations the constituency may have: 5,000, unless it says that it is large.
#[tactic(auto, unfolding(crate::specs::Reading::read_station_limit))]
pub(super) fn read_station_limit(con: &Value) -> Result<usize, KeyFault>
    ensures limit { IfOk result (λ limit. read_station_limit (view con.now) ≡ Ok limit) }
    ensures most { IfOk result (λ limit. limit ≤ most_stations) }
    ensures fault { IfErr result (IsFoundIn (read_station_limit (view con.now))) }
{
    if con.get(Key::Size.name()).is_none() {
        return Ok(MOST_NORMAL_STATIONS);
    }
    match read_text(con, Key::Size)? {
        "normal" => Ok(MOST_NORMAL_STATIONS),
        "large" => Ok(MOST_STATIONS),
        _ => Err(KeyFault::BadValue(Key::Size)),
    }
}

/// The agents of lists who vote at a station with these electors: none, unless it says how many.
#[tactic(auto, unfolding(crate::specs::Reading::read_agents))]
pub(super) fn read_agents(station: &Value, electors: u32) -> Result<u32, KeyFault>
    requires { electors ≤ most_electors }
    ensures agents { IfOk result (λ agents.
        read_agents electors (view station.now) ≡ Ok agents) }
    ensures limit { IfOk result (λ agents. agents ≤ most_agents) }
    ensures together { IfOk result (λ agents. electors + agents ≤ most_electors) }
    ensures fault { IfErr result (IsFoundIn (read_agents electors (view station.now))) }
{
    if station.get(Key::Agents.name()).is_none() {
        return Ok(0);
    }
    let agents = read_number(station, Key::Agents, 0, MOST_AGENTS)?;
    if electors + agents <= MOST_ELECTORS {
        Ok(agents)
    } else {
        Err(KeyFault::BadValue(Key::Agents))
    }
}
