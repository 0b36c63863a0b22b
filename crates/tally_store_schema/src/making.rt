//! CREATE TABLE of each table of the office, in a transaction.

ghost use Rattle.std.specs.Prelude.{◌≡◌, ◌<◌, ◌+◌};
ghost use Rattle.tally_store_schema.specs.Made.{Makes, MakesDatabase, MakesPast};
ghost use Rattle.tally_store_schema.specs.internal.Stays.{InDatabase, Stays};
ghost use Rattle.tally_store_schema.specs.internal.Texts.{create_text};

use crate::running::run;
use sqlite::{Alter, Error, Transaction};

/// The text that makes the table of this place, in the order in which they are made.
fn create_text(place: usize) -> &'static str
    ensures { result.now ≡ create_text place }
{
    match place {
        0 => {
            "CREATE TABLE setup (id INTEGER NOT NULL PRIMARY KEY, version INTEGER NOT NULL, \
             text TEXT NOT NULL) STRICT"
        }
        1 => {
            "CREATE TABLE returns (station TEXT NOT NULL PRIMARY KEY, con TEXT NOT NULL, \
             rev INTEGER NOT NULL, slip TEXT NOT NULL, \
             status INTEGER NOT NULL CHECK (status >= 1 AND status <= 4), \
             note TEXT NOT NULL) STRICT"
        }
        2 => {
            "CREATE TABLE counts (station TEXT NOT NULL, item INTEGER NOT NULL, \
             n INTEGER NOT NULL CHECK (n >= 0), PRIMARY KEY (station, item)) STRICT"
        }
        3 => {
            "CREATE TABLE cons (con TEXT NOT NULL PRIMARY KEY, edition INTEGER NOT NULL, \
             certified INTEGER NOT NULL, note TEXT NOT NULL) STRICT"
        }
        4 => {
            "CREATE TABLE lots (con TEXT NOT NULL, place INTEGER NOT NULL, list INTEGER NOT NULL, \
             PRIMARY KEY (con, place)) STRICT"
        }
        5 => {
            "CREATE TABLE seats (con TEXT NOT NULL, list INTEGER NOT NULL, n INTEGER NOT NULL, \
             PRIMARY KEY (con, list)) STRICT"
        }
        6 => {
            "CREATE TABLE gone (con TEXT NOT NULL, list INTEGER NOT NULL, place INTEGER NOT NULL, \
             note TEXT NOT NULL, PRIMARY KEY (con, list, place)) STRICT"
        }
        7 => {
            "CREATE TABLE totals (con TEXT NOT NULL, item INTEGER NOT NULL, \
             n INTEGER NOT NULL CHECK (n >= 0), PRIMARY KEY (con, item)) STRICT"
        }
        _ => {
            "CREATE TABLE past (con TEXT NOT NULL, edition INTEGER NOT NULL, \
             list INTEGER NOT NULL, n INTEGER NOT NULL, PRIMARY KEY (con, edition, list)) STRICT"
        }
    }
}

/// Makes the table of this place among those of version 1, after those before it.
fn create_next<S: Alter>(tx: &mut Transaction<'_, S>, place: usize) -> Result<(), Error>
    requires { place < 8 }
    ensures stays { Stays S.Store tx.old tx.new }
    ensures made { InDatabase S.Store (Makes place (place + 1)) tx.old tx.new result }
{
    run(tx, create_text(place), &[])
}

/// Makes the table `past` beside those of version 1, and leaves their rows as they are.
pub fn create_past<S: Alter>(tx: &mut Transaction<'_, S>) -> Result<(), Error>
    ensures stays { Stays S.Store tx.old tx.new }
    ensures made { InDatabase S.Store (Makes 8 9) tx.old tx.new result }
    ensures past { InDatabase S.Store MakesPast tx.old tx.new result }
{
    run(tx, create_text(8), &[])
}

/// Makes the eight tables of version 1, in a database without tables.
pub fn create_former_tables<S: Alter>(tx: &mut Transaction<'_, S>) -> Result<(), Error>
    ensures stays { Stays S.Store tx.old tx.new }
    ensures made { InDatabase S.Store (Makes 0 8) tx.old tx.new result }
{
    for place in 0..8 {
        create_next(tx, place)?;
    }
    Ok(())
}

/// Makes the nine tables of the office, without rows, in a database without tables.
pub fn create_tables<S: Alter>(tx: &mut Transaction<'_, S>) -> Result<(), Error>
    ensures stays { Stays S.Store tx.old tx.new }
    ensures made { InDatabase S.Store (Makes 0 9) tx.old tx.new result }
    ensures sound { InDatabase S.Store MakesDatabase tx.old tx.new result }
{
    create_former_tables(tx)?;
    create_past(tx)
}
