//! Tests of `tally_store` over a database in memory, and over two files in memory of which one
//! stops at some call. They are checked once, over its finished proofs. Nothing here is public, so
//! there are no must-fail edits. What the tables hold, and which tables are opened, is shown from
//! outside as well (`tests/program/test_database.py`).
#![tactic(auto)]

#[cfg(test)]
mod counts;
#[cfg(test)]
mod failures;
#[cfg(test)]
mod faults;
#[cfg(test)]
mod imports;
#[cfg(test)]
mod offices;
#[cfg(test)]
mod refusals;
#[cfg(test)]
mod requests;
#[cfg(test)]
mod scripts;
#[cfg(test)]
mod stations;
#[cfg(test)]
mod stops;
