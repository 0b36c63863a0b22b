//! Tests of `tally_import_records` and `tally_import`, and of imports into keepers in memory. They
//! are checked once, over the finished proofs of these crates. Nothing here is public, so there are
//! no must-fail edits.
#![tactic(auto)]

#[cfg(test)]
mod check;
#[cfg(test)]
mod failures;
#[cfg(test)]
mod import;
#[cfg(test)]
mod imports;
#[cfg(test)]
mod recounts;
#[cfg(test)]
mod return_rows;
#[cfg(test)]
mod rows;
#[cfg(test)]
mod setups;
#[cfg(test)]
mod votes;
#[cfg(test)]
mod writers;
