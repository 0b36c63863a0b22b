//! Tests of `tally_core` and of the crates that its names come from (`tally_machine` among them).
//! They are checked once, over the finished proofs of these crates. Nothing here is public, so
//! there are no must-fail edits.
#![tactic(auto)]

#[cfg(test)]
mod book;
#[cfg(test)]
mod certification;
#[cfg(test)]
mod codes;
#[cfg(test)]
mod decide;
#[cfg(test)]
mod failing;
#[cfg(test)]
mod frail;
#[cfg(test)]
mod imports;
#[cfg(test)]
mod lodge;
#[cfg(test)]
mod requests;
#[cfg(test)]
mod setup;
#[cfg(test)]
mod setups;
#[cfg(test)]
mod shown;
#[cfg(test)]
mod stations;
