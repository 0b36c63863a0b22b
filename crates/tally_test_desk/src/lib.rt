//! Tests of `tally_desk`, over a keeper in memory and over one in a database. They are checked
//! once, over the finished proofs of these crates. Nothing here is public, so there are no
//! must-fail edits.
#![tactic(auto)]

#[cfg(test)]
mod failures;
#[cfg(test)]
mod lines;
#[cfg(test)]
mod offices;
#[cfg(test)]
mod scripts;
