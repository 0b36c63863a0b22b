//! Tests of allotments and recounts, and of the crates below that have their rules: `tally_frac`,
//! `tally_setup` and `tally_allot`. They are checked once, over the finished proofs of these
//! crates. Nothing here is public, so there are no must-fail edits.
#![tactic(auto)]

#[cfg(test)]
mod allotments;
#[cfg(test)]
mod answers;
#[cfg(test)]
mod fractions;
#[cfg(test)]
mod polls;
#[cfg(test)]
mod recounts;
#[cfg(test)]
mod threshold;
#[cfg(test)]
mod worked;
