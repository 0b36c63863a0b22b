//! Tests of the crates that read and write messages of HTTP, `tally_desk_message` and
//! `tally_desk_answer`. They are checked once, over the finished proofs of these crates. Nothing
//! here is public, so there are no must-fail edits. Routes and bodies are tried on the program.
#![tactic(auto)]

#[cfg(test)]
mod answers;
#[cfg(test)]
mod doors;
#[cfg(test)]
mod groups;
#[cfg(test)]
mod imports;
#[cfg(test)]
mod lines;
#[cfg(test)]
mod messages;
#[cfg(test)]
mod outcomes;
#[cfg(test)]
mod pieces;
#[cfg(test)]
mod setups;
#[cfg(test)]
mod words;
