//! Tests of `tally_report`, `tally_report_overview` and `tally_report_result`. They are checked
//! once, over the finished proofs of these crates. Nothing here is public, so there are no
//! must-fail edits.
#![tactic(auto)]

#[cfg(test)]
mod country;
#[cfg(test)]
mod reports;
#[cfg(test)]
mod results;
#[cfg(test)]
mod stations;
#[cfg(test)]
mod views;
