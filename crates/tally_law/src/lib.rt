//! The law as it is believed, and nothing else: what a poll, an allotment of its seats, a lot and
//! the need of a lot are, and what is true of them. There is no code here; `specs` has the
//! definitions.
#![tactic(auto)]
