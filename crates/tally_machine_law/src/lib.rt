//! The machine of an electoral office as it is believed, and nothing else: what a step, a run, a
//! lawful state and a certificate are, and what is true of them. There is no code here; `specs` has
//! the definitions and `proofs` the lemmas about them.
#![tactic(auto)]
