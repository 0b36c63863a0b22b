//! The award of a seat.

/// A seat that a list won under a divisor rule, with its quotient `num / den`.
#[derive(Clone, Copy, Debug)]
pub struct Award {
    /// The place of the list, from 1.
    pub list: u32,
    /// Which seat of the list it is, from 1.
    pub k: u32,
    /// The votes of the list times the unit of the rule.
    pub num: u64,
    /// The `k`th divisor of the rule, in its unit.
    pub den: u64,
}
