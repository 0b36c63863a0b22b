//! The row of a list under Hare's rule.

/// The quotas of an eligible list under Hare's rule, where the quota is the votes of the eligible
/// lists over the seats.
#[derive(Clone, Copy, Debug)]
pub struct QuotaRow {
    /// The place of the list, from 1.
    pub list: u32,
    /// Its whole quotas.
    pub whole: u32,
    /// The rest of its votes after them, times the seats.
    pub rem: u64,
    /// Whether it has one more seat.
    pub extra: bool,
}
