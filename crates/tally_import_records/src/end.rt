//! How an input ended.

/// The reason why an input stopped before its end.
#[derive(Clone, Copy, Debug)]
pub enum Stop {
    /// The input goes on past 16 MiB.
    TooLong,
    /// A read failed.
    Read,
}

/// How an input ended: of itself, or by what stopped it.
#[derive(Clone, Copy, Debug)]
pub struct End {
    /// The reason why it stopped, unless it ended by itself.
    pub stop: Option<Stop>,
}
