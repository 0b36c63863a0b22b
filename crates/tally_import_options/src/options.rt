//! The options of an allotment, and those of a recount.

ghost use Rattle.std.specs.Prelude.{◌≤◌};
ghost use Rattle.tally_frac.specs.Limits.{most_seats, most_votes, whole_base};

use tally_import_records::Sep;
use tally_setup::Profile;

/// The options of an allotment: all that is asked besides the votes of the lists.
#[derive(Drop)]
pub struct AllotOptions {
    /// The seats, 1 to 500.
    pub seats: u32,
    /// The rule. Its threshold is at most 10,000.
    pub profile: Profile,
    /// The blank votes, at most 5,000,000,000.
    pub blank: u64,
    /// The codes of the lists that a lot was drawn among, in its order, parted by commas.
    pub lot: Option<String>,
    /// Whether the awards, or the quotas, are wanted.
    pub awards: bool,
    /// The separator of the two fields of a row.
    pub sep: Sep,
    ghost some_seat: { 1 ≤ seats },
    ghost few_seats: { seats ≤ most_seats },
    ghost few_blank: { blank ≤ most_votes },
    ghost whole_at_most: { profile.threshold ≤ whole_base },
}

/// The options of a recount.
#[derive(Drop)]
pub struct RecountOptions {
    /// The codes of the stations that are left out, parted by commas.
    pub without: Option<String>,
    /// The codes of the lists that a lot was drawn among, in its order, parted by commas.
    pub lot: Option<String>,
    /// Whether the awards, or the quotas, are wanted.
    pub awards: bool,
    /// Whether the stations are wanted without which the seats would be others.
    pub decisive: bool,
    /// The separator of the fields of a row.
    pub sep: Sep,
}
