//! The reports of a constituency, by their names.

ghost use Rattle.std.specs.Prelude.{◌≡◌};
ghost use Rattle.tally_report_names.specs.Names.{report_named};

/// The reports of a constituency. The progress, which is of all constituencies, is not one of them.
#[derive(Clone, Copy, Debug, PartialEq, Eq)]
pub enum Report {
    /// The votes of the lists, and their shares.
    Tally,
    /// The seats of the lists.
    Seats,
    /// The quotients of the lists, under a divisor rule.
    Quotients,
    /// The seats in the order of their award, under a divisor rule.
    Awards,
    /// The quotas and remainders of the lists, under Hare's rule.
    Quota,
    /// The votes that the lists are short of one more seat, under a divisor rule.
    Short,
    /// The candidates who hold the seats.
    Holders,
    /// The certificates that were reopened.
    Past,
    /// The seats if the votes that are closed now were all the votes.
    Provisional,
}

impl Report {
    /// The report of a name on the command line.
    pub fn named(name: &str) -> Option<Report>
        ensures { result ≡ report_named name.now }
    {
        match name {
            "tally" => Some(Report::Tally),
            "seats" => Some(Report::Seats),
            "quotients" => Some(Report::Quotients),
            "awards" => Some(Report::Awards),
            "quota" => Some(Report::Quota),
            "short" => Some(Report::Short),
            "holders" => Some(Report::Holders),
            "past" => Some(Report::Past),
            "provisional" => Some(Report::Provisional),
            _ => None,
        }
    }
}
