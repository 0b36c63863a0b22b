//! What is shown of an office, by its name on the command line.

ghost use Rattle.std.specs.Prelude.{◌≡◌};
ghost use Rattle.tally_report_names.specs.Names.{needs_con, shown_named};

use crate::report::Report;

/// The reports of a constituency that are made of its stations.
#[derive(Clone, Copy)]
pub enum StationsReport {
    /// The returns, as CSV.
    Returns,
    /// The stations, and what each has come to.
    Stations,
}

/// The reports of an office.
#[derive(Clone, Copy)]
pub enum Shown {
    /// How far each constituency has come.
    Progress,
    /// The seats and the votes of all constituencies.
    Country,
    /// The results of all constituencies, as one JSON array.
    Results,
    /// The result of a constituency, as JSON.
    Result,
    /// A report of a constituency, by its stations.
    Stations(StationsReport),
    /// A report of a constituency, by what it has come to.
    Report(Report),
}

impl Shown {
    /// The report of a name on the command line.
    pub fn named(name: &str) -> Option<Shown>
        ensures { result ≡ shown_named name.now }
    {
        match name {
            "progress" => Some(Shown::Progress),
            "country" => Some(Shown::Country),
            "results" => Some(Shown::Results),
            "result" => Some(Shown::Result),
            "returns" => Some(Shown::Stations(StationsReport::Returns)),
            "stations" => Some(Shown::Stations(StationsReport::Stations)),
            _ => Report::named(name).map(Shown::Report),
        }
    }

    /// Whether it is of one constituency, and not of all.
    pub fn needs_con(self) -> bool
        ensures { result ≡ needs_con self }
    {
        match self {
            Shown::Progress | Shown::Country | Shown::Results => false,
            Shown::Result | Shown::Stations(_) | Shown::Report(_) => true,
        }
    }
}
