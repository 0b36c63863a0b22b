//! The words of a result, beside those that a setup has for a rule.

ghost use Rattle.std.specs.Prelude.{◌≡◌};
ghost use Rattle.tally_report_result.specs.Words.{entry_word, status_word};

use tally_report::ProvisionalStatus;
use tally_setup::Entry;

pub(crate) fn entry_word(entry: Entry) -> &'static str
    ensures { result.now ≡ entry_word entry }
{
    match entry {
        Entry::Single => "single",
        Entry::Double => "double",
    }
}

pub(crate) fn status_word(status: &ProvisionalStatus) -> &'static str
    ensures { result.now ≡ status_word status.now }
{
    match status {
        ProvisionalStatus::Certified => "certified",
        ProvisionalStatus::Open => "open",
        ProvisionalStatus::LotNeeded { .. } => "lot",
        ProvisionalStatus::NoEligible => "no_eligible",
    }
}
