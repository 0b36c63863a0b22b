//! The numbers of statuses.

ghost use Rattle.std.specs.Prelude.{◌≡◌};
ghost use Rattle.tally_store_rows.specs.Cells.{status_number};
ghost use Rattle.tally_store_rows.specs.Reading.{status_of};

use tally_returns::Status;

/// The number of a status in a table.
pub fn status_number(status: Status) -> u32
    ensures { result ≡ status_number status }
{
    match status {
        Status::Received => 1,
        Status::Queried => 2,
        Status::Corrected => 3,
        Status::Closed => 4,
    }
}

/// The status of a number in a table. `None` where the number is not that of a status.
pub fn status_of(number: u32) -> Option<Status>
    ensures { result ≡ status_of number }
{
    if number == 1 {
        Some(Status::Received)
    } else if number == 2 {
        Some(Status::Queried)
    } else if number == 3 {
        Some(Status::Corrected)
    } else if number == 4 {
        Some(Status::Closed)
    } else {
        None
    }
}
