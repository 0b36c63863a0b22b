//! The records of an input, one after the other.

ghost use Rattle.std.specs.Prelude.{◌≡◌, [], Bool, IfOk, OnOk};
ghost use Rattle.csv.specs.Records.{fields_of};

use crate::end::End;
use crate::separator::Sep;
use crate::watch::Watch;
use crate::work::Work;
use csv::ByteRecord;
use std::alloc::{AllocError, Global};
use std::io::Read;
use std::marker::Model;

/// The records of an input that is read by pieces. A record is given once another one begins after
/// it, or the input ended of itself.
#[derive(Drop)]
pub struct Records {
    work: Work,
    /// Whether more of them can be asked for: they did not end, and it was not out of memory.
    at_work: bool,
}

impl Model for Records {
    ghost use Rattle.std.specs.Prelude.{◌≡◌, true};
    ghost use Rattle.tally_import_records.specs.internal.Pieces.{IsWorking, records_of_work};
    ghost use Rattle.tally_import_records.specs.RecordsValue as value;

    ghost Value = { value.Records };

    ghost view = { λ r. records_of_work r.work r.at_work };

    ghost invariant = { λ r. r.at_work ≡ true → IsWorking r.work };
}

impl Records {
    ghost use Rattle.tally_import_records.specs.Given.{GaveAllRecords, GivesRecord, HasGiven};
    ghost use Rattle.tally_import_records.specs.Given.{IfEnded};
    ghost use Rattle.tally_import_records.specs.Given.{IfNotEnded, IsReadingOn, WatchAgrees};
    ghost use Rattle.tally_import_records.specs.Given.{sep_of};
    ghost use Rattle.tally_import_records.specs.Watch.{WatchAgreesAtEnd, has_failed};

    /// The records of an input, whose first piece is read.
    pub fn new<R: Read>(
        alloc: Global,
        input: &mut R,
        watch: &mut Watch<R>,
        sep: Sep,
    ) -> Result<Records, AllocError>
        ensures sep { IfOk result (λ records. sep_of records ≡ sep) }
        ensures reading { IfOk result IsReadingOn }
        ensures given { IfOk result (HasGiven (R.remaining input.old) (R.remaining input.new) []) }
        ensures failed { IfOk result (λ records.
            WatchAgrees (has_failed watch.old) records (has_failed watch.new)) }
    {
        let work = Work::new(alloc, input, watch, sep)?;
        Ok(Records {
            work,
            at_work: true,
        })
    }

    /// Gives the next record, or how the input ended. After the end, or once it is out of memory,
    /// the records are of no further use.
    pub fn next<R: Read>(
        &mut self,
        alloc: Global,
        input: &mut R,
        watch: &mut Watch<R>,
        into: &mut ByteRecord,
    ) -> Result<Option<End>, AllocError>
        requires { IsReadingOn self.old }
        ensures sep { sep_of self.new ≡ sep_of self.old }
        ensures reading { IfNotEnded result (IsReadingOn self.new) }
        ensures record { IfNotEnded result (GivesRecord (R.remaining input.old)
            (R.remaining input.new) (fields_of into.new) self.old self.new) }
        ensures all { IfEnded result (λ end. GaveAllRecords
            (R.remaining input.old) (R.remaining input.new) self.old end.stop) }
        ensures failed { (before : Bool) → WatchAgrees before self.old (has_failed watch.old)
            → IfOk result (λ end. WatchAgreesAtEnd before end (has_failed watch.new)) }
        ensures agrees { (before : Bool) → WatchAgrees before self.old (has_failed watch.old)
            → OnOk result (WatchAgrees before self.new (has_failed watch.new)) }
    {
        self.at_work = false;
        let end = self.work.next(alloc, input, watch, into)?;
        self.at_work = end.is_none();
        Ok(end)
    }
}
