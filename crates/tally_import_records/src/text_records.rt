//! The records of a text that is in memory.

ghost use Rattle.std.specs.Prelude.{◌≡◌, ◌∷◌, [], if◌then◌else◌, true, IfOk};
ghost use Rattle.csv.specs.Records.{fields_of};
ghost use Rattle.tally_import_records.specs.Input.{complete_records};

use crate::cut::last_text;
use crate::piece::Rest;
use crate::reading::next_record;
use crate::separator::Sep;
use crate::text::Text;
use crate::whole::WholeText;
use csv::ByteRecord;
use std::alloc::{AllocError, Global};
use std::collections::VecDeque;
use std::mem;

/// The complete records of a text that is in memory, one after the other.
#[derive(Drop)]
pub struct TextRecords {
    /// Whether the text ended of itself. If not, its last record is not given.
    is_whole: bool,
    /// The records that are left. The one ahead is of a text that was stopped.
    rest: Rest,
}

impl TextRecords {
    ghost use Rattle.tally_import_records.specs.internal.TextRecords.{IsReadingText};
    ghost use Rattle.tally_import_records.specs.internal.TextRecords.{text_records_left};

    /// The records of a text with this separator.
    pub fn new(alloc: Global, whole: WholeText, sep: Sep) -> Result<TextRecords, AllocError>
        ensures records { IfOk result (λ records.
            text_records_left records ≡ complete_records sep whole.bytes.items whole.stop) }
        ensures reading { IfOk result IsReadingText }
    {
        let is_whole = whole.stop.is_none();
        let text = Text::new(alloc, whole.bytes, VecDeque::new(alloc))?;
        let last = last_text(alloc, text, sep, is_whole)?;
        let rest = Rest::new(alloc, last, sep, is_whole, 0)?;
        Ok(TextRecords { is_whole, rest })
    }

    /// Gives the next record, and answers whether there was one. Once there was none, or it is out
    /// of memory, the records are of no further use.
    pub fn next(&mut self, into: &mut ByteRecord) -> Result<bool, AllocError>
        requires { IsReadingText self.old }
        ensures reading { IfOk result (λ found. found ≡ true → IsReadingText self.new) }
        ensures record { IfOk result (λ found. text_records_left self.old
            ≡ (if found then fields_of into.new ∷ text_records_left self.new else [])) }
    {
        if self.is_whole {
            return next_record(&mut self.rest.reader.reader, into);
        }
        mem::swap(into, &mut self.rest.ahead);
        next_record(&mut self.rest.reader.reader, &mut self.rest.ahead)
    }
}
