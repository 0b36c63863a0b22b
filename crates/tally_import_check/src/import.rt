//! An import into the empty map, in which every code is a station.

ghost use Rattle.std.specs.Prelude.{◌≡◌, ◌+◌, ◌≤◌, ◌++◌, List, [], ◌∷◌, length, IfOk};
ghost use Rattle.std.specs.Prelude.{OnOk};
ghost use Rattle.tally_frac.specs.Limits.{most_lists};
ghost use Rattle.tally_returns_rows.specs.Import.{after_row, lodged_counts};
ghost use Rattle.tally_returns_rows.specs.NamedRows.{named_row};
ghost use Rattle.tally_returns_rows.specs.Source.{row_limit};
ghost use Rattle.tally_returns.specs.Lodge.{lodge};
ghost use Rattle.tally_returns_rows.specs.declared.import.Row.{Row};
ghost use Rattle.csv.specs.Records.{fields_of};
ghost use Rattle.tally_import_check.specs.Check.{every_code};
ghost use Rattle.tally_import.specs.Rows.{row_of};

use crate::totals::{Totals, add_return, no_totals};
use csv::ByteRecord;
use std::alloc::{AllocError, Global};
use std::collections::HashMap;
use tally_import::row_of;
use tally_returns::{Ask, Counts, LodgeReply, Refusal, Return, decide_lodge};
use tally_returns_rows::{ImportCount, NamedRow, Row, name_bad, name_refused};
use tally_setup::{Code, MOST_ELECTORS};

/// How far an import has come.
#[derive(Drop)]
pub(crate) struct Import {
    /// How many lists there are.
    lists: usize,
    /// The returns that were lodged, by station.
    returns: HashMap<Code, Return>,
    /// The rows, by what they were answered.
    pub(crate) count: ImportCount,
    /// The totals of the returns that were lodged.
    pub(crate) totals: Totals,
    /// The rows that were neither lodged nor there already.
    pub(crate) named: Vec<NamedRow>,
}

impl Import {
    ghost use Rattle.tally_import_check.specs.internal.Progress.{HasTaken, IsHeldLodgeAnswer};
    ghost use Rattle.tally_import_check.specs.internal.Progress.{IsRowAnswer, TableMoves, Taken};
    ghost use Rattle.tally_import_check.specs.internal.Progress.{lodged_of};
    ghost use Rattle.tally_import_check.specs.internal.Totals.{AreTotalsOfFew, TotalsRise};

    /// An import that has taken no row, of this many lists.
    pub(crate) fn new(alloc: Global, lists: usize) -> Result<Import, AllocError>
        requires { lists ≤ most_lists }
        ensures { IfOk result (HasTaken (record { lists = lists; rows = [] })) }
    {
        Ok(Import {
            lists,
            returns: HashMap::new(alloc),
            count: ImportCount::new(),
            totals: no_totals(alloc, lists)?,
            named: Vec::new(alloc),
        })
    }

    /// Takes the row that the next record is, by its number. Once it is out of memory the import is
    /// of no further use.
    pub(crate) fn take_record(
        &mut self,
        alloc: Global,
        number: u32,
        fields: &ByteRecord,
    ) -> Result<(), AllocError>
        requires so_far { (taken : Taken) × HasTaken taken self.old
            × (number ≡ length taken.rows + 1) }
        requires few { number ≤ row_limit }
        ensures { OnOk result ((taken : Taken) → HasTaken taken self.old
            → number ≡ length taken.rows + 1 → HasTaken (record taken {
              rows = taken.rows
                  ++ row_of (every_code taken.lists) taken.lists (fields_of fields.now) ∷ [];
            }) self.new) }
    {
        let row = row_of(alloc, self.lists, None, fields)?;
        self.take(alloc, number, row)
    }

    /// Takes the next row, by its number. What a Lodge brings has a function of its own, since the
    /// prover opens one enum at a time.
    fn take(&mut self, alloc: Global, number: u32, row: Row) -> Result<(), AllocError>
        requires so_far { (taken : Taken) × HasTaken taken self.old
            × (number ≡ length taken.rows + 1) }
        requires few { number ≤ row_limit }
        ensures { OnOk result ((taken : Taken) → HasTaken taken self.old
            → number ≡ length taken.rows + 1
            → HasTaken (record taken { rows = taken.rows ++ row ∷ [] }) self.new) }
    {
        match row {
            Row::Lodge(ask) => {
                let answer = self.lodge_row(alloc, number, ask)?;
                self.count.add_row(number, answer);
                Ok(())
            }
            Row::Bad(why) => {
                name_bad(&mut self.named, number, why)?;
                self.count.add_row(number, None);
                Ok(())
            }
        }
    }

    /// Lodges what a Lodge brings, and names the row where that is refused. Another request has no
    /// answer.
    fn lodge_row(
        &mut self,
        alloc: Global,
        number: u32,
        ask: Ask,
    ) -> Result<Option<Result<LodgeReply, Refusal>>, AllocError>
        requires lists { self.old.lists ≤ most_lists }
        requires totals { AreTotalsOfFew self.old.lists self.old.totals }
        ensures answer { IfOk result
            (IsRowAnswer self.old.lists self.old.returns (Row.Lodge ask)) }
        ensures table { OnOk result (TableMoves self.old.returns self.new.returns
            (λ returns. after_row (every_code self.old.lists) returns (Row.Lodge ask))) }
        ensures totals { IfOk result (λ answer. TotalsRise self.old.lists self.old.totals
            (lodged_counts (Row.Lodge ask ∷ []) (answer ∷ [])) self.new.totals) }
        ensures named { IfOk result (λ answer. self.new.named.items
            ≡ self.old.named.items ++ named_row number (Row.Lodge ask) answer) }
        ensures lists { self.new.lists ≡ self.old.lists }
        ensures count { self.new.count ≡ self.old.count }
    {
        let Ask::Lodge {
            station,
            slip,
            counts,
        } = ask
        else {
            return Ok(None);
        };
        let answer = self.lodge(alloc, station, slip, counts)?;
        name_refused(&mut self.named, number, station, &answer)?;
        Ok(Some(answer))
    }

    // Lodges a return: what it is answered, and the table and the totals with it.
    fn lodge(
        &mut self,
        alloc: Global,
        station: Code,
        slip: Code,
        counts: Counts,
    ) -> Result<Result<LodgeReply, Refusal>, AllocError>
        requires lists { self.old.lists ≤ most_lists }
        requires totals { AreTotalsOfFew self.old.lists self.old.totals }
        ensures answer { IfOk result
            (IsHeldLodgeAnswer self.old.lists self.old.returns station slip counts) }
        ensures table { OnOk result (TableMoves self.old.returns self.new.returns
            (λ returns. lodge (every_code self.old.lists) returns station slip counts)) }
        ensures totals { IfOk result (λ answer. TotalsRise self.old.lists self.old.totals
            (lodged_of counts answer) self.new.totals) }
        ensures named { self.new.named ≡ self.old.named }
        ensures lists { self.new.lists ≡ self.old.lists }
        ensures count { self.new.count ≡ self.old.count }
    {
        let found = self.returns.get(&station);
        // A file says of no station how many electors it has.
        let answer = decide_lodge(self.lists, MOST_ELECTORS as u64, found, slip, &counts);
        let Ok(LodgeReply::Lodged { .. }) = answer else {
            return Ok(answer);
        };
        add_return(&mut self.totals, &counts);
        let lodged = Return::lodged(alloc, slip, counts);
        self.returns.insert(station, lodged)?;
        Ok(answer)
    }
}
