//! A keeper in memory.

ghost use Rattle.std.specs.Prelude.{◌≡◌, IfOk};
ghost use Rattle.tally_returns.specs.State.{opening};

mod answers;
mod constituencies;
mod rows;
mod shown;

use answers::answer_in;
use rows::{take_out, take_source};
use shown::show_returns;
use std::alloc::{AllocError, Global};
use std::marker::Model;
use tally_keeper::{Keeper, Ledger};
use tally_returns::{Ask, Refusal, Reply, StationRow};
use tally_returns_rows::{ImportCount, ImportFault, NamedRow, RowSource};
use tally_setup::{Code, Setup};

/// Keeps the office's state in memory. It is gone when the program ends.
#[derive(Drop)]
pub struct Book {
    ledger: Ledger,
    alloc: Global,
}

impl Model for Book {
    ghost use Rattle.tally_keeper.specs.Held.{Held};
    ghost use Rattle.tally_keeper.specs.internal.Held.{IsHeld, held_code};
    ghost use Rattle.tally_keeper.specs.Kept.{state_in};

    ghost Value = { Held };

    ghost coded = { held_code };

    ghost view = { λ b. record { setup = b.ledger.setup; state = state_in b.ledger } };

    ghost invariant = { λ b. IsHeld b.ledger };
}

impl Book {
    /// A keeper of this setup in which no return is recorded and each constituency is as it opens.
    pub fn new(alloc: Global, setup: Setup) -> Result<Book, AllocError>
        ensures { IfOk result (λ book. book ≡ record { setup = setup; state = opening setup }) }
    {
        let ledger = Ledger::new(alloc, setup)?;
        Ok(Book { ledger, alloc })
    }
}

impl Keeper for Book {
    ghost use Rattle.std.specs.Prelude.{Some};

    ghost constituencies = { λ b. b.setup };

    ghost content = { λ b. Some b.state };

    ghost IsTrusted = { λ _. Unit {0} };

    ghost HasDatabase = { λ _. ⊥ };

    ghost memory_is_trusted = { λ _ _. tt };

    fn setup(&self) -> &Setup {
        self.ledger.setup()
    }

    fn answer(&mut self, ask: &Ask) -> Result<Reply, Refusal> {
        answer_in(self.alloc, &mut self.ledger, ask)
    }

    fn show_returns(&mut self, con: Code) -> Result<Vec<StationRow>, Refusal> {
        show_returns(self.alloc, &self.ledger, con)
    }

    fn lodge_from<R: RowSource>(
        &mut self,
        rows: &mut R,
        named: &mut Vec<NamedRow>,
    ) -> Result<ImportCount, ImportFault> {
        let mut lodged = Vec::new(self.alloc);
        match take_source(self.alloc, &mut self.ledger, &mut lodged, rows, named) {
            Ok(count) => Ok(count),
            Err(fault) => {
                take_out(&mut self.ledger, &lodged);
                Err(fault)
            }
        }
    }

    fn trial_from<R: RowSource>(
        &mut self,
        rows: &mut R,
        named: &mut Vec<NamedRow>,
    ) -> Result<ImportCount, ImportFault> {
        let mut lodged = Vec::new(self.alloc);
        let outcome = take_source(self.alloc, &mut self.ledger, &mut lodged, rows, named);
        take_out(&mut self.ledger, &lodged);
        outcome
    }
}
