//! A keeper that a failed disk shuts after some requests and imports. It takes the branches of the
//! trait that a keeper in memory never takes.

ghost use Rattle.std.specs.Prelude.{◌≡◌, if◌then◌else◌, true, Some, None};

use tally_core::{
    Ask, Book, ImportCount, ImportFault, Keeper, NamedRow, Refusal, Reply, RowSource, StationRow,
};
use tally_setup::{Code, Setup};

/// Keeps its state in memory, and fails as a disk would after some requests and imports.
#[derive(Drop)]
pub(crate) struct Frail {
    pub(crate) book: Book,
    /// This many requests and imports more are taken.
    pub(crate) turns: u32,
    /// The disk has failed.
    pub(crate) shut: bool,
    /// No wrong answer of the disk has been taken as true.
    pub(crate) clean: bool,
}

impl Frail {
    /// Takes a turn, or shuts the keeper for good. Answers whether it is shut.
    fn is_shut_now(&mut self) -> bool
        ensures shut { result ≡ self.new.shut }
        ensures stays { self.old.shut ≡ true → self.new.shut ≡ true }
        ensures book { self.new.book ≡ self.old.book }
        ensures clean { self.new.clean ≡ self.old.clean }
    {
        if self.turns == 0 {
            self.shut = true;
        }
        if !self.shut {
            self.turns -= 1;
        }
        self.shut
    }
}

impl Keeper for Frail {
    ghost constituencies = { λ f. f.book.setup };

    ghost content = { λ f. if f.shut then None else Some f.book.state };

    ghost IsTrusted = { λ f. f.clean ≡ true };

    ghost HasDatabase = { λ _. Unit {0} };

    ghost memory_is_trusted = { λ _ none. absurd (none tt) };

    fn setup(&self) -> &Setup {
        self.book.setup()
    }

    fn answer(&mut self, ask: &Ask) -> Result<Reply, Refusal> {
        if self.is_shut_now() {
            return Err(Refusal::Store);
        }
        self.book.answer(ask)
    }

    fn show_returns(&mut self, con: Code) -> Result<Vec<StationRow>, Refusal> {
        if self.is_shut_now() {
            return Err(Refusal::Store);
        }
        self.book.show_returns(con)
    }

    fn lodge_from<R: RowSource>(
        &mut self,
        rows: &mut R,
        named: &mut Vec<NamedRow>,
    ) -> Result<ImportCount, ImportFault> {
        if self.is_shut_now() {
            return Err(ImportFault::Store);
        }
        self.book.lodge_from(rows, named)
    }

    fn trial_from<R: RowSource>(
        &mut self,
        rows: &mut R,
        named: &mut Vec<NamedRow>,
    ) -> Result<ImportCount, ImportFault> {
        if self.is_shut_now() {
            return Err(ImportFault::Store);
        }
        self.book.trial_from(rows, named)
    }
}
