//! Keepers of the office's state.

ghost use Rattle.std.specs.Prelude.{◌≡◌, [], List, Option, Some, IfErr, IfOk, IfSome};
ghost use Rattle.std.specs.Prelude.{OnOk};
ghost use Rattle.tally_setup.specs.Constituency.{Constituency};
ghost use Rattle.tally_setup.specs.Setup.{constituency_with};
ghost use Rattle.tally_returns.specs.State.{State};
ghost use Rattle.tally_returns.specs.View.{FitsView};
ghost use Rattle.tally_machine_law.specs.Kinds.{IsReplyTo};
ghost use Rattle.tally_machine_law.specs.LawfulState.{IsLawfulState};
ghost use Rattle.tally_returns_rows.specs.Delivery.{delivery};
ghost use Rattle.tally_keeper.specs.Keeper.{Happens, Imports, Tries, request};
ghost use Rattle.tally_returns_rows.specs.NamedRows.{NamesRows};
ghost use Rattle.tally_keeper.specs.Shown.{AnswersShowCon, ShowsReturns};
ghost use Rattle.tally_keeper.specs.Stays.{StaysBy};
ghost use Rattle.tally_returns_rows.specs.declared.source.ImportFault.TheVariants as fault;
ghost use Rattle.tally_returns.specs.declared.refusal.Refusal.TheVariants as refusal;

use tally_returns::{Ask, ConView, Refusal, Reply, StationRow};
use tally_returns_rows::{ImportCount, ImportFault, NamedRow, RowSource};
use tally_setup::{Code, Setup};

/// Keeps the office's state, in memory or in a database.
pub trait Keeper {
    /// The constituencies of its setup.
    ghost constituencies: { Self → List Constituency };

    /// The state, or `None` where a disk that failed has shut the keeper.
    ghost content: { Self → Option State };

    /// No wrong answer of a disk has been taken as true. For a store this says that its disk was
    /// clean, and no more. It may cease to hold at any call.
    ghost IsTrusted: { Self → Type 0 };

    /// It is over a database, which may fail.
    ghost HasDatabase: { Self → Type 0 };

    /// Without a database there is no disk to trust.
    ghost memory_is_trusted: { (keeper : Self) → (HasDatabase keeper → ⊥) → IsTrusted keeper };

    /// The setup, which never changes. What the keeper has is a lawful state of it.
    fn setup(&self) -> &Setup
        ensures setup { result.now ≡ constituencies self.now }
        ensures lawful { IsTrusted self.now →
            IfSome (content self.now) (IsLawfulState (constituencies self.now)) };

    /// Answers a request. One that is refused has changed nothing, unless a failed disk shut the
    /// keeper at it. Then it was not accepted, though its commit may have been made, which only the
    /// next opening shows. A keeper that was shut accepts nothing. The reply is of the request's
    /// kind, and a view that it shows fits its constituency, whether the keeper is trusted or not.
    fn answer(&mut self, ask: &Ask) -> Result<Reply, Refusal>
        ensures stays { StaysBy constituencies content IsTrusted HasDatabase self.old self.new }
        ensures kind { IfOk result (IsReplyTo (constituencies self.old) ask.now) }
        ensures step { IsTrusted self.new →
            Happens (constituencies self.old) (content self.old) (request ask.now result)
            (content self.new) }
        ensures store { IfErr result (λ e. e ≡ refusal.Store → HasDatabase self.old) };

    /// Shows a constituency as a ShowCon does, but without its certificates on record, of which
    /// there may be many: a database need not read them.
    fn show_con(&mut self, con: Code) -> Result<ConView, Refusal>
        ensures stays { StaysBy constituencies content IsTrusted HasDatabase self.old self.new }
        ensures fits { IfOk result (λ view. (found : Constituency)
            → constituency_with con (constituencies self.old) ≡ Some found → FitsView found view) }
        ensures shows { IsTrusted self.new →
            AnswersShowCon (constituencies self.old) (content self.old) con result
            (content self.new) }
        ensures bare { IfOk result (λ view. view.past ≡ []) }
        ensures store { IfErr result (λ e. e ≡ refusal.Store → HasDatabase self.old) }
    {
        match self.answer(&Ask::ShowCon { con }) {
            Ok(Reply::Con(view)) => Ok(view.without_past()),
            Ok(_) => unreachable!(),
            Err(refusal) => Err(refusal),
        }
    }

    /// Shows the stations of a constituency in the setup's order, each with its return where it has
    /// one. Nothing changes, unless a failed disk shuts the keeper at it.
    fn show_returns(&mut self, con: Code) -> Result<Vec<StationRow>, Refusal>
        ensures stays { StaysBy constituencies content IsTrusted HasDatabase self.old self.new }
        ensures shows { IsTrusted self.new →
            ShowsReturns (constituencies self.old) (content self.old) con result
            (content self.new) }
        ensures store { IfErr result (λ e. e ≡ refusal.Store → HasDatabase self.old) };

    /// Lodges the rows of a source one by one, all that it gives until its end. Rows that are
    /// refused or bad are passed over and added to `named`.
    ///
    /// With a fault nothing has changed, unless a disk failed and shut the keeper, and `named` is
    /// of no use. The fault is the one with which the source ended, or the keeper's own: out of
    /// memory, a database that refuses, or the 20,001st row of a source of unknown content.
    fn lodge_from<R: RowSource>(
        &mut self,
        rows: &mut R,
        named: &mut Vec<NamedRow>,
    ) -> Result<ImportCount, ImportFault>
        ensures stays { StaysBy constituencies content IsTrusted HasDatabase self.old self.new }
        ensures imported { IsTrusted self.new →
            Imports (constituencies self.old) (content self.old)
            (delivery R.RowSource rows.old rows.new) result (content self.new) }
        ensures named { IsTrusted self.new → OnOk result
            (NamesRows (constituencies self.old) (content self.old)
            (delivery R.RowSource rows.old rows.new) named.old.items named.new.items) }
        ensures store { IfErr result (λ e. e ≡ fault.Store → HasDatabase self.old) };

    /// Answers what `lodge_from` would answer now, with the rows that it would name, and lodges
    /// nothing: each row is judged over what the rows before it would have lodged. Nothing has
    /// changed, unless a failed disk shut the keeper at it; then it is answered with a fault.
    fn trial_from<R: RowSource>(
        &mut self,
        rows: &mut R,
        named: &mut Vec<NamedRow>,
    ) -> Result<ImportCount, ImportFault>
        ensures stays { StaysBy constituencies content IsTrusted HasDatabase self.old self.new }
        ensures tried { IsTrusted self.new →
            Tries (constituencies self.old) (content self.old)
            (delivery R.RowSource rows.old rows.new) result (content self.new) }
        ensures named { IsTrusted self.new → OnOk result
            (NamesRows (constituencies self.old) (content self.old)
            (delivery R.RowSource rows.old rows.new) named.old.items named.new.items) }
        ensures store { IfErr result (λ e. e ≡ fault.Store → HasDatabase self.old) };
}
