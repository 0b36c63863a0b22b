//! The store as a keeper of the office's state.

ghost use Rattle.std.specs.Prelude.{◌≡◌, [], false, Some, IfErr, IfOk};
ghost use Rattle.sqlite.specs.State.{HasCleanDisk};
ghost use Rattle.sqlite.specs.Held.{state};
ghost use Rattle.tally_returns_rows.specs.Delivery.{delivery};
ghost use Rattle.tally_keeper.specs.Keeper.{request};
ghost use Rattle.tally_keeper.specs.Shown.{IsReturnsRefusal, con_with};
ghost use Rattle.tally_returns.specs.View.{FitsView};
ghost use Rattle.tally_returns.specs.declared.ask.Ask.TheVariants.{ShowCon};
ghost use Rattle.tally_setup.specs.Constituency.{Constituency};
ghost use Rattle.tally_setup.specs.Setup.{constituency_with};
ghost use Rattle.tally_machine_law.specs.Kinds.{IsReplyTo};
ghost use Rattle.tally_machine_law.specs.Runs.{is_act};
ghost use Rattle.tally_store_open.specs.Crash.{IsUnwritten};
ghost use Rattle.tally_store.specs.Content.{content_of};
ghost use Rattle.tally_store.specs.Crash.{LeavesAsBefore, LooksWithoutWriting};
ghost use Rattle.tally_store.specs.Crash.{WritesOnlyLodgedRows};
ghost use Rattle.tally_store.specs.Keeping.{HappensIn, ImportsIn, KeepsTextIn, NamesRowsIn};
ghost use Rattle.tally_store.specs.Keeping.{ShowsConIn, ShowsContent, ShowsReturnsIn, TriesIn};
ghost use Rattle.tally_store.specs.Keeping.{StaysStore, SurvivesImport, SurvivesLook};
ghost use Rattle.tally_store.specs.Keeping.{SurvivesRequest};

use crate::requests::{answer_request, import_rows, show_request, show_stations, try_rows};
use crate::store::Store;
use sqlite::Alter;
use tally_keeper::Keeper;
use tally_machine::laws;
use tally_returns::{Ask, ConView, Refusal, Reply, StationRow};
use tally_returns_rows::{ImportCount, ImportFault, NamedRow, RowSource};
use tally_setup::{Code, Setup};

impl<S: Alter> Keeper for Store<S> {
    ghost constituencies = { λ s. s.setup };

    ghost content = { λ s. content_of s.setup (state S.Store s.conn) };

    ghost IsTrusted = { λ s. HasCleanDisk (state S.Store s.conn) };

    ghost HasDatabase = { λ _. Unit {0} };

    ghost memory_is_trusted = { λ _ none. absurd (none tt) };

    fn setup(&self) -> &Setup {
        // Called for what its contract says: a constituency has a view in each lawful state.
        laws::a_constituency_has_a_view();
        &self.setup
    }

    /// Answers a request in a transaction of its own. The database is then that of the store's
    /// state, with the same text of the setup, or a failed disk has shut the store. A crash at the
    /// end of the call leaves what it could leave before, or the tables after this request. A
    /// request that is refused, that repeats what is recorded or that shows something writes
    /// nothing.
    fn answer(&mut self, ask: &Ask) -> Result<Reply, Refusal>
        ensures stays { StaysStore S.Store self.old self.new }
        ensures kind { IfOk result (IsReplyTo self.old.setup ask.now) }
        ensures step { HappensIn S.Store (request ask.now result) self.old self.new }
        ensures tables { ShowsContent S.Store self.new }
        ensures text { KeepsTextIn S.Store self.old self.new }
        ensures crash { SurvivesRequest S.Store ask.now self.old self.new }
        ensures unwritten { is_act result ≡ false →
            LeavesAsBefore (state S.Store self.old.conn) (state S.Store self.new.conn) result }
    {
        // Called for what its contract says: a constituency has a view in each lawful state.
        laws::a_constituency_has_a_view();
        answer_request(
            self.alloc,
            &mut self.conn,
            &self.setup,
            &mut self.known,
            ask,
        )
    }

    /// Shows a constituency in a transaction of its own, without its certificates on record, which
    /// are not read. Nothing is written.
    fn show_con(&mut self, con: Code) -> Result<ConView, Refusal>
        ensures stays { StaysStore S.Store self.old self.new }
        ensures fits { IfOk result (λ view. (found : Constituency)
            → constituency_with con self.old.setup ≡ Some found → FitsView found view) }
        ensures shows { ShowsConIn S.Store con result self.old self.new }
        ensures bare { IfOk result (λ view. view.past ≡ []) }
        ensures tables { ShowsContent S.Store self.new }
        ensures text { KeepsTextIn S.Store self.old self.new }
        ensures crash { SurvivesRequest S.Store (ShowCon con) self.old self.new }
        ensures unwritten { LeavesAsBefore
            (state S.Store self.old.conn) (state S.Store self.new.conn) (con_with [] result) }
    {
        // Called for what its contract says: a constituency has a view in each lawful state.
        laws::a_constituency_has_a_view();
        show_request(
            self.alloc,
            &mut self.conn,
            &self.setup,
            &mut self.known,
            con,
        )
    }

    /// Shows the stations of a constituency with their returns, in a transaction of its own.
    /// Nothing is written.
    fn show_returns(&mut self, con: Code) -> Result<Vec<StationRow>, Refusal>
        ensures stays { StaysStore S.Store self.old self.new }
        ensures refused { IfErr result (IsReturnsRefusal self.old.setup con) }
        ensures shows { ShowsReturnsIn S.Store con result self.old self.new }
        ensures tables { ShowsContent S.Store self.new }
        ensures text { KeepsTextIn S.Store self.old self.new }
        ensures crash { SurvivesLook S.Store self.old self.new }
        ensures unwritten { LooksWithoutWriting
            (state S.Store self.old.conn) (state S.Store self.new.conn) result }
    {
        // Called for what its contract says: a constituency has a view in each lawful state.
        laws::a_constituency_has_a_view();
        show_stations(
            self.alloc,
            &mut self.conn,
            &self.setup,
            &mut self.known,
            con,
        )
    }

    /// Lodges the rows of a source in one transaction. The database is then that of the store's
    /// state, with the same text of the setup, or a failed disk has shut the store. A crash at the
    /// end of the call leaves what it could leave before, or the tables after an import of all rows
    /// that the source gave until its end. An import that lodges nothing writes nothing.
    fn lodge_from<R: RowSource>(
        &mut self,
        rows: &mut R,
        named: &mut Vec<NamedRow>,
    ) -> Result<ImportCount, ImportFault>
        ensures stays { StaysStore S.Store self.old self.new }
        ensures imported { ImportsIn S.Store
            (delivery R.RowSource rows.old rows.new) result self.old self.new }
        ensures named { NamesRowsIn S.Store (delivery R.RowSource rows.old rows.new) result
            named.old.items named.new.items self.old self.new }
        ensures tables { ShowsContent S.Store self.new }
        ensures text { KeepsTextIn S.Store self.old self.new }
        ensures crash { SurvivesImport S.Store
            (delivery R.RowSource rows.old rows.new) self.old self.new }
        ensures unwritten { WritesOnlyLodgedRows
            (state S.Store self.old.conn) (state S.Store self.new.conn) result }
    {
        // Called for what its contract says: a constituency has a view in each lawful state.
        laws::a_constituency_has_a_view();
        import_rows(
            self.alloc,
            &mut self.conn,
            &self.setup,
            &mut self.known,
            rows,
            named,
        )
    }

    /// Tries an import in a transaction that is undone, whatever it comes to. The database is then
    /// that of the store's state, as it was, or a failed disk has shut the store. Nothing is
    /// written: a crash leaves what was there, and nothing else.
    fn trial_from<R: RowSource>(
        &mut self,
        rows: &mut R,
        named: &mut Vec<NamedRow>,
    ) -> Result<ImportCount, ImportFault>
        ensures stays { StaysStore S.Store self.old self.new }
        ensures tried { TriesIn S.Store
            (delivery R.RowSource rows.old rows.new) result self.old self.new }
        ensures named { NamesRowsIn S.Store (delivery R.RowSource rows.old rows.new) result
            named.old.items named.new.items self.old self.new }
        ensures tables { ShowsContent S.Store self.new }
        ensures text { KeepsTextIn S.Store self.old self.new }
        ensures unwritten { IsUnwritten
            (state S.Store self.old.conn) (state S.Store self.new.conn) }
    {
        // Called for what its contract says: a constituency has a view in each lawful state.
        laws::a_constituency_has_a_view();
        try_rows(self.alloc, &mut self.conn, &self.setup, rows, named)
    }
}
