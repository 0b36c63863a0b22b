//! Returns, and what constituencies have come to.

ghost use Rattle.std.specs.Prelude.{◌≡◌, ◌<◌, ◌+◌, ◌^◌, ◌∷◌, [], Some, None, OnOk, OnErr, IfOk};
ghost use Rattle.std.specs.Prelude.{IsSome, option_map, string_bytes};
ghost use Rattle.std.specs.FinMap.{get, insert, remove};
ghost use Rattle.std.specs.Option.{option_copied};
ghost use Rattle.tally_keeper.specs.Kept.{AreEarlier, opening_kept, state_in, view_in, with_change};
ghost use Rattle.tally_keeper.specs.Kept.{with_no_lot};
ghost use Rattle.tally_machine_law.specs.Step.{certified_with, gone_for_good, lot_set, open_again};
ghost use Rattle.tally_returns.specs.Lawful.{IsLawfulAt};
ghost use Rattle.tally_returns.specs.Progress.{progress};
ghost use Rattle.tally_returns.specs.State.{con_state};
ghost use Rattle.tally_setup.specs.Limits.{IsSetup};
ghost use Rattle.tally_setup.specs.Setup.{constituency_with};

use crate::returns::{put_return, remove_return};
use crate::views::{
    drop_lot, opening_views, progress_row, set_certified, set_gone, set_lot, set_reopened, view_at,
};
use std::alloc::{AllocError, Global};
use std::collections::BTreeMap;
use std::marker::Model;
use tally_returns::{ConView, Gone, Past, ProgressRow, Return};
use tally_setup::{Code, Setup};

/// The returns of an election, and what is seen of each of its constituencies. The sums of closed
/// votes are kept, so that a command on a constituency costs what its lists cost, and not what its
/// stations cost. Contracts see the setup, the returns, what each constituency has come to, and its
/// seats.
#[derive(Drop)]
pub struct Ledger {
    setup: Setup,
    returns: BTreeMap<Code, Return>,
    views: BTreeMap<Code, ConView>,
}

impl Model for Ledger {
    ghost use Rattle.tally_keeper.specs.Kept.{Kept};
    ghost use Rattle.tally_keeper.specs.internal.Rows.{IsTallied, cons_of, returns_of, seats_of};
    ghost use Rattle.tally_keeper.specs.internal.Rows.{views_of};
    ghost use Rattle.tally_keeper.specs.internal.KeptCode.{kept_code};

    ghost Value = { Kept };

    ghost coded = { kept_code };

    ghost view = { λ l. record {
      setup = l.setup;
      returns = returns_of l.returns;
      cons = cons_of (views_of l.views);
      seats = seats_of (views_of l.views);
    } };

    ghost invariant = { λ l. IsTallied l.setup (returns_of l.returns) (views_of l.views) };
}

impl Ledger {
    /// No return is recorded, and each constituency is as it opens.
    pub fn new(alloc: Global, setup: Setup) -> Result<Ledger, AllocError>
        ensures opening { IfOk result (λ ledger. ledger ≡ opening_kept setup) }
        ensures limits { OnOk result (IsSetup setup) }
    {
        let views = opening_views(alloc, &setup)?;
        Ok(Ledger {
            setup,
            returns: BTreeMap::new(alloc),
            views,
        })
    }

    /// The setup.
    pub fn setup(&self) -> &Setup
        ensures { result.now ≡ self.now.setup }
    {
        &self.setup
    }

    /// Takes the setup out of the ledger and drops the rest.
    pub fn into_setup(self) -> Setup
        ensures { result ≡ self.setup }
    {
        let Ledger { setup, .. } = self;
        setup
    }

    /// The return of a station.
    pub fn return_at(&self, station: Code) -> Option<&Return>
        ensures { option_copied result ≡ get self.now.returns station }
    {
        self.returns.get(&station)
    }

    /// The view of the constituency of a code.
    pub fn view(&self, con: Code) -> Option<&ConView>
        ensures { option_copied result
            ≡ option_map (view_in self.now) (constituency_with con self.now.setup) }
    {
        view_at(&self.views, con)
    }

    /// How far each constituency has come, in the setup's order.
    pub fn progress(&self, alloc: Global) -> Result<Vec<ProgressRow>, AllocError>
        ensures { IfOk result (λ rows.
            rows.items ≡ progress self.now.setup (state_in self.now)) }
    {
        let cons = self.setup.cons();
        let mut rows = Vec::with_capacity(alloc, cons.len())?;
        for con in cons {
            let Some(view) = view_at(&self.views, con.code) else {
                unreachable!()
            };
            rows.push(progress_row(con.code, view))?;
        }
        Ok(rows)
    }

    /// Puts the return of a station, in place of the present one if there is one. Only a first one
    /// takes memory.
    pub fn put(&mut self, station: Code, standing: Return) -> Result<(), AllocError>
        requires lawful { IsLawfulAt self.now.setup station standing }
        ensures put { OnOk result (self.new
            ≡ record self.old { returns = insert self.old.returns station standing }) }
        ensures kept { OnErr result (self.new ≡ self.old) }
    {
        put_return(
            &self.setup,
            &mut self.returns,
            &mut self.views,
            station,
            standing,
        )
    }

    /// Takes the return of a station out. It takes no memory.
    pub fn take_out(&mut self, station: Code)
        ensures { self.new ≡ record self.old { returns = remove self.old.returns station } }
    {
        remove_return(&self.setup, &mut self.returns, &mut self.views, station);
    }

    /// Records a lot, as the places of the lists in its order, and the edition rises.
    pub fn set_lot(&mut self, con: Code, lot: Vec<u32>)
        requires known { IsSome (constituency_with con self.now.setup) }
        requires edition { (con_state (state_in self.now) con).edition + 1 < 2 ^ 32 }
        ensures { self.new ≡ with_change self.old con (lot_set lot.items) }
    {
        set_lot(&mut self.views, con, lot);
    }

    /// Removes the lot, so that none is recorded.
    pub fn drop_lot(&mut self, con: Code)
        requires known { IsSome (constituency_with con self.now.setup) }
        ensures { self.new ≡ with_no_lot self.old con }
    {
        drop_lot(&mut self.views, con);
    }

    /// The constituency is certified now, with these seats, and the edition rises.
    pub fn set_certified(&mut self, con: Code, seats: Vec<u32>)
        requires known { IsSome (constituency_with con self.now.setup) }
        requires edition { (con_state (state_in self.now) con).edition + 1 < 2 ^ 32 }
        ensures { self.new ≡ with_change self.old con (certified_with seats.items) }
    {
        set_certified(&mut self.views, con, seats);
    }

    /// The constituency is open again, with this note, the certificate that was reopened is on
    /// record after all earlier ones, and the edition rises.
    pub fn set_reopened(&mut self, con: Code, note: String, past: Past) -> Result<(), AllocError>
        requires known { IsSome (constituency_with con self.now.setup) }
        requires edition { (con_state (state_in self.now) con).edition + 1 < 2 ^ 32 }
        requires later { AreEarlier (con_state (state_in self.now) con).past past.edition }
        ensures reopened { OnOk result (self.new
            ≡ with_change self.old con (open_again (string_bytes note) past)) }
        ensures kept { OnErr result (self.new ≡ self.old) }
    {
        set_reopened(&mut self.views, con, note, past)
    }

    /// The candidate, who was not gone, is gone now.
    pub fn set_gone(&mut self, con: Code, gone: Gone) -> Result<(), AllocError>
        requires known { IsSome (constituency_with con self.now.setup) }
        requires new { get (con_state (state_in self.now) con).gone
            (gone.list ∷ gone.place ∷ []) ≡ None }
        ensures gone { OnOk result (self.new
            ≡ with_change self.old con (gone_for_good gone None)) }
        ensures kept { OnErr result (self.new ≡ self.old) }
    {
        set_gone(&mut self.views, con, gone)
    }
}
