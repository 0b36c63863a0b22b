//! Returns in a tree, counted in what is seen of their constituencies.

ghost use Rattle.std.specs.Prelude.{◌≡◌, OnErr, OnOk, false};
ghost use Rattle.std.specs.FinMap.{get, insert, remove};
ghost use Rattle.std.specs.Option.{ForSome};
ghost use Rattle.tally_keeper.specs.internal.Rows.{IsTallied, cons_of, returns_of, seats_of};
ghost use Rattle.tally_keeper.specs.internal.Rows.{views_of, without_former};
ghost use Rattle.tally_keeper.specs.internal.Sums.{CanCount};
ghost use Rattle.tally_returns.specs.Lawful.{IsLawfulAt};

use crate::views::count;
use std::alloc::AllocError;
use std::collections::BTreeMap;
use tally_returns::{ConView, Return};
use tally_setup::{Code, Setup};

/// Puts the return of a station: the former one is no longer counted, and this one is.
pub(crate) fn put_return(
    setup: &Setup,
    returns: &mut BTreeMap<Code, Return>,
    views: &mut BTreeMap<Code, ConView>,
    station: Code,
    standing: Return,
) -> Result<(), AllocError>
    requires tallied { IsTallied setup.now (returns_of returns.old) (views_of views.old) }
    requires lawful { IsLawfulAt setup.now station standing }
    ensures put { OnOk result
        (returns_of returns.new ≡ insert (returns_of returns.old) station standing) }
    ensures kept { OnErr result (returns_of returns.new ≡ returns_of returns.old) }
    ensures tallied { IsTallied setup.now (returns_of returns.new) (views_of views.new) }
    ensures cons { cons_of (views_of views.new) ≡ cons_of (views_of views.old) }
    ensures seats { seats_of (views_of views.new) ≡ seats_of (views_of views.old) }
{
    let Some((con, _)) = setup.station(station) else {
        unreachable!()
    };
    let former = returns.insert(station, standing)?;
    count_former(views, con.code, former);
    let Some(standing) = returns.get(&station) else {
        unreachable!()
    };
    count(views, con.code, standing, true);
    Ok(())
}

/// Takes the return of a station out, and no longer counts it.
pub(crate) fn remove_return(
    setup: &Setup,
    returns: &mut BTreeMap<Code, Return>,
    views: &mut BTreeMap<Code, ConView>,
    station: Code,
)
    requires tallied { IsTallied setup.now (returns_of returns.old) (views_of views.old) }
    ensures taken { returns_of returns.new ≡ remove (returns_of returns.old) station }
    ensures tallied { IsTallied setup.now (returns_of returns.new) (views_of views.new) }
    ensures cons { cons_of (views_of views.new) ≡ cons_of (views_of views.old) }
    ensures seats { seats_of (views_of views.new) ≡ seats_of (views_of views.old) }
{
    let Some((con, _)) = setup.station(station) else {
        return;
    };
    let former = returns.remove(&station);
    count_former(views, con.code, former);
}

/// The former return, if there was one, is no longer counted.
fn count_former(views: &mut BTreeMap<Code, ConView>, con: Code, former: Option<Return>)
    requires { ForSome former (λ standing.
        ForSome (get (views_of views.old) con) (λ v. CanCount v standing false)) }
    ensures { views_of views.new ≡ without_former (views_of views.old) con former }
{
    if let Some(standing) = former {
        count(views, con, &standing, false);
    }
}
