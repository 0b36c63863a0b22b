//! What is seen of constituencies, in a tree.

ghost use Rattle.std.specs.Prelude.{◌≡◌, ◌<◌, ◌+◌, ◌^◌, [], IfOk, OnErr, OnOk, false, true};
ghost use Rattle.std.specs.Prelude.{string_bytes};
ghost use Rattle.std.specs.FinMap.{get};
ghost use Rattle.std.specs.Option.{ForSome, option_copied};
ghost use Rattle.tally_keeper.specs.internal.Rows.{gone_place, opening_view, opening_views};
ghost use Rattle.tally_keeper.specs.internal.Rows.{progress_row_of, views_of, with_certificate};
ghost use Rattle.tally_keeper.specs.internal.Rows.{with_gone, with_lot, with_one_gone};
ghost use Rattle.tally_keeper.specs.internal.Rows.{with_reopening, with_view};
ghost use Rattle.tally_keeper.specs.internal.Sums.{CanCount, with_return_counted};
ghost use Rattle.tally_setup.specs.Limits.{IsSetup};

use crate::sums::count_return;
use std::alloc::{AllocError, Global};
use std::collections::BTreeMap;
use tally_returns::{ConView, Gone, Past, ProgressRow, Return};
use tally_setup::{Code, Constituency, Setup};

/// The view of each constituency as it opens.
pub(crate) fn opening_views(
    alloc: Global,
    setup: &Setup,
) -> Result<BTreeMap<Code, ConView>, AllocError>
    ensures views { IfOk result (λ views. views_of views ≡ opening_views setup.now) }
    ensures limits { OnOk result (IsSetup setup.now) }
{
    let mut views = BTreeMap::new(alloc);
    let cons = setup.cons();
    for con in cons {
        views.insert(con.code, opening_view(alloc, con)?)?;
    }
    Ok(views)
}

fn opening_view(alloc: Global, con: &Constituency) -> Result<ConView, AllocError>
    ensures { IfOk result (λ view. view ≡ opening_view con.now) }
{
    Ok(ConView {
        edition: 1,
        certified: false,
        note: String::new(alloc),
        lot: Vec::new(alloc),
        stations: con.stations.len() as u32,
        received: 0,
        queried: 0,
        corrected: 0,
        closed: 0,
        votes: vec![in alloc; 0; con.lists.len()]?,
        blank: 0,
        spoiled: 0,
        seats: Vec::new(alloc),
        gone: Vec::new(alloc),
        past: Vec::new(alloc),
    })
}

/// The view of the constituency of a code.
pub(crate) fn view_at(views: &BTreeMap<Code, ConView>, con: Code) -> Option<&ConView>
    ensures { option_copied result ≡ get (views_of views.now) con }
{
    views.get(&con)
}

/// Counts a return in the view of a constituency, or no longer counts it.
pub(crate) fn count(views: &mut BTreeMap<Code, ConView>, con: Code, standing: &Return, add: bool)
    requires { ForSome (get (views_of views.old) con) (λ view. CanCount view standing.now add) }
    ensures { views_of views.new
        ≡ with_view (views_of views.old) con (λ v. with_return_counted v standing.now add) }
{
    if let Some(view) = views.get_mut(&con) {
        count_return(view, standing, add);
    }
}

pub(crate) fn set_lot(views: &mut BTreeMap<Code, ConView>, con: Code, lot: Vec<u32>)
    requires { ForSome (get (views_of views.old) con) (λ view. view.edition + 1 < 2 ^ 32) }
    ensures { views_of views.new ≡ with_view (views_of views.old) con (with_lot lot.items) }
{
    if let Some(view) = views.get_mut(&con) {
        view.edition += 1;
        view.lot = lot;
    }
}

pub(crate) fn drop_lot(views: &mut BTreeMap<Code, ConView>, con: Code)
    ensures { views_of views.new
        ≡ with_view (views_of views.old) con (λ view. record view { lot = [] }) }
{
    if let Some(view) = views.get_mut(&con) {
        view.lot.clear();
    }
}

pub(crate) fn set_certified(views: &mut BTreeMap<Code, ConView>, con: Code, seats: Vec<u32>)
    requires { ForSome (get (views_of views.old) con) (λ view. view.edition + 1 < 2 ^ 32) }
    ensures { views_of views.new
        ≡ with_view (views_of views.old) con (with_certificate seats.items) }
{
    if let Some(view) = views.get_mut(&con) {
        view.edition += 1;
        view.certified = true;
        view.seats = seats;
    }
}

pub(crate) fn set_reopened(
    views: &mut BTreeMap<Code, ConView>,
    con: Code,
    note: String,
    past: Past,
) -> Result<(), AllocError>
    requires { ForSome (get (views_of views.old) con) (λ view. view.edition + 1 < 2 ^ 32) }
    ensures reopened { OnOk result (views_of views.new
        ≡ with_view (views_of views.old) con (with_reopening (string_bytes note) past)) }
    ensures kept { OnErr result (views_of views.new ≡ views_of views.old) }
{
    let Some(view) = views.get_mut(&con) else {
        return Ok(());
    };
    open_again(view, note, past)
}

/// Opens a certified constituency again, and puts its certificate after those on record.
fn open_again(view: &mut ConView, note: String, past: Past) -> Result<(), AllocError>
    requires { view.old.edition + 1 < 2 ^ 32 }
    ensures reopened { OnOk result (view.new ≡ with_reopening (string_bytes note) past view.old) }
    ensures kept { OnErr result (view.new ≡ view.old) }
{
    view.past.push(past)?;
    view.edition += 1;
    view.certified = false;
    view.note = note;
    view.seats.clear();
    Ok(())
}

pub(crate) fn set_gone(
    views: &mut BTreeMap<Code, ConView>,
    con: Code,
    gone: Gone,
) -> Result<(), AllocError>
    ensures put { OnOk result
        (views_of views.new ≡ with_view (views_of views.old) con (with_one_gone gone)) }
    ensures kept { OnErr result (views_of views.new ≡ views_of views.old) }
{
    let Some(view) = views.get_mut(&con) else {
        return Ok(());
    };
    put_gone(&mut view.gone, gone)?;
    Ok(())
}

/// Puts a candidate who is gone at its place.
fn put_gone(gone: &mut Vec<Gone>, candidate: Gone) -> Result<(), AllocError>
    ensures put { OnOk result (gone.new.items ≡ with_gone candidate gone.old.items) }
    ensures kept { OnErr result (gone.new.items ≡ gone.old.items) }
{
    let place = gone_place(gone, &candidate);
    gone.insert(place, candidate)?;
    Ok(())
}

/// How many come before the candidate, in order of list and then of candidate.
fn gone_place(gone: &[Gone], candidate: &Gone) -> usize
    ensures { result ≡ gone_place candidate.now gone.now }
{
    for (place, other) in gone.iter().enumerate() {
        if !other.is_before(candidate) {
            return place;
        }
    }
    gone.len()
}

/// How far a constituency has come.
pub(crate) fn progress_row(con: Code, view: &ConView) -> ProgressRow
    ensures { result ≡ progress_row_of con view.now }
{
    ProgressRow {
        con,
        stations: view.stations,
        received: view.received,
        queried: view.queried,
        corrected: view.corrected,
        closed: view.closed,
        edition: view.edition,
        certified: view.certified,
    }
}
