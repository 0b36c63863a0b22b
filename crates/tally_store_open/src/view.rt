//! Whether what is seen of a constituency is what a lawful state shows of it.

ghost use Rattle.std.specs.Prelude.{◌≡◌, ◌≢◌, ◌≤◌, All, IfOk, IsTrue, [], length, sum};
ghost use Rattle.tally_frac.specs.Limits.{most_lists};
ghost use Rattle.tally_machine_law.specs.Outcome.{IsLawfulGone, IsLawfulPast, IsLawfulView};
ghost use Rattle.tally_machine_law.specs.Outcome.{is_candidate};
ghost use Rattle.tally_returns.specs.Lawful.{is_kept_note};
ghost use Rattle.tally_returns.specs.View.{FitsView, HasEachList};
ghost use Rattle.tally_store_open.specs.internal.Seen.{HasLawfulFrame, IsCertified};
ghost use Rattle.tally_store_open.specs.internal.Seen.{IsLotRight, IsOpen};
ghost use Rattle.tally_store_open.specs.internal.Seen.{is_in_range};

use std::alloc::{AllocError, Global};
use tally_allot::{AllotFault, allot, is_allotment};
use tally_returns::{ConView, Gone, LAST_EDITION, Past, is_note_or_empty};
use tally_setup::{Constituency, MOST_STATIONS, good_note};

/// Whether a lawful state may show a constituency in this way: its lot, its seats, those who are
/// gone, and its certificates that were reopened.
pub fn is_lawful_view(alloc: Global, con: &Constituency, view: &ConView) -> Result<bool, AllocError>
    ensures lawful { IfOk result (λ yes. IsTrue yes → IsLawfulView con.now view.now) }
    ensures otherwise { IfOk result (λ yes. IsLawfulView con.now view.now → IsTrue yes) }
{
    if !has_lawful_frame(con, view) {
        return Ok(false);
    }
    if view.certified {
        return Ok(is_certificate(con, view));
    }
    is_open(alloc, con, view)
}

/// Whether all but the seats and the lot is as in a lawful state.
fn has_lawful_frame(con: &Constituency, view: &ConView) -> bool
    ensures lawful { IsTrue result → HasLawfulFrame con.now view.now }
    ensures otherwise { HasLawfulFrame con.now view.now → IsTrue result }
{
    if !view.fits(con) {
        return false;
    }
    if !is_in_range(view) {
        return false;
    }
    if !are_candidates(con, &view.gone) {
        return false;
    }
    are_earlier(con, view.edition, &view.past)
}

fn is_in_range(view: &ConView) -> bool
    ensures { result ≡ is_in_range view.now }
{
    view.stations as usize <= MOST_STATIONS
        && view.edition >= 1
        && view.edition <= LAST_EDITION
        && is_note_or_empty(view.note.as_str())
}

/// Whether all stations are closed, and the seats and the lot are those of the one allotment.
fn is_certificate(con: &Constituency, view: &ConView) -> bool
    requires { FitsView con.now view.now }
    ensures certified { IsTrue result → IsCertified con.now view.now }
    ensures otherwise { IsCertified con.now view.now → IsTrue result }
{
    view.closed == view.stations
        && is_allotment(
            &con.profile,
            con.seats,
            &view.votes,
            view.blank,
            &view.lot,
            &view.seats,
        )
}

/// Whether there are no seats, and no lot or the one to be taken.
fn is_open(alloc: Global, con: &Constituency, view: &ConView) -> Result<bool, AllocError>
    requires { FitsView con.now view.now }
    ensures open { IfOk result (λ yes. IsTrue yes → IsOpen con.now view.now) }
    ensures otherwise { IfOk result (λ yes. IsOpen con.now view.now → IsTrue yes) }
{
    if !view.seats.is_empty() {
        return Ok(false);
    }
    if view.lot.is_empty() {
        return Ok(true);
    }
    if view.closed != view.stations {
        return Ok(false);
    }
    is_lot_taken(alloc, con, view)
}

/// Whether a lot that is recorded is the one to be taken.
fn is_lot_taken(alloc: Global, con: &Constituency, view: &ConView) -> Result<bool, AllocError>
    requires fits { FitsView con.now view.now }
    requires lot { view.now.lot ≢ [] }
    ensures taken { IfOk result (λ yes. IsTrue yes → IsLotRight con.now view.now) }
    ensures otherwise { IfOk result (λ yes. IsLotRight con.now view.now → IsTrue yes) }
{
    let allotted = allot(
        alloc,
        &con.profile,
        con.seats,
        &view.votes,
        view.blank,
        &view.lot,
    );
    let fault = match allotted {
        Ok(_) => return Ok(true),
        Err(fault) => fault,
    };
    match fault {
        AllotFault::Memory => Err(AllocError),
        _ => Ok(false),
    }
}

/// Whether each of those who are gone is a candidate, and has a note that can be kept.
fn are_candidates(con: &Constituency, gone: &[Gone]) -> bool
    ensures candidates { IsTrue result → All (IsLawfulGone con.now) gone.now }
    ensures otherwise { All (IsLawfulGone con.now) gone.now → IsTrue result }
{
    for candidate in gone {
        if !is_lawful_gone(con, candidate) {
            return false;
        }
    }
    true
}

fn is_lawful_gone(con: &Constituency, gone: &Gone) -> bool
    ensures lawful { IsTrue result → IsLawfulGone con.now gone.now }
    ensures otherwise { IsLawfulGone con.now gone.now → IsTrue result }
{
    is_candidate(con, gone.list, gone.place) && is_kept_note(gone.note.as_str())
}

fn is_kept_note(note: &str) -> bool
    ensures { result ≡ is_kept_note note.now }
{
    good_note(note)
}

fn is_candidate(con: &Constituency, list: u32, place: u32) -> bool
    ensures { result ≡ is_candidate con.now list place }
{
    if list < 1 {
        return false;
    }
    match con.lists.get(list as usize - 1) {
        Some(entry) => place >= 1 && place as usize <= entry.candidates.len(),
        None => false,
    }
}

/// Whether each certificate is of an edition before this one, and gave the lists all the seats.
fn are_earlier(con: &Constituency, edition: u32, past: &[Past]) -> bool
    requires { All (HasEachList con.now) past.now }
    ensures earlier { IsTrue result → All (IsLawfulPast con.now edition) past.now }
    ensures otherwise { All (IsLawfulPast con.now edition) past.now → IsTrue result }
{
    for certificate in past {
        if !is_lawful_past(con, edition, certificate) {
            return false;
        }
    }
    true
}

fn is_lawful_past(con: &Constituency, edition: u32, past: &Past) -> bool
    requires { HasEachList con.now past.now }
    ensures lawful { IsTrue result → IsLawfulPast con.now edition past.now }
    ensures otherwise { IsLawfulPast con.now edition past.now → IsTrue result }
{
    past.edition >= 1 && past.edition < edition && all_seats(&past.seats) == u64::from(con.seats)
}

fn all_seats(seats: &[u32]) -> u64
    requires { length seats.now ≤ most_lists }
    ensures { result ≡ sum seats.now }
{
    seats.iter().map(|n| u64::from(*n)).sum()
}
