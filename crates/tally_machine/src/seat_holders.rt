//! Who holds the seats of a list.

ghost use Rattle.std.specs.Prelude.{◌≡◌, IfOk};
ghost use Rattle.tally_machine_law.specs.Holders.{holders, newcomer};

use std::alloc::{AllocError, Global};

/// The places, from 1, of the candidates who hold the seats of a list: its first candidates in
/// their order (LOREG article 163.1 e)), those who are gone left out (article 164.1). They are
/// fewer than the seats where the list has no more candidates; those seats stay empty. No candidate
/// is looked at once all seats are held.
pub fn holders(
    alloc: Global,
    candidates: u32,
    seats: u32,
    gone: &[u32],
) -> Result<Vec<u32>, AllocError>
    ensures { IfOk result (λ places. places.items ≡ holders candidates seats gone.now) }
{
    let mut places = Vec::new(alloc);
    for candidate in 0..candidates {
        if places.len() == seats as usize {
            return Ok(places);
        }
        if !gone.contains(&(candidate + 1)) {
            places.push(candidate + 1)?;
        }
    }
    Ok(places)
}

/// The one who holds a seat now and held none before.
pub(crate) fn newcomer(before: &[u32], now: &[u32]) -> Option<u32>
    ensures { result ≡ newcomer before.now now.now }
{
    now.iter().copied().find(|place| !before.contains(place))
}
