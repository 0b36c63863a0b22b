//! Words of a command line that commas part, and the lot that they name.

ghost use Rattle.std.specs.Prelude.{◌≡◌, ◌≤◌, [], IfOk, length, map, option_map, string_bytes};
ghost use Rattle.tally_frac.specs.Limits.{most_lists};
ghost use Rattle.tally_import_votes.specs.Lot.{bytes_of, lot_places, place_named, words_given};
ghost use Rattle.tally_import_votes.specs.Lot.{words_of};

use std::alloc::{AllocError, Global};
use tally_setup::Code;

/// The words of a text, parted by commas, in its order. A text without a comma is one word, and
/// there is none without a text.
pub fn words_given(alloc: Global, text: &Option<String>) -> Result<Vec<Vec<u8>>, AllocError>
    ensures { IfOk result (λ words.
        bytes_of words.items ≡ words_given (option_map string_bytes text.now)) }
{
    match text {
        Some(text) => words_of(alloc, text.as_bytes()),
        None => Ok(Vec::new(alloc)),
    }
}

fn words_of(alloc: Global, text: &[u8]) -> Result<Vec<Vec<u8>>, AllocError>
    ensures { IfOk result (λ words. bytes_of words.items ≡ words_of [] text.now) }
{
    let mut words = Vec::new(alloc);
    let mut word = Vec::new(alloc);
    for byte in text {
        if *byte == b',' {
            words.push(word)?;
            word = Vec::new(alloc);
        } else {
            word.push(*byte)?;
        }
    }
    words.push(word)?;
    Ok(words)
}

/// The places of the lists that a text names, parted by commas, in its order; 0 for a word that is
/// the code of no list. Without a text there is no lot.
pub fn lot_places(
    alloc: Global,
    lists: &[Code],
    lot: &Option<String>,
) -> Result<Vec<u32>, AllocError>
    requires { length lists.now ≤ most_lists }
    ensures { IfOk result (λ places. places.items
        ≡ lot_places lists.now (option_map string_bytes lot.now)) }
{
    let words = words_given(alloc, lot)?;
    places_of(alloc, lists, &words)
}

fn places_of(alloc: Global, lists: &[Code], words: &[Vec<u8>]) -> Result<Vec<u32>, AllocError>
    requires { length lists.now ≤ most_lists }
    ensures { IfOk result (λ places.
        places.items ≡ map (place_named lists.now) (bytes_of words.now)) }
{
    let mut places = Vec::with_capacity(alloc, words.len())?;
    for word in words {
        places.push(place_named(lists, word))?;
    }
    Ok(places)
}

/// The place, from 1, of the list that a word is the code of, and 0 where there is none.
fn place_named(lists: &[Code], word: &[u8]) -> u32
    requires { length lists.now ≤ most_lists }
    ensures { result ≡ place_named lists.now word.now }
{
    for (index, code) in lists.iter().enumerate() {
        if code.as_str().as_bytes() == word {
            return index as u32 + 1;
        }
    }
    0
}
