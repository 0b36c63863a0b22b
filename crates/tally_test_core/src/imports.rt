//! Imports of texts of returns, one of which may be refused its memory by
//! `bench/refused_requests.py`.

use crate::setups::fresh;
use crate::shown::compare;
use std::alloc::Global;
use std::test::Fail;
use tally_core::{Book, ImportCount, ImportFault};
use tally_import::Sep;
use tally_test_scripts::{
    BAD_RETURNS, MORE_STATIONS, RETURNS, TWIN_TOWN, import_count, import_from,
};

/// The three returns, of which the second has other votes.
const DIFFERING: &str =
    "station,slip,blank,spoiled,A,B\ns1,p1,0,0,10,20\ns2,p2,1,0,31,40\ns3,p3,0,2,50,60\n";

/// Texts that are imported one after the other.
const TEXTS: [&str; 4] = [BAD_RETURNS, RETURNS, RETURNS, DIFFERING];

/// A keeper of three stations into which the first of the texts were imported.
fn after(alloc: Global, count: usize) -> Result<Book, Fail> {
    let setup = format!(in alloc; "{TWIN_TOWN}{MORE_STATIONS}")?;
    let mut book = fresh(alloc, setup.as_str())?;
    for text in TEXTS.iter().take(count) {
        let _ = import_from(alloc, &mut book, text.as_bytes(), Sep::Comma)?;
    }
    Ok(book)
}

/// The outcome of importing the text at a place. Where it is out of memory, the keeper has to
/// show what one shows into which only those before it were imported, and it is done once more.
fn import_at(
    rt: &HostRuntime,
    book: &mut Book,
    place: usize,
    text: &str,
) -> Result<Result<ImportCount, ImportFault>, Fail> {
    let imported = import_from(rt.alloc(), book, text.as_bytes(), Sep::Comma)?;
    let Err(ImportFault::Memory) = imported else {
        return Ok(imported);
    };
    println!(rt; "refused: the import of text {place}")?;
    let mut other = after(rt.alloc(), place)?;
    compare(rt.alloc(), book, &mut other)?;
    import_from(rt.alloc(), book, text.as_bytes(), Sep::Comma)
}

#[test]
fn imports_come_to_what_they_do(rt: HostRuntime) -> Result<(), Fail> {
    let wanted = [
        import_count([2, 0, 0, 0, 1], Some((2, 0))),
        import_count([1, 2, 0, 0, 0], None),
        import_count([0, 3, 0, 0, 0], None),
        import_count([0, 2, 1, 0, 0], Some((2, 7))),
    ];
    let mut book = after(rt.alloc(), 0)?;
    for (place, text) in TEXTS.iter().enumerate() {
        if import_at(&rt, &mut book, place, text)? != wanted[place] {
            return Err(Fail::new(text));
        }
    }
    let mut other = after(rt.alloc(), TEXTS.len())?;
    compare(rt.alloc(), &mut book, &mut other)
}
