//! Imports into the constituency c1.

use crate::setups::code;
use std::alloc::Global;
use std::io::Read;
use std::test::Fail;
use tally_import::{ReturnRows, Sep};
use tally_keeper::Keeper;
use tally_returns_rows::{ImportCount, ImportFault, NamedRow};

/// The outcome of importing a reader's text, and the rows that it names.
fn import_named<K: Keeper, R: Read + Drop>(
    alloc: Global,
    keeper: &mut K,
    reader: R,
    sep: Sep,
    named: &mut Vec<NamedRow>,
) -> Result<Result<ImportCount, ImportFault>, Fail> {
    let found = keeper.setup().con(code("c1")?).ok_or("c1")?;
    let con = found.try_copy(alloc)?;
    let mut rows = ReturnRows::new(alloc, reader, sep, con);
    Ok(keeper.lodge_from(&mut rows, named))
}

/// As above, for its trial.
fn trial_named<K: Keeper, R: Read + Drop>(
    alloc: Global,
    keeper: &mut K,
    reader: R,
    sep: Sep,
    named: &mut Vec<NamedRow>,
) -> Result<Result<ImportCount, ImportFault>, Fail> {
    let found = keeper.setup().con(code("c1")?).ok_or("c1")?;
    let con = found.try_copy(alloc)?;
    let mut rows = ReturnRows::new(alloc, reader, sep, con);
    Ok(keeper.trial_from(&mut rows, named))
}

/// The outcome of importing a reader's text.
pub fn import_from<K: Keeper, R: Read + Drop>(
    alloc: Global,
    keeper: &mut K,
    reader: R,
    sep: Sep,
) -> Result<Result<ImportCount, ImportFault>, Fail> {
    import_named(alloc, keeper, reader, sep, &mut Vec::new(alloc))
}

/// The outcome of its trial.
pub fn trial_from<K: Keeper, R: Read + Drop>(
    alloc: Global,
    keeper: &mut K,
    reader: R,
    sep: Sep,
) -> Result<Result<ImportCount, ImportFault>, Fail> {
    trial_named(alloc, keeper, reader, sep, &mut Vec::new(alloc))
}

/// The outcome of an import by commas, as text.
pub fn text_of_import_from<K: Keeper, R: Read + Drop>(
    alloc: Global,
    keeper: &mut K,
    reader: R,
) -> Result<String, Fail> {
    let outcome = import_from(alloc, keeper, reader, Sep::Comma)?;
    Ok(format!(in alloc; "{outcome:?}")?)
}

/// The rows that an import by commas names, as text.
pub fn text_of_named<K: Keeper, R: Read + Drop>(
    alloc: Global,
    keeper: &mut K,
    reader: R,
) -> Result<String, Fail> {
    let mut named = Vec::new(alloc);
    let _outcome = import_named(alloc, keeper, reader, Sep::Comma, &mut named)?;
    Ok(format!(in alloc; "{named:?}")?)
}

/// Those that its trial names, as text.
pub fn text_of_tried<K: Keeper, R: Read + Drop>(
    alloc: Global,
    keeper: &mut K,
    reader: R,
) -> Result<String, Fail> {
    let mut named = Vec::new(alloc);
    let _outcome = trial_named(alloc, keeper, reader, Sep::Comma, &mut named)?;
    Ok(format!(in alloc; "{named:?}")?)
}
