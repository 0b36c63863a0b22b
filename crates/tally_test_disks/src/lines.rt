//! Lines of a script: commands, and imports beside them.

use crate::looks::shown;
use std::alloc::Global;
use std::io::ErrorKind;
use std::test::Fail;
use tally_core::{ImportCount, ImportFault, Keeper};
use tally_import::Sep;
use tally_test_scripts::{Pieces, RETURNS, first_wrong, import_from, trial_from};

/// The numbers of rows, or the fault. That of a store is answered as a refusal, by its number.
fn text_of_import(alloc: Global, came: &Result<ImportCount, ImportFault>) -> Result<String, Fail> {
    match came {
        Ok(
            ImportCount {
                lodged,
                same,
                differs,
                refused,
                bad,
                ..
            },
        ) => Ok(format!(in alloc; "{lodged} {same} {differs} {refused} {bad}")?),
        Err(ImportFault::Store) => Ok(String::from_str(alloc, "refused 23")?),
        Err(fault) => Ok(format!(in alloc; "{fault:?}")?),
    }
}

/// The fault in the answer to `import = ANSWER`, which lodges the returns of three stations,
/// to `trial = ANSWER`, which tries that, or to `cut import = ANSWER`, where a read fails after
/// them; or nothing.
fn wrong_import<K: Keeper>(alloc: Global, keeper: &mut K, line: &str) -> Result<String, Fail> {
    let (what, wanted) = line.split_once(" = ").ok_or("no answer")?;
    let failure = if what == "cut import" {
        Some(ErrorKind::BrokenPipe)
    } else {
        None
    };
    let text = Pieces {
        text: RETURNS.as_bytes(),
        piece: 4_096,
        failure,
    };
    let came = if what == "trial" {
        trial_from(alloc, keeper, text, Sep::Comma)?
    } else {
        import_from(alloc, keeper, text, Sep::Comma)?
    };
    let shown = text_of_import(alloc, &came)?;
    if shown.as_str() == wanted {
        return Ok(String::new(alloc));
    }
    Ok(format!(in alloc; "{line}, and not {shown}")?)
}

/// The fault in the answer to a line, or nothing.
pub(crate) fn wrong<K: Keeper>(alloc: Global, keeper: &mut K, line: &str) -> Result<String, Fail> {
    if line.starts_with("import") || line.starts_with("trial") || line.starts_with("cut") {
        return wrong_import(alloc, keeper, line);
    }
    first_wrong(alloc, keeper, line)
}

/// Whether a keeper answers a line as it should. `false` where its store refuses.
pub(crate) fn is_answered<K: Keeper>(
    alloc: Global,
    keeper: &mut K,
    line: &str,
) -> Result<bool, Fail> {
    let wrong = wrong(alloc, keeper, line)?;
    if wrong.as_str().ends_with(", and not refused 23") {
        return Ok(false);
    }
    if !wrong.is_empty() {
        return Err(Fail::from(wrong));
    }
    Ok(true)
}

/// How many of the lines a keeper answers, up to the one that its store refuses, and whether there
/// is such a line.
pub(crate) fn answered<K: Keeper>(
    alloc: Global,
    keeper: &mut K,
    lines: &str,
) -> Result<(usize, bool), Fail> {
    let mut steps = 0usize;
    for line in lines.lines() {
        if !is_answered(alloc, keeper, line)? {
            return Ok((steps, false));
        }
        steps = steps.saturating_add(1);
    }
    Ok((steps, true))
}

/// Whether a keeper answers a line that is given again where its store refuses it once.
fn is_answered_again<K: Keeper>(alloc: Global, keeper: &mut K, line: &str) -> Result<bool, Fail> {
    if is_answered(alloc, keeper, line)? {
        return Ok(true);
    }
    is_answered(alloc, keeper, line)
}

/// A keeper's content, as text. It is asked again where its store refuses any of it.
pub(crate) fn shown_again<K: Keeper>(alloc: Global, keeper: &mut K) -> Result<String, Fail> {
    let text = shown(alloc, keeper)?;
    if text.as_str().contains("refused 23") {
        return shown(alloc, keeper);
    }
    Ok(text)
}

/// How many of the lines a keeper answers, each of which is given again where its store refuses it
/// once. What it shows after each is added.
pub fn push_each<K: Keeper>(
    alloc: Global,
    text: &mut String,
    keeper: &mut K,
    lines: &str,
) -> Result<usize, Fail> {
    let mut steps = 0usize;
    for line in lines.lines() {
        if !is_answered_again(alloc, keeper, line)? {
            return Ok(steps);
        }
        text.push_str(shown_again(alloc, keeper)?.as_str())?;
        steps = steps.saturating_add(1);
    }
    Ok(steps)
}
