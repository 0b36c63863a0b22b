//! Runs of requests over any keeper.

ghost use Rattle.std.specs.Prelude.{◌≡◌, All, Err, IfOk, OnErr};
ghost use Rattle.tally_returns.specs.declared.refusal.Refusal.TheVariants as refusal;
ghost use Rattle.tally_keeper.specs.Keeper.{Runs};
ghost use Rattle.tally_keeper.specs.StaysKeeper.{StaysKeeper};

use crate::keeper::Keeper;
use std::alloc::{AllocError, Global};
use tally_returns::{Ask, Refusal, Reply};

/// Answers requests in order. Where there is no room for the list of answers, none was made. Only a
/// keeper with a database answers that one refused, and none gains a database.
pub fn run<K: Keeper>(
    alloc: Global,
    keeper: &mut K,
    asks: &[Ask],
) -> Result<Vec<Result<Reply, Refusal>>, AllocError>
    ensures stays { StaysKeeper K.Keeper keeper.old keeper.new }
    ensures runs { K.IsTrusted keeper.new → IfOk result (λ answers.
        Runs (K.constituencies keeper.old) (K.content keeper.old) asks.now answers.items
        (K.content keeper.new)) }
    ensures store { IfOk result (λ answers.
        All (λ r. r ≡ Err refusal.Store → K.HasDatabase keeper.old) answers.items) }
    ensures kept { OnErr result (keeper.new ≡ keeper.old) }
{
    let mut answers = Vec::with_capacity(alloc, asks.len())?;
    for ask in asks {
        let answer = keeper.answer(ask);
        match answers.push(answer) {
            Ok(()) => {}
            Err(_) => unreachable!(),
        }
    }
    Ok(answers)
}
