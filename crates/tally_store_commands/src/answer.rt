//! A request, answered and carried out.

ghost use Rattle.tally_store_schema.specs.internal.Inside.{StaysInside};
ghost use Rattle.tally_store_commands.specs.internal.Requests.{AnswersIn};

use crate::constituencies::{answer_on_con, show_progress};
use crate::returns::{lodge, move_on, show_return};
use sqlite::{Alter, Error, Transaction};
use std::alloc::Global;
use std::collections::BTreeMap;
use tally_returns::{Ask, Refusal, Reply};
use tally_setup::{Code, Setup};
use tally_store_rows::Statuses;

/// Answers a request by the tables and carries it out on them. An error is one of the database, or
/// out of memory. The caller then undoes what was written, and forgets what was known.
pub fn answer_in<S: Alter>(
    alloc: Global,
    tx: &mut Transaction<'_, S>,
    setup: &Setup,
    known: &mut BTreeMap<Code, Statuses>,
    ask: &Ask,
) -> Result<Result<Reply, Refusal>, Error>
    ensures stays { StaysInside S.Store tx.old tx.new }
    ensures answers { AnswersIn S.Store setup.now ask.now known.old known.new tx.old tx.new result }
{
    if let Some(con) = ask.con() {
        return answer_on_con(alloc, tx, setup, known, con, ask);
    }
    match ask {
        Ask::Lodge {
            station,
            slip,
            counts,
        } => match lodge(alloc, tx, setup, known, *station, *slip, counts)? {
            Ok(reply) => Ok(Ok(Reply::from(reply))),
            Err(refusal) => Ok(Err(refusal)),
        },
        Ask::Query { station, .. } => move_on(alloc, tx, setup, known, *station, ask),
        Ask::Correct { station, .. } => move_on(alloc, tx, setup, known, *station, ask),
        Ask::Close { station, .. } => move_on(alloc, tx, setup, known, *station, ask),
        Ask::Confirm { station, .. } => move_on(alloc, tx, setup, known, *station, ask),
        Ask::ShowReturn { station } => show_return(alloc, tx, setup, *station),
        Ask::ShowProgress => show_progress(alloc, tx, setup, known),
        _ => unreachable!(),
    }
}
