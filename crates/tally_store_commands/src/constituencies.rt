//! Requests on a constituency, and the one that shows how far constituencies have come.

ghost use Rattle.std.specs.Prelude.{◌≡◌, Some};
ghost use Rattle.tally_returns.specs.Named.{con_named};
ghost use Rattle.tally_returns.specs.View.{FitsView};
ghost use Rattle.tally_returns.specs.declared.ask.Ask.TheVariants.{ShowProgress};
ghost use Rattle.tally_setup.specs.Limits.{IsSetup};
ghost use Rattle.tally_setup.specs.Setup.{constituency_with};
ghost use Rattle.tally_store_schema.specs.internal.Inside.{StaysInside};
ghost use Rattle.tally_store_commands.specs.internal.Requests.{AnswersIn};
ghost use Rattle.tally_store_commands.specs.internal.Answering.{AnswersSo};
ghost use Rattle.tally_store_commands.specs.internal.Seen.{CarriesOutSeen, shows_con};

use crate::changes::carry_out;
use crate::known::{known_at, remember, statuses_of_row};
use crate::shown::see_open;
use sqlite::{Alter, Error, Transaction};
use std::alloc::Global;
use std::collections::BTreeMap;
use tally_machine::decide_con;
use tally_returns::{Ask, Change, ConView, Refusal, Reply};
use tally_setup::{Code, Constituency, Setup};
use tally_store_entries::{find_progress_row, find_view, rows_of_cons};
use tally_store_rows::{Statuses, statuses_of};

/// Answers a request on the constituency of a code, and carries it out.
pub(crate) fn answer_on_con<S: Alter>(
    alloc: Global,
    tx: &mut Transaction<'_, S>,
    setup: &Setup,
    known: &mut BTreeMap<Code, Statuses>,
    code: Code,
    ask: &Ask,
) -> Result<Result<Reply, Refusal>, Error>
    requires named { con_named ask.now ≡ Some code }
    ensures stays { StaysInside S.Store tx.old tx.new }
    ensures answers { AnswersIn S.Store setup.now ask.now known.old known.new tx.old tx.new result }
{
    let Some(con) = setup.con(code) else {
        see_open(tx)?;
        return Ok(Err(Refusal::NoConstituency));
    };
    let view = find_view(
        alloc,
        tx,
        setup,
        con,
        known_at(known, con.code),
        shows_con(ask),
    )?;
    remember(known, con.code, statuses_of(&view))?;
    answer_seen(alloc, tx, setup, con, view, ask)
}

/// Whether a request shows a constituency, with its certificates on record. A command needs none of
/// them.
fn shows_con(ask: &Ask) -> bool
    ensures { result ≡ shows_con ask.now }
{
    match ask {
        Ask::ShowCon { .. } => true,
        _ => false,
    }
}

/// Answers a request on a constituency of which this was seen, and carries out what was decided.
/// Where nothing changes, what was seen is shown.
fn answer_seen<S: Alter>(
    alloc: Global,
    tx: &mut Transaction<'_, S>,
    setup: &Setup,
    con: &Constituency,
    view: ConView,
    ask: &Ask,
) -> Result<Result<Reply, Refusal>, Error>
    requires limits { IsSetup setup.now }
    requires found { constituency_with con.now.code setup.now ≡ Some con.now }
    requires named { con_named ask.now ≡ Some con.now.code }
    requires fits { FitsView con.now view }
    ensures stays { StaysInside S.Store tx.old tx.new }
    ensures answers { AnswersSo S.Store setup.now ask.now
        (CarriesOutSeen setup.now con.now view ask.now) tx.old tx.new result }
{
    let change = match decide_con(alloc, con, &view, ask) {
        Ok(change) => change,
        Err(refusal) => return Ok(Err(refusal)),
    };
    match change {
        Change::Same => Ok(Ok(Reply::Con(view))),
        change => Ok(Ok(carry_out(tx, setup, con, &view, ask, change)?)),
    }
}

/// How far each constituency has come, in the setup's order. The rows of `cons` are read at once,
/// and no station of a constituency of which it is known how many returns are in each status.
pub(crate) fn show_progress<S: Alter>(
    alloc: Global,
    tx: &mut Transaction<'_, S>,
    setup: &Setup,
    known: &mut BTreeMap<Code, Statuses>,
) -> Result<Result<Reply, Refusal>, Error>
    ensures stays { StaysInside S.Store tx.old tx.new }
    ensures answers { AnswersIn S.Store setup.now ShowProgress
        known.old known.new tx.old tx.new result }
{
    let cons = setup.cons();
    let standing = rows_of_cons(tx)?;
    let mut rows = Vec::new(alloc);
    for con in cons {
        let row = find_progress_row(tx, &standing, con, known_at(known, con.code))?;
        remember(known, con.code, statuses_of_row(&row))?;
        rows.push(row)?;
    }
    Ok(Ok(Reply::Progress(rows)))
}
