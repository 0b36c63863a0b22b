//! Constituencies that were read from whole tables.

ghost use Rattle.std.specs.Prelude.{◌≡◌, IfOk, option_map};
ghost use Rattle.tally_keeper.specs.Kept.{view_in};
ghost use Rattle.tally_store_rows.specs.Views.{view_with_code, tables_in, views_from};
ghost use Rattle.tally_store_open.specs.internal.Found.{con_counted};

use sqlite::Row;
use std::alloc::{AllocError, Global};
use std::marker::Model;
use tally_keeper::Ledger;
use tally_returns::ConView;
use tally_setup::{Code, Constituency};
use tally_store_rows::{ConTables, statuses_of, view_from_tables};
use tally_store_schema::text_at;

/// A constituency that was read: its code, and what is seen of it.
#[derive(Drop)]
pub struct ConFound {
    pub con: Code,
    pub view: ConView,
}

impl Model for ConFound {
    ghost use Rattle.std.specs.Prelude.{ℕ, List};
    ghost use Rattle.tally_returns.specs.View.{View};

    ghost Value = { List ℕ × View };

    ghost view = { λ f. (f.con, f.view) };
}

/// The constituency that a row of `cons` names, and what is seen of it by its returns.
fn con_at<'a>(ledger: &'a Ledger, row: &Row) -> Option<(&'a Constituency, &'a ConView)>
    ensures { option_map (λ found. (found.0.now, found.1.now)) result ≡
        con_counted ledger.now.setup (view_in ledger.now) row.now }
{
    let code = Code::new(text_at(row, 0)?)?;
    let con = ledger.setup().con(code)?;
    let counted = ledger.view(code)?;
    Some((con, counted))
}

/// A constituency, by its row of `cons` and its rows of the other tables.
fn found_at(
    alloc: Global,
    con: &Constituency,
    counted: &ConView,
    row: &Row,
    tables: ConTables<'_>,
) -> Result<Option<ConFound>, AllocError>
    ensures { IfOk result (λ found.
        found ≡ view_with_code counted.now row.now (tables_in tables.entry) con.now) }
{
    let found = view_from_tables(alloc, con, statuses_of(counted), row, tables)?;
    Ok(found.map(|view| ConFound {
        con: con.code,
        view,
    }))
}

/// The constituencies whose rows the tables hold, one after the other, if they hold such rows.
/// The numbers of returns in each status are those of the returns in the ledger.
pub fn views_from(
    alloc: Global,
    ledger: &Ledger,
    rows: &[Row],
    tables: ConTables<'_>,
) -> Result<Option<Vec<ConFound>>, AllocError>
    ensures { IfOk result (λ found. option_map (λ v. v.items) found ≡
        views_from ledger.now.setup (view_in ledger.now) rows.now (tables_in tables.entry)) }
{
    let mut all = Vec::new(alloc);
    let mut left = tables;
    for row in rows {
        let Some((con, counted)) = con_at(ledger, row) else {
            return Ok(None);
        };
        let (mine, others) = left.split(con.code.as_bytes());
        match found_at(alloc, con, counted, row, mine)? {
            Some(found) => all.push(found)?,
            None => return Ok(None),
        }
        left = others;
    }
    if left.is_empty() {
        Ok(Some(all))
    } else {
        Ok(None)
    }
}
