//! Which names of tables a database has.

ghost use Rattle.std.specs.Prelude.{◌≡◌, codes};
ghost use Rattle.std.specs.List.{list_any};
ghost use Rattle.tally_store_schema.specs.Made.{is_table_aside, has_table, has_name};
ghost use Rattle.tally_store_schema.specs.Made.{has_former_tables};
ghost use Rattle.tally_store_schema.specs.Made.{takes_office_name};

use sqlite_schema::names::same_name;
use sqlite_schema::schema::{Schema, View};

fn is_table_aside(view: &View, name: &[u8]) -> bool
    ensures { result ≡ is_table_aside name.now view.now }
{
    match &view.foreign {
        Some(owner) => {
            same_name(name, owner.as_slice()) && same_name(view.name.as_slice(), name)
        }
        None => false,
    }
}

fn has_table_aside(views: &[View], name: &[u8]) -> bool
    ensures { result ≡ list_any (is_table_aside name.now) views.now }
{
    views.iter().any(|view| is_table_aside(view, name))
}

fn has_table(schema: &Schema, name: &[u8]) -> bool
    ensures { result ≡ has_table schema.now name.now }
{
    schema.table_named(name).is_some() || has_table_aside(schema.views.as_slice(), name)
}

fn has_name(schema: &Schema, name: &[u8]) -> bool
    ensures { result ≡ has_name schema.now name.now }
{
    has_table(schema, name)
        || schema.index_named(name).is_some()
        || schema.view_named(name).is_some()
}

/// Whether there is a table of each name of version 1, whatever its columns are.
pub fn has_former_tables(schema: &Schema) -> bool
    ensures { result ≡ has_former_tables schema.now }
{
    has_table(schema, b"setup")
        && has_table(schema, b"returns")
        && has_table(schema, b"counts")
        && has_table(schema, b"cons")
        && has_table(schema, b"lots")
        && has_table(schema, b"seats")
        && has_table(schema, b"gone")
        && has_table(schema, b"totals")
}

/// Whether there is a table `past`, whatever its columns are.
pub fn has_past(schema: &Schema) -> bool
    ensures { result ≡ has_table schema.now (codes "past") }
{
    has_table(schema, b"past")
}

/// Whether a table, an index, a view or a trigger has the name of a table of the office.
pub fn takes_office_name(schema: &Schema) -> bool
    ensures { result ≡ takes_office_name schema.now }
{
    has_name(schema, b"past")
        || has_name(schema, b"setup")
        || has_name(schema, b"returns")
        || has_name(schema, b"counts")
        || has_name(schema, b"cons")
        || has_name(schema, b"lots")
        || has_name(schema, b"seats")
        || has_name(schema, b"gone")
        || has_name(schema, b"totals")
}
