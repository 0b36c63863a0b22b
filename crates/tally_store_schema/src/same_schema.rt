//! Whether two schemas are the same, part by part. `false` says nothing: a literal that is a real
//! number, a foreign key, a default that is computed and a view never count as the same.

ghost use Rattle.std.specs.Prelude.{◌≡◌, IsTrue};

use sqlite_items::Items;
use sqlite_schema::code::{Op, Terms};
use sqlite_schema::schema::{Column, Index, Schema, Table};
use sqlite_value::keys::Order;
use sqlite_value::value::Value;

fn is_same_value(a: &Value, b: &Value) -> bool
    ensures { IsTrue result → a.now ≡ b.now }
{
    match (a, b) {
        (Value::Null, Value::Null) => true,
        (Value::Int(x), Value::Int(y)) => *x == *y,
        (Value::Text(x), Value::Text(y)) => x.as_slice() == y.as_slice(),
        (Value::Blob(x), Value::Blob(y)) => x.as_slice() == y.as_slice(),
        _ => false,
    }
}

// The one is matched inside the other, since a match of the pair takes the prover longer.
fn is_same_op(a: &Op, b: &Op) -> bool
    ensures { IsTrue result → a.now ≡ b.now }
{
    match a {
        Op::Literal(x) => match b {
            Op::Literal(y) => is_same_value(x, y),
            _ => false,
        },
        Op::Column(s, x) => match b {
            Op::Column(t, y) => *s == *t && *x == *y,
            _ => false,
        },
        Op::Unary(s, x) => match b {
            Op::Unary(t, y) => *s == *t && *x == *y,
            _ => false,
        },
        Op::Binary(s, x, v) => match b {
            Op::Binary(t, y, w) => *s == *t && *x == *y && *v == *w,
            _ => false,
        },
        Op::Case(s, x, v) => match b {
            Op::Case(t, y, w) => *s == *t && *x == *y && *v == *w,
            _ => false,
        },
    }
}

fn are_same_ops(a: &[Op], b: &[Op]) -> bool
    ensures { IsTrue result → a.now ≡ b.now }
{
    if a.len() != b.len() {
        return false;
    }
    for i in 0..a.len() {
        if !is_same_op(&a[i], &b[i]) {
            return false;
        }
    }
    true
}

fn are_same_terms(a: &Terms, b: &Terms) -> bool
    ensures { IsTrue result → a.now ≡ b.now }
{
    are_same_ops(a.nodes.as_slice(), b.nodes.as_slice()) && a.roots.as_slice() == b.roots.as_slice()
}

fn is_same_key(a: &Items<usize>, b: &Items<usize>) -> bool
    ensures { IsTrue result → a.now ≡ b.now }
{
    a.as_slice() == b.as_slice()
}

fn are_same_keys(a: &[Items<usize>], b: &[Items<usize>]) -> bool
    ensures { IsTrue result → a.now ≡ b.now }
{
    if a.len() != b.len() {
        return false;
    }
    for i in 0..a.len() {
        if !is_same_key(&a[i], &b[i]) {
            return false;
        }
    }
    true
}

fn are_same_orders(a: &[Order], b: &[Order]) -> bool
    ensures { IsTrue result → a.now ≡ b.now }
{
    if a.len() != b.len() {
        return false;
    }
    for i in 0..a.len() {
        if a[i].digits != b[i].digits {
            return false;
        }
    }
    true
}

fn is_same_column(a: &Column, b: &Column) -> bool
    ensures { IsTrue result → a.now ≡ b.now }
{
    a.name.as_slice() == b.name.as_slice()
        && a.kind == b.kind
        && a.is_strict == b.is_strict
        && a.not_null == b.not_null
        && is_same_value(&a.default, &b.default)
        && a.collation == b.collation
}

fn are_same_columns(a: &[Column], b: &[Column]) -> bool
    ensures { IsTrue result → a.now ≡ b.now }
{
    if a.len() != b.len() {
        return false;
    }
    for i in 0..a.len() {
        if !is_same_column(&a[i], &b[i]) {
            return false;
        }
    }
    true
}

/// Whether neither table has a foreign key or a default that is computed.
fn are_without_references(a: &Table, b: &Table) -> bool
    ensures references { IsTrue result → a.now.references ≡ b.now.references }
    ensures computed { IsTrue result → a.now.computed ≡ b.now.computed }
    ensures stamps { IsTrue result → a.now.stamps ≡ b.now.stamps }
{
    a.references.is_empty()
        && b.references.is_empty()
        && a.computed.is_empty()
        && b.computed.is_empty()
        && a.stamps.places.is_empty()
        && b.stamps.places.is_empty()
        && a.stamps.formats.is_empty()
        && b.stamps.formats.is_empty()
        && are_same_terms(&a.stamps.terms, &b.stamps.terms)
}

fn is_same_table(a: &Table, b: &Table) -> bool
    ensures { IsTrue result → a.now ≡ b.now }
{
    a.name.as_slice() == b.name.as_slice()
        && a.tree == b.tree
        && are_same_columns(a.columns.as_slice(), b.columns.as_slice())
        && a.key == b.key
        && a.primary.as_slice() == b.primary.as_slice()
        && are_same_keys(a.uniques.as_slice(), b.uniques.as_slice())
        && are_same_orders(a.orders.as_slice(), b.orders.as_slice())
        && are_same_terms(&a.checks, &b.checks)
        && are_without_references(a, b)
        && a.is_counted == b.is_counted
}

fn are_same_tables(a: &[Table], b: &[Table]) -> bool
    ensures { IsTrue result → a.now ≡ b.now }
{
    if a.len() != b.len() {
        return false;
    }
    for i in 0..a.len() {
        if !is_same_table(&a[i], &b[i]) {
            return false;
        }
    }
    true
}

fn is_same_index(a: &Index, b: &Index) -> bool
    ensures { IsTrue result → a.now ≡ b.now }
{
    a.name.as_slice() == b.name.as_slice()
        && a.tree == b.tree
        && a.table == b.table
        && a.columns.as_slice() == b.columns.as_slice()
        && a.order.digits == b.order.digits
        && a.is_unique == b.is_unique
}

fn are_same_indexes(a: &[Index], b: &[Index]) -> bool
    ensures { IsTrue result → a.now ≡ b.now }
{
    if a.len() != b.len() {
        return false;
    }
    for i in 0..a.len() {
        if !is_same_index(&a[i], &b[i]) {
            return false;
        }
    }
    true
}

/// Whether both schemas have the same tables and indexes, in the same order and in the same places.
/// `false` says nothing, and is the answer where either has a view, a foreign key, a computed
/// default or a real number in a CHECK.
pub fn is_same_schema(a: &Schema, b: &Schema) -> bool
    ensures { IsTrue result → a.now ≡ b.now }
{
    are_same_tables(a.tables.as_slice(), b.tables.as_slice())
        && are_same_indexes(a.indexes.as_slice(), b.indexes.as_slice())
        && a.views.is_empty()
        && b.views.is_empty()
}
