//! Names of tables.

/// The tables whose rows begin with a key: the code of a station in `Returns` and `Counts`, and of
/// a constituency in the others.
#[derive(Clone, Copy)]
pub enum KeyedTable {
    Returns,
    Counts,
    Cons,
    Lots,
    Seats,
    Gone,
    Totals,
    Past,
}
