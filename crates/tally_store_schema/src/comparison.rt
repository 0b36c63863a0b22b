//! Whether a schema is that of an office. Such a schema is learned by making an office in memory,
//! so no column, key or CHECK is written twice.

ghost use Rattle.std.specs.Prelude.{◌≡◌, IsTrue, IfOk};
ghost use Rattle.sqlite.specs.Held.{state};
ghost use Rattle.sqlite.specs.Steps.{over_memory, IsEmpty};
ghost use Rattle.tally_store_schema.specs.Tables.{office_schema, former_schema};

use crate::making::{create_former_tables, create_tables};
use crate::same_schema::is_same_schema;
use sqlite::{Connection, Error, ErrorCode, MemStore};
use sqlite_schema::schema::Schema;
use std::alloc::Global;

fn empty_database(alloc: Global) -> Result<Connection<MemStore>, Error>
    ensures { IfOk result (λ conn. IsEmpty (state over_memory conn)) }
{
    match Connection::open_in_memory(alloc) {
        Ok(conn) => Ok(conn),
        Err(_) => Err(Error::SqliteFailure(ErrorCode::OutOfMemory)),
    }
}

fn office_in_memory(alloc: Global) -> Result<Connection<MemStore>, Error>
    ensures { IfOk result (λ conn. (state over_memory conn).now.schema ≡ office_schema) }
{
    let mut conn = empty_database(alloc)?;
    let mut tx = conn.transaction();
    create_tables(&mut tx)?;
    tx.commit()?;
    Ok(conn)
}

fn former_office_in_memory(alloc: Global) -> Result<Connection<MemStore>, Error>
    ensures { IfOk result (λ conn. (state over_memory conn).now.schema ≡ former_schema) }
{
    let mut conn = empty_database(alloc)?;
    let mut tx = conn.transaction();
    create_former_tables(&mut tx)?;
    tx.commit()?;
    Ok(conn)
}

/// Whether the schema is that of an office of version 2: its nine tables and nothing else. `false`
/// says nothing.
pub fn is_office_schema(alloc: Global, schema: &Schema) -> Result<bool, Error>
    ensures same { IfOk result (λ same. IsTrue same → schema.now ≡ office_schema) }
{
    let office = office_in_memory(alloc)?;
    Ok(is_same_schema(schema, office.schema()))
}

/// Whether the schema is that of an office of version 1: the eight tables without `past`, and
/// nothing else. `false` says nothing.
pub fn is_former_schema(alloc: Global, schema: &Schema) -> Result<bool, Error>
    ensures same { IfOk result (λ same. IsTrue same → schema.now ≡ former_schema) }
{
    let office = former_office_in_memory(alloc)?;
    Ok(is_same_schema(schema, office.schema()))
}
