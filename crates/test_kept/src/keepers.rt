// Keepers over a database.
use rg_base::Seq;
use rg_record_store::{FailingCall, MemKeeper, SqlKeeper};
use sqlite::{Alter, Connection, Error, MemStore};
use std::alloc::{AllocError, Global};
use test_tables::add_record;

pub(crate) fn copies(alloc: Global, records: &[Seq<u8>]) -> Result<Vec<Seq<u8>>, AllocError> {
    let mut held = Vec::new(alloc);
    for record in records {
        add_record(&mut held, alloc, record.as_slice())?;
    }
    Ok(held)
}

/// A keeper of these records, of whose calls this one fails.
pub(crate) fn failing_over(
    alloc: Global,
    records: Vec<Seq<u8>>,
    call: FailingCall,
) -> Result<MemKeeper, AllocError> {
    let mut fails = Vec::new(alloc);
    fails.push(call)?;
    Ok(MemKeeper::new(Seq::from_vec(records), Seq::from_vec(fails)))
}

/// A keeper over the database of this connection, which is let go where it takes no table.
pub(crate) fn keeper_over<S: Alter + Drop>(
    connection: Connection<S>,
) -> Result<SqlKeeper<S>, Error> {
    match SqlKeeper::new(connection) {
        Ok(keeper) => Ok(keeper),
        Err((error, connection)) => {
            drop(connection);
            Err(error)
        }
    }
}

/// A keeper over a database in memory.
pub(crate) fn database_in_memory(alloc: Global) -> Result<SqlKeeper<MemStore>, Error> {
    keeper_over(Connection::open_in_memory(alloc)?)
}
