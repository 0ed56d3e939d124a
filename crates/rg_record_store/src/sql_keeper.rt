// A keeper over a database.
ghost use Rattle.std.specs.Prelude.{◌≡◌, ◌≤◌, ◌<◌, ◌-◌, ◌^◌, min, IfOk};
ghost use Rattle.rg_record_store.specs.Database.{SqlState};

use crate::keeper::{Keeper, KeeperFault};
use rg_base::{Seq, Tally};
use sqlite::{Alter, Connection, Error, ErrorCode, params};
use std::alloc::Global;
use std::marker::Model;

const TABLE: &str =
    "CREATE TABLE IF NOT EXISTS kept (place INTEGER PRIMARY KEY, record BLOB NOT NULL)";

const INSERT: &str = "INSERT INTO kept (record) VALUES (?1)";

const SELECT: &str = "SELECT record FROM kept WHERE place = ?1";

/// Records in the table `kept` of a database: a `place`, counted from 1, and a `record`. How far an append that was answered
/// has gone to the disk is as the connection was opened. It tells no records: that the database keeps them is trusted.
#[derive(Drop)]
pub struct SqlKeeper<S: Alter + Drop> {
    connection: Connection<S>,
    failures: u64,
    faults: Tally,
}

impl<S: Alter + Drop> Model for SqlKeeper<S> {
    ghost use Rattle.std.specs.Prelude.{◌≡◌, ◌-◌, ◌^◌, min};
    ghost use Rattle.rg_record_store.specs.Database.{SqlState};

    ghost Value = { SqlState };

    ghost view = { λ k. record { faults = k.faults.count } };

    ghost invariant = { λ k. k.failures ≡ min k.faults.count (2 ^ 64 - 1) };
}

/// The record of this row, None where there is no such row.
fn select<S: Alter>(connection: &mut Connection<S>, row_id: i64) -> Result<Option<Seq<u8>>, Error> {
    match connection.query_row(SELECT, params![row_id]) {
        Ok(row) => {
            let bytes: Vec<u8> = row.get(0)?;
            Ok(Some(Seq::from_vec(bytes)))
        }
        Err(Error::QueryReturnedNoRows) => Ok(None),
        Err(error) => Err(error),
    }
}

/// The row of the place. A place past those that a row can have has none.
fn row_of(place: u64) -> Option<i64> {
    i64::try_from(place).ok()?.checked_add(1)
}

impl<S: Alter + Drop> SqlKeeper<S> {
    /// Keeps records in the database of this connection, and makes the table where there is none. The connection comes back
    /// where it refuses that.
    pub fn new(connection: Connection<S>) -> Result<SqlKeeper<S>, (Error, Connection<S>)>
        ensures { IfOk result (λ keeper. keeper ≡ record { faults = 0 }) }
    {
        let mut connection = connection;
        match connection.execute(TABLE, &[]) {
            Ok(_) => Ok(SqlKeeper {
                connection,
                failures: 0,
                faults: Tally::zero(),
            }),
            Err(error) => Err((error, connection)),
        }
    }

    /// The connection, which its owner may close.
    pub fn into_connection(self) -> Connection<S> {
        let SqlKeeper {
            connection,
            failures: _,
            faults: _,
        } = self;
        connection
    }

    /// How many calls failed; from the last `u64` on the number stands still.
    pub fn failures(&self) -> u64
        ensures { result ≡ min self.now.faults (2 ^ 64 - 1) }
    {
        self.failures
    }

    /// The fault of an error, which is counted unless it is want of memory.
    fn refuse(&mut self, error: Error) -> KeeperFault
        ensures counted { self.old.faults ≤ self.new.faults }
        ensures failed { result ≡ KeeperFault.Failed → self.old.faults < self.new.faults }
    {
        match error {
            Error::SqliteFailure(ErrorCode::OutOfMemory) => KeeperFault::NoMemory,
            _ => {
                self.failures = self.failures.saturating_add(1);
                self.faults.add();
                KeeperFault::Failed
            }
        }
    }
}

impl<S: Alter + Drop> Keeper for SqlKeeper<S> {
    ghost use Rattle.std.specs.Prelude.{None};
    ghost use Rattle.rg_record_store.specs.Database.{untold};

    ghost kept = { λ k. None };

    ghost moment = { λ k. 0 };

    ghost left_since = { λ k t left. ⊥ };

    ghost faults = { λ k. k.faults };

    ghost counts_now = { λ k t records le told. untold records told };

    ghost only_now = { λ k records left told had. absurd had };

    fn append(&mut self, _alloc: Global, entry: &[u8]) -> Result<(), KeeperFault> {
        match self.connection.execute(INSERT, params![entry]) {
            Ok(_) => Ok(()),
            Err(error) => Err(self.refuse(error)),
        }
    }

    fn fetch(&mut self, _alloc: Global, place: u64) -> Result<Option<Seq<u8>>, KeeperFault> {
        let Some(row_id) = row_of(place) else {
            return Ok(None);
        };
        match select(&mut self.connection, row_id) {
            Ok(found) => Ok(found),
            Err(error) => Err(self.refuse(error)),
        }
    }
}
