// The keeper over a database in a file.
ghost use Rattle.std.specs.Prelude.{◌≡◌, IfErr};

use rg_base::Seq;
use rg_metrics::Metrics;
use rg_record_store::{Keeper, KeeperFault, SqlKeeper};
use rg_run_script::Status;
use sqlite::{Connection, File, FileStore};
use std::alloc::Global;
use std::cmp;
use std::sync::Arc;

/// A `SqlKeeper` over a file, as a type of its own: what is generic under a keeper is proved at it without the database's layers. It
/// tells how many commands are kept, as far as they were fetched or appended.
#[derive(Drop)]
pub(crate) struct FileKeeper {
    keeper: SqlKeeper<FileStore<File>>,
    kept: u64,
    metrics: Arc<Metrics>,
}

impl FileKeeper {
    /// The keeper of the file, which is made where there is none.
    pub(crate) fn open(
        rt: &HostRuntime,
        path: &str,
        metrics: Arc<Metrics>,
    ) -> Result<FileKeeper, Status>
        ensures { IfErr result (λ status. status ≡ Status.KeepFault) }
    {
        let Ok(connection) = Connection::open(rt, path) else {
            return Err(Status::KeepFault);
        };
        match SqlKeeper::new(connection) {
            Ok(keeper) => Ok(FileKeeper {
                keeper,
                kept: 0,
                metrics,
            }),
            Err((_error, connection)) => {
                drop(connection);
                Err(Status::KeepFault)
            }
        }
    }

    /// So many are kept at least.
    fn count(&mut self, kept: u64)
        ensures { self.new.keeper ≡ self.old.keeper }
    {
        self.kept = cmp::max(self.kept, kept);
        self.metrics.set_kept(self.kept);
    }
}

impl Keeper for FileKeeper {
    ghost use Rattle.std.specs.Prelude.{None};
    ghost use Rattle.rg_record_store.specs.Database.{untold};

    ghost kept = { λ k. None };

    ghost moment = { λ k. 0 };

    ghost left_since = { λ k t left. ⊥ };

    ghost faults = { λ k. k.keeper.faults };

    ghost counts_now = { λ k t records le told. untold records told };

    ghost only_now = { λ k records left told had. absurd had };

    fn append(&mut self, alloc: Global, entry: &[u8]) -> Result<(), KeeperFault> {
        self.keeper.append(alloc, entry)?;
        let kept = self.kept.saturating_add(1);
        self.count(kept);
        Ok(())
    }

    fn fetch(&mut self, alloc: Global, place: u64) -> Result<Option<Seq<u8>>, KeeperFault> {
        match self.keeper.fetch(alloc, place) {
            Ok(Some(record)) => {
                self.count(place.saturating_add(1));
                Ok(Some(record))
            }
            Ok(None) => Ok(None),
            Err(fault) => Err(fault),
        }
    }
}
