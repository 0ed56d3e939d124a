// What is seen of a service that keeps, while it works.
use rg_audit_file::Drops;
use rg_metrics::{Epoch, Inside, Newest, Watched};
use rg_publish::Pass;
use std::sync::{Arc, Mutex, Wait};

/// What is watched by.
#[derive(Drop)]
struct Watching {
    /// None before the configuration and the first record are known.
    epoch: Option<Epoch>,
    /// One that decides for nobody; None before the service begins, or where it has none to give.
    pass: Option<Pass>,
    has_begun: bool,
}

/// What a service hands to those who watch it, under a lock that nobody holds for long.
#[derive(Drop)]
pub struct Watch {
    watching: Mutex<Watching>,
}

/// The numbers of the newest publication that it finds.
fn newest_of(pass: &mut Pass) -> Newest {
    let _entered = pass.enter();
    let engine = pass.engine();
    Newest {
        serial: pass.serial(),
        policy_version: engine.policy_version(),
        role_version: engine.role_version(),
        tag_version: engine.tag_version(),
    }
}

impl Watching {
    fn epoch(&self) -> Option<u64> {
        let epoch = self.epoch?;
        Some(epoch.number())
    }

    fn newest(&mut self) -> Option<Newest> {
        match &mut self.pass {
            Some(pass) => Some(newest_of(pass)),
            None => None,
        }
    }
}

impl Watch {
    /// Nothing is known yet.
    pub fn new() -> Watch {
        Watch {
            watching: Mutex::new(Watching {
                epoch: None,
                pass: None,
                has_begun: false,
            }),
        }
    }

    /// This is its epoch, which isn't told before it begins.
    pub(crate) fn know<R: Wait>(&self, rt: &R, epoch: Epoch) {
        let mut watching = self.watching.lock(rt);
        watching.epoch = Some(epoch);
    }

    /// It begins, and is watched by this pass, if it has one to give.
    pub(crate) fn begin<R: Wait>(&self, rt: &R, pass: Option<Pass>) {
        let mut watching = self.watching.lock(rt);
        watching.pass = pass;
        watching.has_begun = true;
    }

    /// Its epoch and its newest publication; None before it begins, and while the lock is held, which is so at its beginning alone.
    fn look(&self) -> (Option<u64>, Option<Newest>) {
        let Some(mut watching) = self.watching.try_lock() else {
            return (None, None);
        };
        if !watching.has_begun {
            return (None, None);
        }
        let newest = watching.newest();
        (watching.epoch(), newest)
    }
}

/// What the pages see of a service.
#[derive(Drop)]
pub(crate) struct Seen {
    pub drops: Arc<Drops>,
    pub watch: Arc<Watch>,
}

impl Watched for Seen {
    fn look(&self) -> Inside {
        let (epoch, newest) = self.watch.look();
        Inside {
            dropped_sinks: self.drops.count(),
            epoch,
            newest,
        }
    }
}
