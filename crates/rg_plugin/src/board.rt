// How the plugin stands, as its threads share it.
use crate::plugin::Plugin;
use rg_base::{Moment, Serial, Version};
use rg_cache::Cache;
use rg_health::{Cause, Health};
use rg_plugin_link::Standing;
use std::sync::{Mutex, Wait};

// What is decided by, and how the rounds went.
#[derive(Clone, Copy)]
struct Stand {
    serial: Serial,
    policy_version: Version,
    tag_version: Version,
    role_version: Version,
    settled: Option<Moment>,
    fault: Option<Cause>,
}

/// How the plugin stands, under a lock.
#[derive(Drop)]
pub struct Board {
    stand: Mutex<Stand>,
}

impl Board {
    /// A plugin whose facts were downloaded at this moment; None where they were kept from before the start.
    pub fn new<K: Cache + Drop, Q: Wait + Drop>(
        plugin: &Plugin<K, Q>,
        settled: Option<Moment>,
    ) -> Board {
        Board {
            stand: Mutex::new(stand_of(plugin, settled, None)),
        }
    }

    /// How a round ended at this moment.
    pub fn tell<K: Cache + Drop, Q: Wait + Drop, R: Wait>(
        &self,
        rt: &R,
        plugin: &Plugin<K, Q>,
        fault: Option<Cause>,
        now: Moment,
    ) {
        let mut stand = self.stand.lock(rt);
        let settled = match fault {
            None => Some(now),
            Some(_) => stand.settled,
        };
        *stand = stand_of(plugin, settled, fault);
    }
}

fn stand_of<K: Cache + Drop, Q: Wait + Drop>(
    plugin: &Plugin<K, Q>,
    settled: Option<Moment>,
    fault: Option<Cause>,
) -> Stand {
    let engine = plugin.newest();
    Stand {
        serial: plugin.serial(),
        policy_version: engine.policy_version(),
        tag_version: engine.tag_version(),
        role_version: engine.role_version(),
        settled,
        fault,
    }
}

// The seconds from one moment to another; 0 where the clock went back.
fn seconds_since(then: Moment, now: Moment) -> u64 {
    u64::try_from(now.0.saturating_sub(then.0)).unwrap_or(0)
}

/// The board as one of the threads reads it.
#[derive(Clone, Copy)]
pub struct BoardReader<'b, 'r, R> {
    pub board: &'b Board,
    pub rt: &'r R,
}

impl<'b, 'r, R: Wait + Sync> Standing for BoardReader<'b, 'r, R> {
    fn health(&self, now: Moment) -> Health {
        let stand = self.board.stand.lock(self.rt);
        Health {
            serial: stand.serial,
            policy_version: stand.policy_version,
            tag_version: stand.tag_version,
            role_version: stand.role_version,
            settled: match stand.settled {
                None => None,
                Some(then) => Some(seconds_since(then, now)),
            },
            fault: stand.fault,
        }
    }
}
