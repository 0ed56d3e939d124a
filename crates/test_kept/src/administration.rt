// Administrations over keepers.
use anyhow::{Result, anyhow};
use rg_ask_wire::read_ask;
use rg_cmd::Config;
use rg_cmd_wire::read_config;
use rg_keep::{KeptAdmin, ReopenFault};
use rg_record_store::{Keeper, KeeperFault};
use std::alloc::Global;

/// The configuration of this text.
pub(crate) fn config_of(alloc: Global, text: &str) -> Result<Config> {
    match read_config(alloc, text.as_bytes()) {
        Ok(config) => Ok(config),
        Err(_) => Err(anyhow!("the configuration isn't read")),
    }
}

/// The administration that the keeper's list makes under the configuration of this text, or why there is none.
pub(crate) fn reopened<P: Keeper + Drop>(
    alloc: Global,
    config: &str,
    keeper: P,
) -> Result<Result<KeptAdmin<P>, ReopenFault<P>>> {
    match config_of(alloc, config) {
        Ok(config) => Ok(KeptAdmin::reopen(alloc, config, keeper)),
        Err(error) => {
            drop(keeper);
            Err(error)
        }
    }
}

/// An ask that wasn't answered.
#[derive(Drop)]
pub(crate) struct Unanswered<P: Drop> {
    pub(crate) keeper: P,
    /// None where the text is no ask.
    pub(crate) cause: Option<KeeperFault>,
}

/// Has the ask of this text answered.
pub(crate) fn answered<P: Keeper + Drop>(
    alloc: Global,
    admin: KeptAdmin<P>,
    text: &str,
) -> Result<KeptAdmin<P>, Unanswered<P>> {
    let Ok(ask) = read_ask(alloc, text.as_bytes()) else {
        return Err(Unanswered {
            keeper: admin.into_keeper(),
            cause: None,
        });
    };
    match admin.step(alloc, ask) {
        Ok((next, reply)) => {
            drop(reply);
            Ok(next)
        }
        Err(stopped) => Err(Unanswered {
            keeper: stopped.keeper,
            cause: Some(stopped.cause),
        }),
    }
}
