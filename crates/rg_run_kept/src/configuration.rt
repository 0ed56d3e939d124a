// The script of a service that keeps: one configuration.
ghost use Rattle.std.specs.Prelude.{◌≡◌, [], Err, None, OnOk};
ghost use Rattle.rg_run_script.specs.Follow.{IsWorked};
ghost use Rattle.rg_run_kept.specs.Configuring.{config_taken};

use rg_admin::{Admin, StartFault};
use rg_base::{Moment, TryCopy};
use rg_cmd::{Ask, Config};
use rg_metrics::Epoch;
use rg_run_script::Worker;
use rg_script::{Line, LineFault, read_line};
use std::alloc::Global;
use std::marker::Model;

/// What the script told so far. Contracts see its configuration, None before it.
#[derive(Drop)]
pub(crate) struct Configuration {
    pub config: Option<Config>,
    /// That of the last line that told one, before any record.
    pub epoch: Epoch,
    /// How many lines were read.
    pub lines: u64,
}

impl Model for Configuration {
    ghost use Rattle.std.specs.Prelude.{Option};
    ghost use Rattle.rg_cmd.specs.declared.config.Config.{Config};
    ghost use Rattle.rg_run_kept.specs.Configuring.{IsLawful};

    ghost Value = { Option Config };

    ghost view = { λ c. c.config };

    ghost invariant = { λ c. IsLawful c.config };
}

/// A command is asked over links alone: one that stood in the script would be asked anew at each start.
fn refuse(_ask: Ask) -> LineFault
    ensures { result ≡ LineFault.Bad }
{
    LineFault::Bad
}

impl Configuration {
    /// Nothing was told.
    pub fn new() -> Configuration
        ensures { result ≡ None }
    {
        Configuration {
            config: None,
            epoch: Epoch::of_line(&[]),
            lines: 0,
        }
    }

    /// Takes the configuration, where it is the first and breaks no rule.
    #[tactic(auto, unfolding(crate::specs::Configuring::config_taken))]
    fn take(&mut self, alloc: Global, config: Config) -> Result<(), LineFault>
        ensures worked { OnOk result (IsWorked (config_taken self.old config) self.new [] []) }
        ensures bad { result ≡ Err LineFault.Bad
            → (config_taken self.old config ≡ None) × (self.new ≡ self.old) }
    {
        if self.config.is_some() {
            return Err(LineFault::Bad);
        }
        let Ok(copy) = config.try_copy(alloc) else {
            return Err(LineFault::NoMemory);
        };
        match Admin::start(alloc, copy) {
            Ok(admin) => {
                drop(admin);
                self.config = Some(config);
                Ok(())
            }
            Err(StartFault::Rule(_)) => Err(LineFault::Bad),
            Err(StartFault::NoMemory) => Err(LineFault::NoMemory),
        }
    }
}

impl Worker for Configuration {
    ghost use Rattle.rg_run_kept.specs.Configuring.{config_step};

    ghost step = { config_step };

    fn work(
        &mut self,
        alloc: Global,
        line: &[u8],
        now: Moment,
        _text: &mut String,
    ) -> Result<(), LineFault> {
        self.lines = self.lines.saturating_add(1);
        match read_line(alloc, line, now) {
            Ok(Line::Blank) => Ok(()),
            Ok(Line::Config(config)) => {
                self.epoch = Epoch::of_line(line);
                self.take(alloc, config)
            }
            Ok(Line::Admin(ask)) => Err(refuse(ask)),
            Ok(Line::Facts(_)) => Err(LineFault::Bad),
            Ok(Line::Refresh) => Err(LineFault::Bad),
            Ok(Line::Decide(_)) => Err(LineFault::Bad),
            Err(fault) => Err(fault),
        }
    }
}
