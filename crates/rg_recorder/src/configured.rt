// Under which configuration a list is kept.
use std::marker::Brand;

/// Names a configuration. What a recorder has lies in a machine that contracts see as its administration alone, so the recorder's
/// type has the name.
pub trait Configured {
    ghost use Rattle.rg_cmd.specs.declared.config.Config.{Config};

    ghost config: { Config };
}

impl Configured for Brand {
    ghost use Rattle.rg_recorder.specs.Recorded.{no_config};

    ghost config = { no_config };
}
