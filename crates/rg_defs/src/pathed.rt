// A definition with its paths.
use crate::path_questions::Paths;
use crate::service_def::ServiceDef;
use std::marker::Model;

/// A definition and the paths of its levels, which are worked out once for all that is asked of them. Contracts see the
/// definition.
#[derive(Drop)]
pub struct PathedDef<'a> {
    pub def: &'a ServiceDef,
    pub paths: &'a Paths,
}

impl<'a> Model for PathedDef<'a> {
    ghost use Rattle.std.specs.Prelude.{◌≡◌};
    ghost use Rattle.rg_defs.specs.declared.service_def.ServiceDef.{ServiceDef as Defined};

    ghost Value = { Defined };

    ghost view = { λ d. d.def.now };

    ghost invariant = { λ d. d.paths.now ≡ d.def.now.levels.items };
}
