// What the policies of a service are read under, and what they give.
ghost use Rattle.std.specs.Prelude.{◌≡◌};
ghost use Rattle.rg_evalr.specs.Frames.{def_of};

use rg_cond::TimeZones;
use rg_defs::ServiceDef;

/// The definitions and the time zones of a service.
pub struct Frame {
    pub def: ServiceDef,
    /// The definition of the tag service, where the service has one.
    pub tag_def: Option<ServiceDef>,
    pub time_zones: TimeZones,
}

impl Drop for Frame {
    fn drop(self) {
        let Self {
            def: _,
            tag_def: _,
            time_zones: _,
        } = self;
    }
}

/// What a policy is asked about.
#[derive(Clone, Copy, Debug, PartialEq, Eq)]
pub enum Side {
    /// A policy of the service: about the resource of the request.
    Resource,
    /// A policy of the tag service: about one tag of the resource.
    Tag,
}

/// What a policy of type 0 gives.
#[derive(Clone, Copy, Debug, PartialEq, Eq)]
pub enum Effect {
    Nothing,
    Allow,
    Deny,
}

/// The definition of the policies of a side. Where there is no tag definition, that of the service stands for it.
pub fn def_of(frame: &Frame, side: Side) -> &ServiceDef
    ensures { result.now ≡ def_of frame.now side }
{
    match side {
        Side::Resource => &frame.def,
        Side::Tag => match &frame.tag_def {
            Some(def) => def,
            None => &frame.def,
        },
    }
}
