// What a policy is asked.
ghost use Rattle.std.specs.Prelude.{◌≡◌};
ghost use Rattle.rg_evalr.specs.Frames.{def_of};

use rg_defs::{Paths, ServiceDef};
use rg_evalr::{Frame, Side};
use rg_policy::{AccessRequest, Element, Tag};
use rg_roles::Roles;
use std::marker::Model;

/// What the policies of one side are asked: a request, with the roles that there are, and for tag policies one tag of its
/// resource. Contracts see what they are read under and the context.
#[derive(Drop)]
pub struct Question<'a> {
    pub frame: &'a Frame,
    pub side: Side,
    pub request: &'a AccessRequest,
    pub roles: &'a Roles,
    pub tag: Option<&'a Tag>,
    /// The paths of the side's definition.
    pub paths: &'a Paths,
    /// What is asked about: the elements of the request's resource, or the tag as one of level `tag`.
    pub elements: &'a [Element],
    /// The access that policies of the side are asked for.
    pub access: &'a str,
}

impl<'a> Model for Question<'a> {
    ghost use Rattle.std.specs.Prelude.{◌≡◌, None, option_map};
    ghost use Rattle.std.specs.Str.{chars};
    ghost use Rattle.rg_evalr.specs.Frames.{def_of, requested_access};
    ghost use Rattle.rg_standing.specs.Asking.{Asked, elements_for};

    ghost Value = { Asked };

    ghost view = { λ q. record {
      frame = q.frame.now;
      side = q.side;
      context = record { request = q.request.now; roles = q.roles.now; tag = option_map (λ t. t.now) q.tag };
    } };

    ghost invariant = { λ q. (q.paths.now ≡ (def_of q.frame.now q.side).levels.items)
        × (q.elements.now ≡ elements_for q.side q.request.now (option_map (λ t. t.now) q.tag))
        × (chars q.access.now ≡ requested_access q.frame.now q.side q.request.now.access) };
}

impl<'a> Question<'a> {
    /// The definition of the policies of the side.
    pub(crate) fn def(&self) -> &'a ServiceDef
        ensures { result.now ≡ def_of self.now.frame self.now.side }
    {
        match self.side {
            Side::Resource => &self.frame.def,
            Side::Tag => match &self.frame.tag_def {
                Some(def) => def,
                None => &self.frame.def,
            },
        }
    }
}
