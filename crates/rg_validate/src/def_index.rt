// The definitions of services, where many are looked up.
ghost use Rattle.std.specs.Prelude.{◌≡◌, IfOk, map, option_map};
ghost use Rattle.std.specs.List.{find, slice_get};
ghost use Rattle.std.specs.Str.{bytes_eq, chars};
ghost use Rattle.rg_cmd.specs.Lookups.{def_at, def_of, service_at};

use rg_base::{NameIndex, Named, NoMemory, Text};
use rg_cmd::{ServiceRow, State, def_at, service_at};
use rg_defs::ServiceDef;
use std::alloc::Global;
use std::marker::Model;

/// So many services are looked up by going over the rows, which takes no longer than to index the names.
const FEW: usize = 256;

fn thing_at<T>(things: &[T], place: u32) -> Option<&T>
    ensures { option_map (λ t. t.now) result ≡ slice_get things.now place }
{
    things.get(place as usize)
}

/// The first of the things of this name, by an index of their names.
pub(crate) fn find_indexed<'a, T: Named>(
    index: &NameIndex,
    things: &'a [T],
    name: &str,
) -> Option<&'a T>
    requires { index.now ≡ map T.named things.now }
    ensures { option_map (λ t. t.now) result
        ≡ find (λ x. bytes_eq (T.named x) (chars name.now)) things.now }
{
    match index.place_of(name) {
        Some(place) => thing_at(things, place),
        None => None,
    }
}

/// The definitions of the services of a state, by indexes of the names where more than a few are looked up. Contracts see
/// the state.
#[derive(Drop)]
pub(crate) struct DefIndex<'a> {
    state: &'a State,
    services: Option<NameIndex>,
    defs: Option<NameIndex>,
}

impl<'a> Model for DefIndex<'a> {
    ghost use Rattle.std.specs.Prelude.{◌≡◌, map};
    ghost use Rattle.std.specs.Option.{ForSome};
    ghost use Rattle.rg_cmd.specs.declared.state.ServiceRow.{ServiceRow};
    ghost use Rattle.rg_cmd.specs.declared.state.State.{State};
    ghost use Rattle.rg_defs.specs.declared.service_def.ServiceDef.{ServiceDef};

    ghost Value = { State };

    ghost view = { λ x. x.state.now };

    ghost invariant = { λ x. ForSome x.services
        (λ index. index ≡ map (λ (row : ServiceRow). row.name) x.state.now.services.items)
        × ForSome x.defs (λ index. index ≡ map (λ (def : ServiceDef). def.name) x.state.now.defs.items) };
}

impl<'a> DefIndex<'a> {
    /// For so many look-ups.
    pub(crate) fn of(
        alloc: Global,
        state: &'a State,
        count: usize,
    ) -> Result<DefIndex<'a>, NoMemory>
        ensures { IfOk result (λ index. index ≡ state.now) }
    {
        if count <= FEW {
            return Ok(DefIndex {
                state,
                services: None,
                defs: None,
            });
        }
        let services = NameIndex::build(alloc, state.services.as_slice())?;
        let defs = NameIndex::build(alloc, state.defs.as_slice())?;
        Ok(DefIndex {
            state,
            services: Some(services),
            defs: Some(defs),
        })
    }

    fn service_at(&self, name: &Text) -> Option<&'a ServiceRow>
        ensures { option_map (λ r. r.now) result ≡ service_at self.now name.now }
    {
        match &self.services {
            Some(index) => find_indexed(index, self.state.services.as_slice(), name.as_str()),
            None => service_at(self.state, name),
        }
    }

    fn def_at(&self, name: &Text) -> Option<&'a ServiceDef>
        ensures { option_map (λ d. d.now) result ≡ def_at self.now name.now }
    {
        match &self.defs {
            Some(index) => find_indexed(index, self.state.defs.as_slice(), name.as_str()),
            None => def_at(self.state, name),
        }
    }

    /// The definition of the service of this name.
    pub(crate) fn def_of(&self, service: &Text) -> Option<&'a ServiceDef>
        ensures { option_map (λ d. d.now) result ≡ def_of self.now service.now }
    {
        match self.service_at(service) {
            Some(row) => self.def_at(&row.def),
            None => None,
        }
    }
}
