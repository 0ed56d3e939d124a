// The records of a request, read.
use crate::key::Key;
use crate::wire::Wire;
use rg_base::{Moment, NoMemory, Pair, Text};
use rg_json::{MemberReader, Reader, i64_at, list_at, map_at, record_at, text_at, text_in};
use rg_policy::{AccessRequest, Element, Resource};
use serde_json::Value;
use std::alloc::Global;

impl MemberReader<Pair> for Wire {
    ghost use Rattle.rg_json.specs.Own.{Whatever};
    ghost use Rattle.rg_wire.specs.Records.{pair_of};

    ghost member_reading = { λ w. pair_of };

    ghost member_owned = { Whatever };

    #[tactic(auto, unfolding(crate::specs::Records::pair_of))]
    fn read_member(&self, alloc: Global, key: &str, value: &Value) -> Result<Pair, NoMemory> {
        Ok(Pair {
            key: Text::copy_of(alloc, key)?,
            value: text_in(alloc, value)?,
        })
    }
}

impl MemberReader<Element> for Wire {
    ghost use Rattle.rg_json.specs.Own.{Whatever};
    ghost use Rattle.rg_wire.specs.Records.{element_of};

    ghost member_reading = { λ w. element_of };

    ghost member_owned = { Whatever };

    #[tactic(auto, unfolding(crate::specs::Records::element_of))]
    fn read_member(&self, alloc: Global, key: &str, value: &Value) -> Result<Element, NoMemory> {
        Ok(Element {
            level: Text::copy_of(alloc, key)?,
            value: text_in(alloc, value)?,
        })
    }
}

impl Reader<Resource> for Wire {
    ghost use Rattle.rg_json.specs.Own.{Whatever};
    ghost use Rattle.rg_wire.specs.Records.{resource_of};

    ghost reading = { λ w. resource_of };

    ghost owned = { Whatever };

    #[tactic(auto, unfolding(crate::specs::Records::resource_of))]
    fn read(&self, alloc: Global, value: &Value) -> Result<Resource, NoMemory> {
        Ok(Resource {
            elements: map_at(alloc, self, value, Key::Elements)?,
            owner: text_at(alloc, value, Key::OwnerUser)?,
        })
    }
}

/// Reads requests; one without a time is made at this moment.
#[derive(Clone, Copy)]
pub(crate) struct At(pub Moment);

impl Reader<AccessRequest> for At {
    ghost use Rattle.rg_json.specs.Own.{Whatever};
    ghost use Rattle.rg_wire.specs.Records.{request_of};

    ghost reading = { λ at. request_of at.0 };

    ghost owned = { Whatever };

    #[tactic(auto, unfolding(crate::specs::Records::request_of))]
    fn read(&self, alloc: Global, value: &Value) -> Result<AccessRequest, NoMemory> {
        let seconds = i64_at(value, Key::AccessTime, self.0.0);
        Ok(AccessRequest {
            user: text_at(alloc, value, Key::User)?,
            groups: list_at(alloc, &Wire, value, Key::UserGroups)?,
            resource: record_at(alloc, &Wire, value, Key::Resource)?,
            access: text_at(alloc, value, Key::AccessType)?,
            moment: Moment(seconds),
            address: text_at(alloc, value, Key::ClientAddress)?,
            context: map_at(alloc, &Wire, value, Key::Context)?,
        })
    }
}
