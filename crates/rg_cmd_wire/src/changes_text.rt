// What the parts of a download hold, printed.
use crate::reply_key::ReplyKey::{self, Wire};
use rg_base::NoMemory;
use rg_cmd::{PolicyChange, PolicyDelta, PolicyWhole, RoleWhole, TagChange, TagDelta, TagWhole};
use rg_json::{ToJson, put};
use rg_policy::Policy;
use rg_shared::Shared;
use rg_wire::Key;
use serde_json::{Map, Value};
use std::alloc::Global;

impl ToJson<ReplyKey> for Shared<Policy> {
    ghost use Rattle.rg_wire.specs.Printing.{policy_data};

    ghost printing = { policy_data };

    fn json(&self, alloc: Global) -> Result<Value, NoMemory> {
        <Policy as ToJson<Key>>::json(self, alloc)
    }
}

impl ToJson<ReplyKey> for PolicyChange {
    ghost use Rattle.rg_cmd_wire.specs.PrintedParts.{policy_change_data};

    ghost printing = { policy_change_data };

    #[tactic(auto, unfolding(crate::specs::PrintedParts::policy_change_data))]
    fn json(&self, alloc: Global) -> Result<Value, NoMemory> {
        let mut members = Map::new(alloc);
        let change_type = u64::from(self.change_type);
        put(alloc, &mut members, ReplyKey::ChangeType, &change_type)?;
        put(alloc, &mut members, ReplyKey::Tag, &self.tag)?;
        put(alloc, &mut members, Wire(Key::Policy), &self.policy)?;
        Ok(Value::Object(members))
    }
}

impl ToJson<ReplyKey> for PolicyDelta {
    ghost use Rattle.rg_cmd_wire.specs.PrintedParts.{policy_delta_data};

    ghost printing = { policy_delta_data };

    #[tactic(auto, unfolding(crate::specs::PrintedParts::policy_delta_data))]
    fn json(&self, alloc: Global) -> Result<Value, NoMemory> {
        let mut members = Map::new(alloc);
        put(alloc, &mut members, ReplyKey::From, &self.from.0)?;
        put(alloc, &mut members, ReplyKey::To, &self.to.0)?;
        put(alloc, &mut members, ReplyKey::Changes, &self.changes)?;
        let zones = &self.zones;
        put(alloc, &mut members, Wire(Key::Zones), zones)?;
        Ok(Value::Object(members))
    }
}

impl ToJson<ReplyKey> for PolicyWhole {
    ghost use Rattle.rg_cmd_wire.specs.PrintedParts.{policy_whole_data};

    ghost printing = { policy_whole_data };

    #[tactic(auto, unfolding(crate::specs::PrintedParts::policy_whole_data))]
    fn json(&self, alloc: Global) -> Result<Value, NoMemory> {
        let mut members = Map::new(alloc);
        put(alloc, &mut members, Wire(Key::Version), &self.version.0)?;
        put(alloc, &mut members, Wire(Key::Fallback), &self.fallback)?;
        put(alloc, &mut members, Wire(Key::Def), &self.def)?;
        put(alloc, &mut members, ReplyKey::TagDef, &self.tag_def)?;
        put(alloc, &mut members, Wire(Key::Policies), &self.policies)?;
        let tag_policies = &self.tag_policies;
        put(alloc, &mut members, Wire(Key::TagPolicies), tag_policies)?;
        put(alloc, &mut members, Wire(Key::Zones), &self.zones)?;
        put(alloc, &mut members, Wire(Key::TimeZones), &self.time_zones)?;
        Ok(Value::Object(members))
    }
}

impl ToJson<ReplyKey> for TagChange {
    ghost use Rattle.rg_cmd_wire.specs.PrintedParts.{tag_change_data};

    ghost printing = { tag_change_data };

    #[tactic(auto, unfolding(crate::specs::PrintedParts::tag_change_data))]
    fn json(&self, alloc: Global) -> Result<Value, NoMemory> {
        let mut members = Map::new(alloc);
        let change_type = u64::from(self.change_type);
        put(alloc, &mut members, ReplyKey::ChangeType, &change_type)?;
        put(alloc, &mut members, Wire(Key::Row), &self.row)?;
        Ok(Value::Object(members))
    }
}

impl ToJson<ReplyKey> for TagDelta {
    ghost use Rattle.rg_cmd_wire.specs.PrintedParts.{tag_delta_data};

    ghost printing = { tag_delta_data };

    #[tactic(auto, unfolding(crate::specs::PrintedParts::tag_delta_data))]
    fn json(&self, alloc: Global) -> Result<Value, NoMemory> {
        let mut members = Map::new(alloc);
        put(alloc, &mut members, ReplyKey::From, &self.from.0)?;
        put(alloc, &mut members, ReplyKey::To, &self.to.0)?;
        put(alloc, &mut members, ReplyKey::Changes, &self.changes)?;
        Ok(Value::Object(members))
    }
}

impl ToJson<ReplyKey> for TagWhole {
    ghost use Rattle.rg_cmd_wire.specs.PrintedParts.{tag_whole_data};

    ghost printing = { tag_whole_data };

    #[tactic(auto, unfolding(crate::specs::PrintedParts::tag_whole_data))]
    fn json(&self, alloc: Global) -> Result<Value, NoMemory> {
        let mut members = Map::new(alloc);
        put(alloc, &mut members, Wire(Key::Version), &self.version.0)?;
        put(alloc, &mut members, ReplyKey::Rows, &self.rows)?;
        Ok(Value::Object(members))
    }
}

impl ToJson<ReplyKey> for RoleWhole {
    ghost use Rattle.rg_cmd_wire.specs.PrintedParts.{role_whole_data};

    ghost printing = { role_whole_data };

    #[tactic(auto, unfolding(crate::specs::PrintedParts::role_whole_data))]
    fn json(&self, alloc: Global) -> Result<Value, NoMemory> {
        let mut members = Map::new(alloc);
        put(alloc, &mut members, Wire(Key::Version), &self.version.0)?;
        put(alloc, &mut members, Wire(Key::Roles), &self.roles)?;
        Ok(Value::Object(members))
    }
}
