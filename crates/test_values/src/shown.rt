// Records, written out field by field.
use rg_base::{NoMemory, Pair, Seq, Text};
use rg_defs::{AccessType, ConditionDef, Level, MaskType, ServiceDef};
use rg_policy::{AccessRequest, Element, PolicyResource, Tag, TimeZoneRow};
use rg_roles::RoleRow;
use rg_tags::TagRow;

/// A record that can be written out.
pub(crate) trait Show {
    /// Writes the fields in turn: a blank behind each text and number, `+` and `-` for true and false, brackets round a list.
    fn show(&self, out: &mut String) -> Result<(), NoMemory>;
}

impl Show for Text {
    fn show(&self, out: &mut String) -> Result<(), NoMemory> {
        Ok(write!(out, "{} ", self.as_str())?)
    }
}

impl Show for bool {
    fn show(&self, out: &mut String) -> Result<(), NoMemory> {
        Ok(out.push(if *self { '+' } else { '-' })?)
    }
}

impl Show for i64 {
    fn show(&self, out: &mut String) -> Result<(), NoMemory> {
        Ok(write!(out, "{} ", *self)?)
    }
}

impl<T: Show> Show for Seq<T> {
    fn show(&self, out: &mut String) -> Result<(), NoMemory> {
        out.push('[')?;
        for item in self.as_slice() {
            item.show(out)?;
        }
        Ok(out.push(']')?)
    }
}

impl Show for Pair {
    fn show(&self, out: &mut String) -> Result<(), NoMemory> {
        self.key.show(out)?;
        self.value.show(out)
    }
}

impl Show for Element {
    fn show(&self, out: &mut String) -> Result<(), NoMemory> {
        self.level.show(out)?;
        self.value.show(out)
    }
}

impl Show for AccessRequest {
    fn show(&self, out: &mut String) -> Result<(), NoMemory> {
        self.user.show(out)?;
        self.groups.show(out)?;
        self.resource.elements.show(out)?;
        self.resource.owner.show(out)?;
        self.access.show(out)?;
        self.moment.0.show(out)?;
        self.address.show(out)?;
        self.context.show(out)
    }
}

impl Show for PolicyResource {
    fn show(&self, out: &mut String) -> Result<(), NoMemory> {
        self.level.show(out)?;
        self.values.show(out)?;
        self.excludes.show(out)?;
        self.recursive.show(out)
    }
}

impl Show for Tag {
    fn show(&self, out: &mut String) -> Result<(), NoMemory> {
        self.kind.show(out)?;
        self.attributes.show(out)
    }
}

impl Show for TagRow {
    fn show(&self, out: &mut String) -> Result<(), NoMemory> {
        self.id.show(out)?;
        self.service.show(out)?;
        self.resources.show(out)?;
        self.tags.show(out)
    }
}

impl Show for TimeZoneRow {
    fn show(&self, out: &mut String) -> Result<(), NoMemory> {
        self.name.show(out)?;
        self.rule.show(out)
    }
}

impl Show for RoleRow {
    fn show(&self, out: &mut String) -> Result<(), NoMemory> {
        self.name.show(out)?;
        self.users.show(out)?;
        self.groups.show(out)?;
        self.roles.show(out)
    }
}

impl Show for Level {
    fn show(&self, out: &mut String) -> Result<(), NoMemory> {
        self.name.show(out)?;
        self.level.show(out)?;
        self.parent.show(out)?;
        for mark in [
            self.mandatory,
            self.recursive,
            self.excludes,
            self.wild,
            self.fold,
        ] {
            mark.show(out)?;
        }
        Ok(())
    }
}

impl Show for AccessType {
    fn show(&self, out: &mut String) -> Result<(), NoMemory> {
        self.name.show(out)?;
        self.implied.show(out)
    }
}

impl Show for ConditionDef {
    fn show(&self, out: &mut String) -> Result<(), NoMemory> {
        self.name.show(out)?;
        self.evaluator.show(out)?;
        self.options.show(out)
    }
}

impl Show for MaskType {
    fn show(&self, out: &mut String) -> Result<(), NoMemory> {
        self.name.show(out)?;
        self.transformer.show(out)
    }
}

impl Show for ServiceDef {
    fn show(&self, out: &mut String) -> Result<(), NoMemory> {
        self.name.show(out)?;
        self.levels.show(out)?;
        self.access_types.show(out)?;
        self.conditions.show(out)?;
        self.masks.show(out)?;
        for names in [
            &self.mask_access,
            &self.mask_levels,
            &self.filter_access,
            &self.filter_levels,
        ] {
            names.show(out)?;
        }
        Ok(())
    }
}
