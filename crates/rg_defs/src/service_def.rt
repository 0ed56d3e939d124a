// The records of a service definition (Ranger's RangerServiceDef).
use rg_base::{Named, NoMemory, Pair, Seq, Text, TryCopy};
use std::alloc::Global;

/// A resource level (RangerResourceDef).
#[derive(Drop)]
pub struct Level {
    pub name: Text,
    /// The level number, smaller than that of each child.
    pub level: i64,
    /// The name of the level above, or empty for a root.
    pub parent: Text,
    /// Whether a policy that names a level below has to name this one.
    pub mandatory: bool,
    /// Whether policies may be recursive here.
    pub recursive: bool,
    /// Whether policies may exclude here.
    pub excludes: bool,
    /// Whether `*` and `?` are wildcards here (matcher option wildCard).
    pub wild: bool,
    /// Whether the case of ASCII letters counts for nothing (matcher option ignoreCase).
    pub fold: bool,
}

/// An access type (RangerAccessTypeDef).
#[derive(Drop)]
pub struct AccessType {
    pub name: Text,
    /// The names of the access types that this one brings along.
    pub implied: Seq<Text>,
}

/// A policy condition (RangerPolicyConditionDef).
pub struct ConditionDef {
    pub name: Text,
    pub evaluator: Text,
    pub options: Seq<Pair>,
}

impl Drop for ConditionDef {
    fn drop(self) {
        let Self {
            name: _,
            evaluator: _,
            options: _,
        } = self;
    }
}

/// A mask type (RangerDataMaskTypeDef).
#[derive(Drop)]
pub struct MaskType {
    pub name: Text,
    /// The masking expression, in which `{col}` stands for the column.
    pub transformer: Text,
}

/// A service definition.
pub struct ServiceDef {
    pub name: Text,
    pub levels: Seq<Level>,
    pub access_types: Seq<AccessType>,
    pub conditions: Seq<ConditionDef>,
    pub masks: Seq<MaskType>,
    /// The access types and levels of the data mask part.
    pub mask_access: Seq<Text>,
    pub mask_levels: Seq<Text>,
    /// The access types and levels of the row filter part.
    pub filter_access: Seq<Text>,
    pub filter_levels: Seq<Text>,
}

impl Drop for ServiceDef {
    fn drop(self) {
        let Self {
            name: _,
            levels: _,
            access_types: _,
            conditions: _,
            masks: _,
            mask_access: _,
            mask_levels: _,
            filter_access: _,
            filter_levels: _,
        } = self;
    }
}

impl TryCopy for Level {
    fn try_copy(&self, alloc: Global) -> Result<Level, NoMemory> {
        Ok(Level {
            name: self.name.try_copy(alloc)?,
            level: self.level,
            parent: self.parent.try_copy(alloc)?,
            mandatory: self.mandatory,
            recursive: self.recursive,
            excludes: self.excludes,
            wild: self.wild,
            fold: self.fold,
        })
    }
}

impl TryCopy for AccessType {
    fn try_copy(&self, alloc: Global) -> Result<AccessType, NoMemory> {
        Ok(AccessType {
            name: self.name.try_copy(alloc)?,
            implied: self.implied.try_copy(alloc)?,
        })
    }
}

impl TryCopy for ConditionDef {
    fn try_copy(&self, alloc: Global) -> Result<ConditionDef, NoMemory> {
        Ok(ConditionDef {
            name: self.name.try_copy(alloc)?,
            evaluator: self.evaluator.try_copy(alloc)?,
            options: self.options.try_copy(alloc)?,
        })
    }
}

impl TryCopy for MaskType {
    fn try_copy(&self, alloc: Global) -> Result<MaskType, NoMemory> {
        Ok(MaskType {
            name: self.name.try_copy(alloc)?,
            transformer: self.transformer.try_copy(alloc)?,
        })
    }
}

impl TryCopy for ServiceDef {
    fn try_copy(&self, alloc: Global) -> Result<ServiceDef, NoMemory> {
        Ok(ServiceDef {
            name: self.name.try_copy(alloc)?,
            levels: self.levels.try_copy(alloc)?,
            access_types: self.access_types.try_copy(alloc)?,
            conditions: self.conditions.try_copy(alloc)?,
            masks: self.masks.try_copy(alloc)?,
            mask_access: self.mask_access.try_copy(alloc)?,
            mask_levels: self.mask_levels.try_copy(alloc)?,
            filter_access: self.filter_access.try_copy(alloc)?,
            filter_levels: self.filter_levels.try_copy(alloc)?,
        })
    }
}

impl Named for Level {
    ghost named = { λ l. l.name };

    fn name(&self) -> &str {
        self.name.as_str()
    }
}

impl Named for AccessType {
    ghost named = { λ t. t.name };

    fn name(&self) -> &str {
        self.name.as_str()
    }
}

impl Named for ConditionDef {
    ghost named = { λ c. c.name };

    fn name(&self) -> &str {
        self.name.as_str()
    }
}

impl Named for MaskType {
    ghost named = { λ m. m.name };

    fn name(&self) -> &str {
        self.name.as_str()
    }
}

impl Named for ServiceDef {
    ghost named = { λ d. d.name };

    fn name(&self) -> &str {
        self.name.as_str()
    }
}
