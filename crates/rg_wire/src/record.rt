// The records, each a table of its fields in the order of the format. A dotted name is a record within a record.
use crate::key::Key;
use crate::tables;
use rg_json::{Field, Table};

/// A record, or a part of one that is a map in JSON.
#[derive(Clone, Copy, Debug, PartialEq, Eq)]
pub enum Record {
    Entry,
    Condition,
    Mask,
    FilterInfo,
    Item,
    PolicyResource,
    Schedule,
    Policy,
    Resource,
    Request,
    Options,
    Level,
    AccessType,
    ConditionDef,
    MaskType,
    /// What is kept by its name alone.
    Named,
    MaskPart,
    FilterPart,
    ServiceDef,
    Role,
    ZoneService,
    Zone,
    Tag,
    TagRow,
    /// A tag row among facts, which say its service themselves.
    FactsTagRow,
    TimeZone,
    Facts,
    Service,
    User,
    Config,
    // Parts of a download.
    PolicyChange,
    PolicyDelta,
    PolicyWhole,
    TagChange,
    TagDelta,
    TagWhole,
    RoleWhole,
}

impl Table<Key> for Record {
    ghost use Rattle.rg_wire.specs.Shapes.{record_shape};

    ghost record_shape = { record_shape };

    #[tactic(auto, unfolding(crate::specs::Shapes::record_shape))]
    fn fields(self) -> &'static [Field<Key, Record>] {
        match self {
            Record::Entry => tables::entry(),
            Record::Condition => tables::condition(),
            Record::Mask => tables::mask(),
            Record::FilterInfo => tables::filter_info(),
            Record::Item => tables::item(),
            Record::PolicyResource => tables::policy_resource(),
            Record::Schedule => tables::schedule(),
            Record::Policy => tables::policy(),
            Record::Resource => tables::resource(),
            Record::Request => tables::request(),
            Record::Options => tables::options(),
            Record::Level => tables::level(),
            Record::AccessType => tables::access_type(),
            Record::ConditionDef => tables::condition_def(),
            Record::MaskType => tables::mask_type(),
            Record::Named => tables::named(),
            Record::MaskPart => tables::mask_part(),
            Record::FilterPart => tables::filter_part(),
            Record::ServiceDef => tables::service_def(),
            Record::Role => tables::role(),
            Record::ZoneService => tables::zone_service(),
            Record::Zone => tables::zone(),
            Record::Tag => tables::tag(),
            Record::TagRow => tables::tag_row(),
            Record::FactsTagRow => tables::facts_tag_row(),
            Record::TimeZone => tables::time_zone(),
            Record::Facts => tables::facts(),
            Record::Service => tables::service(),
            Record::User => tables::user(),
            Record::Config => tables::config(),
            Record::PolicyChange => tables::policy_change(),
            Record::PolicyDelta => tables::policy_delta(),
            Record::PolicyWhole => tables::policy_whole(),
            Record::TagChange => tables::tag_change(),
            Record::TagDelta => tables::tag_delta(),
            Record::TagWhole => tables::tag_whole(),
            Record::RoleWhole => tables::role_whole(),
        }
    }
}
