// The fields of the records, in the order of the format. A dotted name is a record within a record.
#![tactic(auto, unfolding(rg_json::specs::Kinds::shape_of, crate::specs::Shapes::record_shape))]

ghost use Rattle.std.specs.Prelude.{◌≡◌};
ghost use Rattle.rg_json.specs.Kinds.{fields_from};
ghost use Rattle.rg_json.specs.Shape.{record_of};
ghost use Rattle.rg_wire.specs.Names.{name_of};
ghost use Rattle.rg_wire.specs.Shapes.{record_shape, entry_shape, condition_shape, mask_shape, filter_info_shape, item_shape, policy_resource_shape, schedule_shape, policy_shape, resource_shape, request_shape, options_shape, level_shape, access_type_shape, condition_def_shape, mask_type_shape, named_shape, mask_part_shape, filter_part_shape, service_def_shape, role_shape, zone_service_shape, zone_shape, tag_shape, tag_row_shape, facts_tag_row_shape, time_zone_shape, facts_shape, service_shape, user_shape, config_shape, policy_change_shape, policy_delta_shape, policy_whole_shape, tag_change_shape, tag_delta_shape, tag_whole_shape, role_whole_shape};

use crate::key::Key;
use crate::record::Record;
use rg_json::Need::{May, Must};
use rg_json::{Field, Kind};

/// The fields of a record.
type Fields = &'static [Field<Key, Record>];

/// An access entry.
pub(crate) fn entry() -> Fields
    ensures { record_of (fields_from name_of record_shape result.now) ≡ entry_shape }
{
    &[
        Field(Key::Type, Must, Kind::Text),
        Field(Key::IsAllowed, May, Kind::Truth),
    ]
}

/// A condition of a policy or an item.
pub(crate) fn condition() -> Fields
    ensures { record_of (fields_from name_of record_shape result.now) ≡ condition_shape }
{
    &[
        Field(Key::Type, Must, Kind::Text),
        Field(Key::Values, May, Kind::Texts),
    ]
}

/// How an item masks.
pub(crate) fn mask() -> Fields
    ensures { record_of (fields_from name_of record_shape result.now) ≡ mask_shape }
{
    &[
        Field(Key::DataMaskType, May, Kind::Text),
        Field(Key::ConditionExpr, May, Kind::Text),
        Field(Key::ValueExpr, May, Kind::Text),
    ]
}

/// The row filter of an item.
pub(crate) fn filter_info() -> Fields
    ensures { record_of (fields_from name_of record_shape result.now) ≡ filter_info_shape }
{
    &[Field(Key::FilterExpr, May, Kind::Text)]
}

/// An item.
pub(crate) fn item() -> Fields
    ensures { record_of (fields_from name_of record_shape result.now) ≡ item_shape }
{
    &[
        Field(Key::Accesses, May, Kind::List(Record::Entry)),
        Field(Key::Users, May, Kind::Texts),
        Field(Key::Groups, May, Kind::Texts),
        Field(Key::Roles, May, Kind::Texts),
        Field(Key::Conditions, May, Kind::List(Record::Condition)),
        Field(Key::DelegateAdmin, May, Kind::Truth),
        Field(Key::DataMaskInfo, May, Kind::Record(Record::Mask)),
        Field(Key::RowFilterInfo, May, Kind::Record(Record::FilterInfo)),
    ]
}

/// The values of a level.
pub(crate) fn policy_resource() -> Fields
    ensures { record_of (fields_from name_of record_shape result.now) ≡ policy_resource_shape }
{
    &[
        Field(Key::Values, May, Kind::Texts),
        Field(Key::IsExcludes, May, Kind::Truth),
        Field(Key::IsRecursive, May, Kind::Truth),
    ]
}

/// When a policy is valid; what a recurrence is isn't looked at.
pub(crate) fn schedule() -> Fields
    ensures { record_of (fields_from name_of record_shape result.now) ≡ schedule_shape }
{
    &[
        Field(Key::StartTime, May, Kind::Text),
        Field(Key::EndTime, May, Kind::Text),
        Field(Key::TimeZone, May, Kind::Text),
        Field(Key::Recurrences, May, Kind::Things),
    ]
}

/// A policy.
pub(crate) fn policy() -> Fields
    ensures { record_of (fields_from name_of record_shape result.now) ≡ policy_shape }
{
    &[
        Field(Key::Id, May, Kind::Integer),
        Field(Key::Guid, May, Kind::Text),
        Field(Key::Version, May, Kind::Count),
        Field(Key::Service, May, Kind::Text),
        Field(Key::Name, May, Kind::Text),
        Field(Key::PolicyType, May, Kind::Integer),
        Field(Key::PolicyPriority, May, Kind::Integer),
        Field(Key::Resources, May, Kind::Map(Record::PolicyResource)),
        Field(
            Key::AdditionalResources,
            May,
            Kind::Maps(Record::PolicyResource),
        ),
        Field(Key::Conditions, May, Kind::List(Record::Condition)),
        Field(Key::PolicyItems, May, Kind::List(Record::Item)),
        Field(Key::DenyPolicyItems, May, Kind::List(Record::Item)),
        Field(Key::AllowExceptions, May, Kind::List(Record::Item)),
        Field(Key::DenyExceptions, May, Kind::List(Record::Item)),
        Field(Key::DataMaskPolicyItems, May, Kind::List(Record::Item)),
        Field(Key::RowFilterPolicyItems, May, Kind::List(Record::Item)),
        Field(Key::ValiditySchedules, May, Kind::List(Record::Schedule)),
        Field(Key::ZoneName, May, Kind::Text),
        Field(Key::IsDenyAllElse, May, Kind::Truth),
        Field(Key::IsEnabled, May, Kind::Truth),
        Field(Key::IsAuditEnabled, May, Kind::Truth),
    ]
}

/// What a request asks about.
pub(crate) fn resource() -> Fields
    ensures { record_of (fields_from name_of record_shape result.now) ≡ resource_shape }
{
    &[
        Field(Key::Elements, Must, Kind::Values),
        Field(Key::OwnerUser, May, Kind::Text),
    ]
}

/// A request.
pub(crate) fn request() -> Fields
    ensures { record_of (fields_from name_of record_shape result.now) ≡ request_shape }
{
    &[
        Field(Key::User, Must, Kind::Name),
        Field(Key::UserGroups, May, Kind::Names),
        Field(Key::Resource, Must, Kind::Record(Record::Resource)),
        Field(Key::AccessType, Must, Kind::Name),
        Field(Key::AccessTime, May, Kind::Integer),
        Field(Key::ClientAddress, May, Kind::Text),
        Field(Key::Context, May, Kind::Pairs),
    ]
}

/// A level's matcher options.
pub(crate) fn options() -> Fields
    ensures { record_of (fields_from name_of record_shape result.now) ≡ options_shape }
{
    &[
        Field(Key::WildCard, May, Kind::TruthWord),
        Field(Key::IgnoreCase, May, Kind::TruthWord),
    ]
}

/// A resource level.
pub(crate) fn level() -> Fields
    ensures { record_of (fields_from name_of record_shape result.now) ≡ level_shape }
{
    &[
        Field(Key::Name, Must, Kind::Text),
        Field(Key::Level, May, Kind::Integer),
        Field(Key::Parent, May, Kind::Text),
        Field(Key::Mandatory, May, Kind::Truth),
        Field(Key::RecursiveSupported, May, Kind::Truth),
        Field(Key::ExcludesSupported, May, Kind::Truth),
        Field(Key::MatcherOptions, May, Kind::Record(Record::Options)),
    ]
}

/// An access type.
pub(crate) fn access_type() -> Fields
    ensures { record_of (fields_from name_of record_shape result.now) ≡ access_type_shape }
{
    &[
        Field(Key::Name, Must, Kind::Text),
        Field(Key::ImpliedGrants, May, Kind::Texts),
    ]
}

/// A condition of a definition.
pub(crate) fn condition_def() -> Fields
    ensures { record_of (fields_from name_of record_shape result.now) ≡ condition_def_shape }
{
    &[
        Field(Key::Name, Must, Kind::Text),
        Field(Key::Evaluator, May, Kind::Text),
        Field(Key::EvaluatorOptions, May, Kind::Pairs),
    ]
}

/// A mask type.
pub(crate) fn mask_type() -> Fields
    ensures { record_of (fields_from name_of record_shape result.now) ≡ mask_type_shape }
{
    &[
        Field(Key::Name, Must, Kind::Text),
        Field(Key::Transformer, May, Kind::Text),
    ]
}

/// What is kept by its name alone.
pub(crate) fn named() -> Fields
    ensures { record_of (fields_from name_of record_shape result.now) ≡ named_shape }
{
    &[Field(Key::Name, Must, Kind::Text)]
}

/// The data mask part.
pub(crate) fn mask_part() -> Fields
    ensures { record_of (fields_from name_of record_shape result.now) ≡ mask_part_shape }
{
    &[
        Field(Key::MaskTypes, May, Kind::List(Record::MaskType)),
        Field(Key::AccessTypes, May, Kind::List(Record::Named)),
        Field(Key::Resources, May, Kind::List(Record::Named)),
    ]
}

/// The row filter part.
pub(crate) fn filter_part() -> Fields
    ensures { record_of (fields_from name_of record_shape result.now) ≡ filter_part_shape }
{
    &[
        Field(Key::AccessTypes, May, Kind::List(Record::Named)),
        Field(Key::Resources, May, Kind::List(Record::Named)),
    ]
}

/// A service definition.
pub(crate) fn service_def() -> Fields
    ensures { record_of (fields_from name_of record_shape result.now) ≡ service_def_shape }
{
    &[
        Field(Key::Name, Must, Kind::Text),
        Field(Key::Resources, May, Kind::List(Record::Level)),
        Field(Key::AccessTypes, May, Kind::List(Record::AccessType)),
        Field(Key::PolicyConditions, May, Kind::List(Record::ConditionDef)),
        Field(Key::DataMaskDef, May, Kind::Record(Record::MaskPart)),
        Field(Key::RowFilterDef, May, Kind::Record(Record::FilterPart)),
    ]
}

/// A role.
pub(crate) fn role() -> Fields
    ensures { record_of (fields_from name_of record_shape result.now) ≡ role_shape }
{
    &[
        Field(Key::Name, Must, Kind::Text),
        Field(Key::Users, May, Kind::TextsOr(Record::Named)),
        Field(Key::Groups, May, Kind::TextsOr(Record::Named)),
        Field(Key::Roles, May, Kind::TextsOr(Record::Named)),
    ]
}

/// The resources of a service in a zone.
pub(crate) fn zone_service() -> Fields
    ensures { record_of (fields_from name_of record_shape result.now) ≡ zone_service_shape }
{
    &[Field(Key::Resources, May, Kind::MapsOfLists)]
}

/// A security zone.
pub(crate) fn zone() -> Fields
    ensures { record_of (fields_from name_of record_shape result.now) ≡ zone_shape }
{
    &[
        Field(Key::Name, Must, Kind::Text),
        Field(Key::Services, May, Kind::Map(Record::ZoneService)),
        Field(Key::TagServices, May, Kind::Texts),
        Field(Key::AdminUsers, May, Kind::Texts),
        Field(Key::AdminUserGroups, May, Kind::Texts),
        Field(Key::AdminRoles, May, Kind::Texts),
        Field(Key::AuditUsers, May, Kind::Texts),
        Field(Key::AuditUserGroups, May, Kind::Texts),
        Field(Key::AuditRoles, May, Kind::Texts),
    ]
}

/// A tag.
pub(crate) fn tag() -> Fields
    ensures { record_of (fields_from name_of record_shape result.now) ≡ tag_shape }
{
    &[
        Field(Key::Type, Must, Kind::Text),
        Field(Key::Attributes, May, Kind::Pairs),
    ]
}

/// A resource with its tags.
pub(crate) fn tag_row() -> Fields
    ensures { record_of (fields_from name_of record_shape result.now) ≡ tag_row_shape }
{
    &[
        Field(Key::Id, May, Kind::Integer),
        Field(Key::ServiceName, Must, Kind::Text),
        Field(
            Key::ResourceElements,
            May,
            Kind::Map(Record::PolicyResource),
        ),
        Field(Key::Tags, May, Kind::List(Record::Tag)),
    ]
}

/// The same among facts, which say the service themselves.
pub(crate) fn facts_tag_row() -> Fields
    ensures { record_of (fields_from name_of record_shape result.now) ≡ facts_tag_row_shape }
{
    &[
        Field(Key::Id, May, Kind::Integer),
        Field(Key::ServiceName, May, Kind::Text),
        Field(
            Key::ResourceElements,
            May,
            Kind::Map(Record::PolicyResource),
        ),
        Field(Key::Tags, May, Kind::List(Record::Tag)),
    ]
}

/// A time zone.
pub(crate) fn time_zone() -> Fields
    ensures { record_of (fields_from name_of record_shape result.now) ≡ time_zone_shape }
{
    &[
        Field(Key::Name, Must, Kind::Text),
        Field(Key::Rule, Must, Kind::Text),
    ]
}

/// Facts.
pub(crate) fn facts() -> Fields
    ensures { record_of (fields_from name_of record_shape result.now) ≡ facts_shape }
{
    &[
        Field(Key::Service, Must, Kind::Text),
        Field(Key::Fallback, May, Kind::Truth),
        Field(Key::ServiceDef, Must, Kind::Record(Record::ServiceDef)),
        Field(Key::TagServiceDef, May, Kind::Record(Record::ServiceDef)),
        Field(Key::Policies, May, Kind::List(Record::Policy)),
        Field(Key::TagPolicies, May, Kind::List(Record::Policy)),
        Field(Key::Zones, May, Kind::List(Record::Zone)),
        Field(Key::Roles, May, Kind::List(Record::Role)),
        Field(Key::Resources, May, Kind::List(Record::FactsTagRow)),
        Field(Key::TimeZones, May, Kind::List(Record::TimeZone)),
        Field(Key::PolicyVersion, May, Kind::Count),
        Field(Key::TagVersion, May, Kind::Count),
        Field(Key::RoleVersion, May, Kind::Count),
    ]
}

/// A service.
pub(crate) fn service() -> Fields
    ensures { record_of (fields_from name_of record_shape result.now) ≡ service_shape }
{
    &[
        Field(Key::Name, Must, Kind::Text),
        Field(Key::Type, Must, Kind::Text),
        Field(Key::TagService, May, Kind::Text),
        Field(Key::Fallback, May, Kind::Truth),
    ]
}

/// A user.
pub(crate) fn user() -> Fields
    ensures { record_of (fields_from name_of record_shape result.now) ≡ user_shape }
{
    &[
        Field(Key::Name, Must, Kind::Text),
        Field(Key::Groups, May, Kind::Texts),
    ]
}

/// What an administration starts from.
pub(crate) fn config() -> Fields
    ensures { record_of (fields_from name_of record_shape result.now) ≡ config_shape }
{
    &[
        Field(Key::Admins, May, Kind::Texts),
        Field(Key::Users, May, Kind::List(Record::User)),
        Field(Key::TimeZones, May, Kind::List(Record::TimeZone)),
        Field(Key::ServiceDefs, May, Kind::List(Record::ServiceDef)),
        Field(Key::Services, May, Kind::List(Record::Service)),
        Field(Key::Plugin, Must, Kind::Text),
    ]
}

/// A change of a policy.
pub(crate) fn policy_change() -> Fields
    ensures { record_of (fields_from name_of record_shape result.now) ≡ policy_change_shape }
{
    &[
        Field(Key::ChangeType, Must, Kind::Count),
        Field(Key::Policy, Must, Kind::Record(Record::Policy)),
        Field(Key::Tag, May, Kind::Truth),
    ]
}

/// The changes of a service's policies.
pub(crate) fn policy_delta() -> Fields
    ensures { record_of (fields_from name_of record_shape result.now) ≡ policy_delta_shape }
{
    &[
        Field(Key::From, Must, Kind::Count),
        Field(Key::To, Must, Kind::Count),
        Field(Key::Changes, May, Kind::List(Record::PolicyChange)),
        Field(Key::Zones, May, Kind::List(Record::Zone)),
    ]
}

/// All that the policy version of a service speaks of.
pub(crate) fn policy_whole() -> Fields
    ensures { record_of (fields_from name_of record_shape result.now) ≡ policy_whole_shape }
{
    &[
        Field(Key::Version, Must, Kind::Count),
        Field(Key::Fallback, May, Kind::Truth),
        Field(Key::Def, Must, Kind::Record(Record::ServiceDef)),
        Field(Key::TagDef, May, Kind::Record(Record::ServiceDef)),
        Field(Key::Policies, May, Kind::List(Record::Policy)),
        Field(Key::TagPolicies, May, Kind::List(Record::Policy)),
        Field(Key::Zones, May, Kind::List(Record::Zone)),
        Field(Key::TimeZones, May, Kind::List(Record::TimeZone)),
    ]
}

/// A change of a tag row.
pub(crate) fn tag_change() -> Fields
    ensures { record_of (fields_from name_of record_shape result.now) ≡ tag_change_shape }
{
    &[
        Field(Key::ChangeType, Must, Kind::Count),
        Field(Key::Row, Must, Kind::Record(Record::TagRow)),
    ]
}

/// The changes of a service's tag rows.
pub(crate) fn tag_delta() -> Fields
    ensures { record_of (fields_from name_of record_shape result.now) ≡ tag_delta_shape }
{
    &[
        Field(Key::From, Must, Kind::Count),
        Field(Key::To, Must, Kind::Count),
        Field(Key::Changes, May, Kind::List(Record::TagChange)),
    ]
}

/// All tag rows of a service.
pub(crate) fn tag_whole() -> Fields
    ensures { record_of (fields_from name_of record_shape result.now) ≡ tag_whole_shape }
{
    &[
        Field(Key::Version, Must, Kind::Count),
        Field(Key::Rows, May, Kind::List(Record::TagRow)),
    ]
}

/// All roles.
pub(crate) fn role_whole() -> Fields
    ensures { record_of (fields_from name_of record_shape result.now) ≡ role_whole_shape }
{
    &[
        Field(Key::Version, Must, Kind::Count),
        Field(Key::Roles, May, Kind::List(Record::Role)),
    ]
}
