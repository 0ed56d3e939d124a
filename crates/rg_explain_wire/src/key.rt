// The names of the fields of a printed explanation.
ghost use Rattle.std.specs.Prelude.{◌≡◌};

use rg_json::Name;

/// The fields of a printed explanation.
#[derive(Clone, Copy)]
pub(crate) enum Key {
    Access,
    AccessTime,
    AccessType,
    Allow,
    AllowException,
    By,
    Cell,
    ClientAddress,
    Context,
    Deny,
    DenyException,
    Elements,
    FarOff,
    Filter,
    Id,
    Is,
    Item,
    Items,
    Level,
    Map,
    Maps,
    Mask,
    Name,
    OwnerUser,
    Path,
    Policies,
    PolicyId,
    Request,
    Resource,
    Roles,
    RowFilter,
    Rows,
    Tag,
    Tags,
    Unmet,
    User,
    UserGroups,
    Zone,
}

impl Name for Key {
    ghost use Rattle.rg_explain_wire.specs.Printing.{name_of};

    ghost name_of = { name_of };

    #[tactic(auto, unfolding(crate::specs::Printing::name_of))]
    fn name(self) -> &'static str {
        match self {
            Key::Access => "access",
            Key::AccessTime => "accessTime",
            Key::AccessType => "accessType",
            Key::Allow => "allow",
            Key::AllowException => "allowException",
            Key::By => "by",
            Key::Cell => "cell",
            Key::ClientAddress => "clientIPAddress",
            Key::Context => "context",
            Key::Deny => "deny",
            Key::DenyException => "denyException",
            Key::Elements => "elements",
            Key::FarOff => "farOff",
            Key::Filter => "filter",
            Key::Id => "id",
            Key::Is => "is",
            Key::Item => "item",
            Key::Items => "items",
            Key::Level => "level",
            Key::Map => "map",
            Key::Maps => "maps",
            Key::Mask => "mask",
            Key::Name => "name",
            Key::OwnerUser => "ownerUser",
            Key::Path => "path",
            Key::Policies => "policies",
            Key::PolicyId => "policyId",
            Key::Request => "request",
            Key::Resource => "resource",
            Key::Roles => "roles",
            Key::RowFilter => "rowFilter",
            Key::Rows => "rows",
            Key::Tag => "tag",
            Key::Tags => "tags",
            Key::Unmet => "unmet",
            Key::User => "user",
            Key::UserGroups => "userGroups",
            Key::Zone => "zone",
        }
    }
}
