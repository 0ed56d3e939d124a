// What makes facts unsound.
use rg_base::PolicyId;
use rg_roles::RoleFault;

/// What makes facts unsound. A rule stands by its number. Places are counted from 0.
#[derive(Clone, Copy, Debug, PartialEq, Eq)]
pub enum Unsound {
    /// A version is past 2^62.
    Version,
    /// A rule of S1 to S8 fails for the service definition.
    Definition(u8),
    /// A rule of S1 to S8 fails for the tag definition.
    TagDefinition(u8),
    /// The tag definition isn't named `tag`.
    TagName,
    /// There are tag policies without a tag definition.
    NoTagDefinition,
    /// The id of a policy isn't positive, or two policies have one id.
    PolicyIds,
    /// A role's name stands twice, a role isn't there, or roles go in a circle.
    Roles(RoleFault),
    /// A rule of V3 to V12 and V14 fails for the policy of this id.
    Policy(PolicyId, u8),
    /// A rule of Z2 to Z5 fails for the zone at this place.
    Zone(usize, u8),
    /// The zones at these places overlap (rule Z6).
    Overlap(u32, u32),
    /// Rule G2 or G3 fails for the tag row of this id.
    TagRow(i64, u8),
    /// Two tag rows have one id.
    TagRowIds,
    /// The rule of the time zone at this place doesn't read.
    TimeZone(u32),
}
