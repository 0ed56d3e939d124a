// How far resources reach.

/// How far down resources reach.
#[derive(Clone, Copy, Debug, PartialEq, Eq)]
pub enum Reach {
    /// A request that names a further level is not matched, as with the resources of a policy.
    Exact,
    /// What lies below is matched too, as with the resources of tag rows and zones.
    Down,
}
