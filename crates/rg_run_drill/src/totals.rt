// What a drill counts.

/// The numbers of a drill.
#[derive(Clone, Copy, Debug, PartialEq, Eq)]
pub struct Totals {
    /// How many policies were created.
    pub policies: u32,
    /// How many publications there were, the first one included.
    pub publications: u64,
    /// How many policies were compiled.
    pub compiles: u64,
    /// How often an index was edited.
    pub edits: u64,
    /// How many requests were decided.
    pub requests: u32,
    pub allowed: u32,
    pub denied: u32,
    pub undetermined: u32,
    /// How often a policy or a tag row was tried against a request.
    pub tries: u64,
}
