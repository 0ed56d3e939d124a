// What is told of a request.
use rg_base::{PolicyId, Seq, Text};
use rg_facts::{Decision, Verdict};
use rg_standing::{Standing, Subject};

/// Where the resource of the request lies.
pub struct InZone {
    /// The zone's name.
    pub zone: Text,
    /// The place, among the zone's resource maps for the service, of the first that reaches down to the resource. A zone in which
    /// a resource lies has one.
    pub map: Option<usize>,
}

impl Drop for InZone {
    fn drop(self) {
        let Self { zone: _, map: _ } = self;
    }
}

/// A role that holds the user.
pub struct HeldBy {
    pub role: Text,
    /// The first of its users, groups and roles that is the user. One that is a role holds the user too, so that its own reason
    /// leads on.
    pub by: Option<Subject>,
}

impl Drop for HeldBy {
    fn drop(self) {
        let Self { role: _, by: _ } = self;
    }
}

/// A tag row that reaches down to the resource of the request, with its tags.
pub struct TaggedBy {
    pub row: i64,
    pub tags: Seq<Text>,
}

impl Drop for TaggedBy {
    fn drop(self) {
        let Self { row: _, tags: _ } = self;
    }
}

/// A policy that the zone chooses: how it stands to the request, a tag policy for one tag.
pub struct Told {
    pub policy: PolicyId,
    pub name: Text,
    /// The tag that a tag policy is asked for.
    pub tag: Option<Text>,
    /// The cell in which it stands, from 1 to 8.
    pub cell: Option<u8>,
    pub standing: Standing,
}

impl Drop for Told {
    fn drop(self) {
        let Self {
            policy: _,
            name: _,
            tag: _,
            cell: _,
            standing: _,
        } = self;
    }
}

/// Why a request is decided as it is.
pub struct Explanation {
    /// The zone in which the resource lies.
    pub zone: Option<InZone>,
    /// The roles that hold the user.
    pub roles: Seq<HeldBy>,
    /// Where the tags of the resource come from.
    pub rows: Seq<TaggedBy>,
    /// The policies that the zone chooses: those of the tag service for each tag, then those of the service.
    pub policies: Seq<Told>,
    /// The cell that decides.
    pub cell: Option<u8>,
    /// The decision in numbers, with the items of row filter and mask.
    pub verdict: Verdict,
    pub decision: Decision,
}

impl Drop for Explanation {
    fn drop(self) {
        let Self {
            zone: _,
            roles: _,
            rows: _,
            policies: _,
            cell: _,
            verdict: _,
            decision: _,
        } = self;
    }
}
