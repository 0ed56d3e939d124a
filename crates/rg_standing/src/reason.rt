// What is told of a policy.
use rg_base::{Seq, Text};

/// Why a resource map of a policy doesn't lie on what is asked about.
#[derive(Drop)]
pub enum Miss {
    /// The first level of the map that doesn't match.
    Level(Text),
    /// All levels match, and this is the first level that is asked about and that the map lacks.
    Beyond(Text),
    /// The levels of both don't lie on one path, or no level is asked about.
    Apart,
}

/// Why a subject of an item is the asker.
#[derive(Drop)]
pub enum Subject {
    /// By `{USER}`.
    EveryUser,
    /// By `{OWNER}`.
    Owner,
    /// By name.
    User,
    /// By this group of the asker's.
    Group(Text),
    /// By the group `public`.
    Everybody,
    /// By this role, which holds the asker.
    Role(Text),
}

/// The first item of a list that matches.
pub struct Match {
    /// Its place in the list, counted from 0.
    pub item: usize,
    /// The first subject that is the asker. An item that matches has one.
    pub subject: Option<Subject>,
}

impl Drop for Match {
    fn drop(self) {
        let Self {
            item: _,
            subject: _,
        } = self;
    }
}

/// The first item of each list that matches.
pub struct Matches {
    pub allow: Option<Match>,
    pub deny: Option<Match>,
    pub allow_exception: Option<Match>,
    pub deny_exception: Option<Match>,
    pub mask: Option<Match>,
    pub filter: Option<Match>,
}

impl Drop for Matches {
    fn drop(self) {
        let Self {
            allow: _,
            deny: _,
            allow_exception: _,
            deny_exception: _,
            mask: _,
            filter: _,
        } = self;
    }
}

/// Whether a policy is in play, and the first thing that keeps it out.
#[derive(Drop)]
pub enum Standing {
    /// No value that is asked about is matched by a level of the policy.
    FarOff,
    Disabled,
    /// No schedule contains the moment.
    Unscheduled,
    /// No resource map lies on what is asked about: what keeps out each.
    Elsewhere(Seq<Miss>),
    /// The first condition that doesn't hold, by name.
    Unmet(Text),
    InPlay(Matches),
}
