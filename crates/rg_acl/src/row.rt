// A row of a report.
use rg_base::Text;
use rg_facts::Verdict;

/// What a row is for.
#[derive(Clone, Copy, Debug, PartialEq, Eq)]
pub enum SubjectKind {
    User,
    Group,
    Role,
    /// Whoever isn't named, and is in no group.
    Other,
}

/// What is decided for a subject and an access.
pub struct ReportRow {
    pub kind: SubjectKind,
    /// The user's, the group's or the role's name; empty for all others.
    pub name: Text,
    /// The name of an access type.
    pub access: Text,
    pub verdict: Verdict,
}

impl Drop for ReportRow {
    fn drop(self) {
        let Self {
            kind: _,
            name: _,
            access: _,
            verdict: _,
        } = self;
    }
}
