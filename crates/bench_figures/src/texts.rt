// The JSON of what is configured, commanded and asked: a service whose policies lie on a table each.
use std::alloc::{AllocError, Global};

/// A service with one definition, and an administrator.
pub(crate) const CONFIG: &str =
    r#"{"admins":["root"],"plugin":"hive1","serviceDefs":[{"name":"hive","resources":[{"name":"database","level":10},{"name":"table","level":20,"parent":"database"},{"name":"column","level":30,"parent":"table"}],"accessTypes":[{"name":"select"},{"name":"update"}]}],"services":[{"name":"hive1","type":"hive"}]}"#;

/// The service.
pub(crate) const SERVICE: &str = "hive1";

/// Databases that the tables are spread over.
const DATABASES: u32 = 50;

/// Users whom the policies allow, one each.
const USERS: u32 = 100;

/// A policy on a table of its own.
#[derive(Clone, Copy)]
pub(crate) struct Draft {
    /// The id of the policy in whose place it comes; 0 where it is a new one.
    pub(crate) id: u32,
    /// The number of its table, and of its name.
    pub(crate) number: u32,
    /// The number of the user whom it allows.
    pub(crate) user: u32,
}

impl Draft {
    /// A new policy on the table of this number.
    pub(crate) fn new(number: u32) -> Draft {
        Draft {
            id: 0,
            number,
            user: user_of(number),
        }
    }
}

/// The user whom the policy on the table of this number allows, while it stands as it was created.
pub(crate) fn user_of(number: u32) -> u32 {
    number % USERS
}

pub(crate) fn policy(alloc: Global, draft: Draft) -> Result<String, AllocError> {
    let Draft { id, number, user } = draft;
    let database = number % DATABASES;
    format!(in alloc;
        "{{\"id\":{id},\"service\":\"hive1\",\"name\":\"p{number}\",\"resources\":{{\"database\":{{\"values\":[\"db{database}\"]}},\"table\":{{\"values\":[\"t{number}\"]}},\"column\":{{\"values\":[\"*\"]}}}},\"policyItems\":[{{\"users\":[\"u{user}\"],\"accesses\":[{{\"type\":\"select\"}}]}}]}}"
    )
}

/// The command that creates the policy, or puts it into the place of another.
pub(crate) fn command(alloc: Global, draft: Draft) -> Result<String, AllocError> {
    let command = if draft.id == 0 {
        "createPolicy"
    } else {
        "updatePolicy"
    };
    let policy = policy(alloc, draft)?;
    format!(in alloc;
        "{{\"command\":\"{command}\",\"policy\":{}}}",
        policy.as_str()
    )
}

/// A request for a column of the table of this number.
pub(crate) fn request(alloc: Global, number: u32, user: u32) -> Result<String, AllocError> {
    let database = number % DATABASES;
    format!(in alloc;
        "{{\"user\":\"u{user}\",\"resource\":{{\"elements\":{{\"database\":\"db{database}\",\"table\":\"t{number}\",\"column\":\"c\"}}}},\"accessType\":\"select\",\"accessTime\":0}}"
    )
}
