// Commands that are known from their numbers. Five after one another are about one row of each kind: they create a policy, put a user
// and a role, update the policy, and put a tag row. Each leaves its number in the row, as a name. Once there are as many rows as there
// may be, the next commands are about the first row again, and what was created then is updated now.
use std::alloc::{AllocError, Global};

const KINDS: u64 = 5;

/// A command, by its number, which is counted from 1.
#[derive(Clone, Copy)]
pub(crate) struct Command {
    pub(crate) number: u64,
    /// How many rows of each kind there are at most.
    pub(crate) rows: u64,
}

impl Command {
    /// How many rows the commands before this one were about.
    fn round(self) -> u64 {
        self.number.saturating_sub(1) / KINDS
    }

    /// The row that it is about, counted from 1.
    fn row(self) -> u64 {
        (self.round() % self.rows.max(1)).saturating_add(1)
    }

    /// The number of the command that is so far behind this one in an earlier round over all rows.
    fn earlier(self, behind: u64) -> u64 {
        self.number
            .saturating_add(behind)
            .saturating_sub(self.rows.saturating_mul(KINDS))
    }

    fn policy(self, alloc: Global, word: &str, users: &str) -> Result<String, AllocError> {
        let row = self.row();
        format!(in alloc;
            "{{\"command\":\"{word}\",\"policy\":{{\"id\":{row},\"service\":\"hive1\",\"name\":\"p{row}\",\"resources\":{{\"database\":{{\"values\":[\"d{row}\"]}}}},\"policyItems\":[{{\"users\":[{users}],\"accesses\":[{{\"type\":\"select\"}}]}}]}}}}"
        )
    }

    /// Creates the row's policy.
    fn create(self, alloc: Global) -> Result<String, AllocError> {
        let number = self.number;
        let users = format!(in alloc; "\"{number}\"")?;
        self.policy(alloc, "createPolicy", users.as_str())
    }

    /// Updates the row's policy, and leaves this other number in it.
    fn update(self, alloc: Global, other: u64) -> Result<String, AllocError> {
        let number = self.number;
        let users = format!(in alloc; "\"{other}\",\"{number}\"")?;
        self.policy(alloc, "updatePolicy", users.as_str())
    }

    fn put_user(self, alloc: Global) -> Result<String, AllocError> {
        let (number, row) = (self.number, self.row());
        format!(in alloc;
            "{{\"command\":\"putUser\",\"user\":{{\"name\":\"u{row}\",\"groups\":[\"{number}\"]}}}}"
        )
    }

    fn put_role(self, alloc: Global) -> Result<String, AllocError> {
        let (number, row) = (self.number, self.row());
        format!(in alloc;
            "{{\"command\":\"putRole\",\"role\":{{\"name\":\"r{row}\",\"users\":[\"{number}\"]}}}}"
        )
    }

    fn put_tags(self, alloc: Global) -> Result<String, AllocError> {
        let (number, row) = (self.number, self.row());
        format!(in alloc;
            "{{\"command\":\"putTags\",\"id\":{row},\"row\":{{\"serviceName\":\"hive1\",\"resourceElements\":{{\"database\":{{\"values\":[\"d{row}\"]}}}},\"tags\":[{{\"type\":\"{number}\"}}]}}}}"
        )
    }

    /// The command in JSON.
    fn text(self, alloc: Global) -> Result<String, AllocError> {
        match self.number.saturating_sub(1) % KINDS {
            0 if self.round() < self.rows => self.create(alloc),
            0 => self.update(alloc, self.earlier(3)),
            1 => self.put_user(alloc),
            2 => self.put_role(alloc),
            3 => self.update(alloc, self.number.saturating_sub(3)),
            _ => self.put_tags(alloc),
        }
    }

    /// What the administrator asks.
    pub(crate) fn ask(self, alloc: Global) -> Result<String, AllocError> {
        let text = self.text(alloc)?;
        let command = text.as_str();
        format!(in alloc; "{{\"actor\":\"root\",\"command\":{command}}}")
    }
}
