// The numbers that commands have left in a state.
use rg_base::Text;
use rg_cmd::{State, UserRow};
use rg_policy::{Item, Policy, Tag};
use rg_roles::RoleRow;
use rg_shared::Shared;
use rg_tags::TagRow;

/// How many they are, their sum, and the sum of their squares.
#[derive(Clone, Copy)]
pub(crate) struct Marks {
    pub(crate) count: u64,
    pub(crate) sum: u64,
    pub(crate) squares: u64,
}

impl Marks {
    pub(crate) fn of(state: &State) -> Marks {
        let mut marks = Marks {
            count: 0,
            sum: 0,
            squares: 0,
        };
        marks.add_policies(state.policies.as_slice());
        marks.add_users(state.users.as_slice());
        marks.add_roles(state.roles.as_slice());
        marks.add_tag_rows(state.tag_rows.as_slice());
        marks
    }

    /// Adds the number of a name, where it is one.
    fn add(&mut self, name: &Text) {
        let Ok(number) = name.as_str().parse::<u64>() else {
            return;
        };
        self.count = self.count.saturating_add(1);
        self.sum = self.sum.saturating_add(number);
        self.squares = self.squares.saturating_add(number.saturating_mul(number));
    }

    fn add_all(&mut self, names: &[Text]) {
        for name in names {
            self.add(name);
        }
    }

    fn add_items(&mut self, items: &[Item]) {
        for item in items {
            self.add_all(item.users.as_slice());
        }
    }

    fn add_policies(&mut self, policies: &[Shared<Policy>]) {
        for policy in policies {
            self.add_items(policy.items.as_slice());
        }
    }

    fn add_users(&mut self, users: &[UserRow]) {
        for user in users {
            self.add_all(user.groups.as_slice());
        }
    }

    fn add_roles(&mut self, roles: &[RoleRow]) {
        for role in roles {
            self.add_all(role.users.as_slice());
        }
    }

    fn add_tags(&mut self, tags: &[Tag]) {
        for tag in tags {
            self.add(&tag.kind);
        }
    }

    fn add_tag_rows(&mut self, rows: &[TagRow]) {
        for row in rows {
            self.add_tags(row.tags.as_slice());
        }
    }
}
