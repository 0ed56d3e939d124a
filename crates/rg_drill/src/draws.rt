// The draws of the workload, in the order in which they are made.
ghost use Rattle.std.specs.Prelude.{◌≡◌, ◌<◌};
ghost use Rattle.rg_drill.specs.Draws.{draw, policy_draws, request_draws, stepped, table_draw};

use std::marker::Model;

const FACTOR: u64 = 6_364_136_223_846_793_005;

const SUMMAND: u64 = 1_442_695_040_888_963_407;
// The low bits of such a number repeat soon, so that they are left out.
const LOW: u64 = 8_589_934_592;

/// What was drawn for a policy.
#[derive(Clone, Copy)]
pub(crate) struct PolicyDraws {
    /// The number of its database.
    pub(crate) database: u64,
    /// Whether its table is a prefix.
    pub(crate) is_prefix: bool,
    pub(crate) overrides: bool,
    /// The number of its user.
    pub(crate) user: u64,
    /// Whether it is for all accesses, and not for select alone.
    pub(crate) is_for_all: bool,
    pub(crate) denies: bool,
}

/// What was drawn for a request: the numbers of its user, database and table.
#[derive(Clone, Copy)]
pub(crate) struct RequestDraws {
    pub(crate) user: u64,
    pub(crate) database: u64,
    pub(crate) table: u64,
}

/// A number that each draw moves on.
#[derive(Drop)]
pub(crate) struct Draws {
    pub(crate) number: u64,
}

impl Model for Draws {
    ghost use Rattle.std.specs.Prelude.{ℕ};

    ghost Value = { ℕ };

    ghost view = { λ d. d.number };
}

impl Draws {
    #[tactic(auto, using(crate::proofs::Steps::cut_once), unfolding(crate::specs::Draws::stepped))]
    fn step(&mut self)
        ensures { self.new ≡ stepped self.old }
    {
        self.number = self.number.wrapping_mul(FACTOR).wrapping_add(SUMMAND);
    }

    /// One of the numbers below `count`.
    #[tactic(auto, unfolding(crate::specs::Draws::draw))]
    fn draw(&mut self, count: u64) -> u64
        requires { 0 < count }
        ensures value { result ≡ (draw count self.old).value }
        ensures next { self.new ≡ (draw count self.old).next }
        ensures below { result < count }
    {
        self.step();
        self.number / LOW % count
    }

    #[tactic(auto, unfolding(crate::specs::Draws::policy_draws))]
    pub(crate) fn for_policy(&mut self) -> PolicyDraws
        ensures value { result ≡ (policy_draws self.old).value }
        ensures next { self.new ≡ (policy_draws self.old).next }
    {
        let database = self.draw(50);
        let ending = self.draw(4);
        let priority = self.draw(16);
        let user = self.draw(100);
        let access = self.draw(2);
        let list = self.draw(8);
        PolicyDraws {
            database,
            is_prefix: ending == 0,
            overrides: priority == 0,
            user,
            is_for_all: access == 0,
            denies: list == 0,
        }
    }

    // The number of a policy's table; 1 without a draw where there are no policies.
    #[tactic(auto, unfolding(crate::specs::Draws::table_draw))]
    fn table(&mut self, policies: u32) -> u64
        ensures value { result ≡ (table_draw policies self.old).value }
        ensures next { self.new ≡ (table_draw policies self.old).next }
    {
        if policies == 0 {
            return 1;
        }
        1 + self.draw(u64::from(policies))
    }

    #[tactic(auto, unfolding(crate::specs::Draws::request_draws))]
    pub(crate) fn for_request(&mut self, policies: u32) -> RequestDraws
        ensures value { result ≡ (request_draws policies self.old).value }
        ensures next { self.new ≡ (request_draws policies self.old).next }
    {
        let asker = self.draw(100);
        let database = self.draw(50);
        let table = self.table(policies);
        RequestDraws {
            user: asker,
            database,
            table,
        }
    }
}
