// What tells how a plugin stands.
use rg_base::Moment;
use rg_health::Health;

/// What tells how a plugin stands.
pub trait Standing: Sync {
    /// How it stands at this moment.
    fn health(&self, now: Moment) -> Health;
}
