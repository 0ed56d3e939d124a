// What ties publications to the history: a refresh, the bell that wakes for it, and the end of both.
#![tactic(auto)]

mod bell;
mod closing;
mod document;
mod laws;
mod leading;
mod opening;
mod refresher;
mod settling;

pub use bell::Bell;
pub use closing::{Totals, close};
pub use document::is_unchanged;
pub use laws::{documents_lead, downloaded_lists_stay, first_is_right, right_lists_stay_right};
pub use leading::{lead, lead_facts};
pub use opening::{Service, open};
pub use refresher::{Refresh, Refresher};
pub use rg_admin::{Admin, Recorder, StartFault, Unkept};
pub use settling::Ahead;
