// The routes of the HTTP interface: what a message asks, and what is answered.
#![tactic(auto)]

mod asks;
mod bodies;
mod call;
mod fault_text;
mod path;
mod query;
mod response;
mod route;
mod router;
mod split;

pub use bodies::{answer, no_path};
pub use call::Call;
pub use response::{AnswerForm, decision_response, reply_response, response_of};
pub use router::Router;
