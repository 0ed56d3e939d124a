// One client of an HTTP/1.1 service: a question over a link, and its reply.
#![tactic(auto)]

mod client;
mod fault;
mod heads;
mod laws;
mod plain;
mod question;
mod reading;
mod rules;
mod tcp;

pub use client::Client;
pub use fault::ClientFault;
pub use laws::replies_are_one;
pub use plain::is_plain;
pub use question::Question;
pub use tcp::connect;
