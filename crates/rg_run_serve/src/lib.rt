// The command `serve`: a script of one configuration and commands of the administration, and then links.
#![tactic(auto)]

mod preparing;
mod serving;

pub use serving::{Service, serve_script};
