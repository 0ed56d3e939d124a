// Which policies and tag rows are asked about a resource: their resource maps, filed by the literal prefixes of their values.
#![tactic(auto)]

mod candidates;
mod checks;
mod form;
mod index;
mod keys;
mod laws;
mod level_trie;
mod origin;
mod seen;

pub use candidates::Candidates;
pub use checks::{forms_fit, ids_differ};
pub use form::Form;
pub use index::Index;
pub use laws::{candidates_are_of_forms, lying_forms_are_candidates};
