// What a policy says by itself: whom its items name, what they grant, and the rules that read nothing else. The plain engine, the
// compiled one and the administration share it.
#![tactic(auto)]

mod accesses;
mod policy_rules;
mod subjects;

pub use accesses::any_grants;
pub use policy_rules::{
    all_among, entries_fit, is_custom, lists_fit, outcomes_fit, priority_fits, subjects_fit,
    type_fits,
};
pub use subjects::{
    Subjects, has_owner_word, has_user_word, is_owner, names, names_group, names_indexed_group,
    names_role,
};
