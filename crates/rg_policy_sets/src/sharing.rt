// Sets cross threads.
use crate::policies::PolicySet;
use crate::rows::RowSet;
use std::marker::{Send, Sync};

fn may_be_shared<T: Send + Sync>(_value: &T) {}

/// Sets may go to another thread, and threads may share them. The call does nothing.
pub fn sets_may_be_shared(policies: &PolicySet, rows: &RowSet) {
    may_be_shared(policies);
    may_be_shared(rows);
}
