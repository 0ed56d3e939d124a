// Engines cross threads.
use crate::engine::Engine;
use std::marker::{Send, Sync};

fn may_be_shared<T: Send + Sync>(_value: &T) {}

/// An engine may go to another thread, and threads may share it. The call does nothing.
pub fn engine_may_be_shared(engine: &Engine) {
    may_be_shared(engine);
}
