// What runs beside the workers. Its thread knows no more of it than this, so that it may rest on anything.
use std::sync::Wait;

/// Does something beside the workers until it is told to stop.
pub trait Watcher {
    /// Whether it may be called.
    ghost can_watch: { Self → Type 0 };

    /// Works until it is told to stop.
    fn watch<W: Wait + Sync>(&self, rt: &W)
        requires { can_watch self.now };

    /// Tells it to stop.
    fn stop<W: Wait + Sync>(&self, rt: &W);
}
