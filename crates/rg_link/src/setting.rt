// What surrounds the sessions of a worker.
use rg_ports::Gate;
use rg_rest::Router;
use rg_session::{Admin, Bell, Recorder};
use rg_turn::Turn;
use std::alloc::Global;

/// What a worker decides in.
#[derive(Drop)]
pub struct Deciding<'g, 'p, G> {
    pub alloc: Global,
    pub gate: &'g G,
    /// The plugin's service.
    pub plugin: &'p str,
    /// The worker's number, from 0 on.
    pub worker: u32,
}

/// What a worker answers links in.
#[derive(Drop)]
pub struct Setting<'s, P: Recorder, G, R> {
    pub rt: &'s R,
    pub turn: &'s Turn<Admin<P>>,
    /// Rung after each change that a plugin may see.
    pub bell: &'s Bell,
    pub router: &'s Router,
    pub deciding: Deciding<'s, 's, G>,
}

impl<'s, P: Recorder, G: Gate, R> Setting<'s, P, G, R> {
    pub(crate) fn alloc(&self) -> Global {
        self.deciding.alloc
    }
}
