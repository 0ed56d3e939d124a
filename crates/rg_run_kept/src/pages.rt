// The pages on health and metrics.
ghost use Rattle.std.specs.Prelude.{◌≡◌, ◌≢◌, IfErr};

use crate::watch::Seen;
use rg_metrics::{Metrics, serve_pages};
use rg_ports::{Listener, TcpNet, WallClock};
use rg_run_script::Status;
use std::sync::Arc;
use std::thread;
use std::thread::Threads;

/// Serves the pages over these links, on a thread of its own.
fn start_thread<R: Threads>(
    host: HostRuntime,
    threads: &R,
    net: TcpNet<HostRuntime>,
    metrics: Arc<Metrics>,
    seen: Seen,
) -> Result<(), Status>
    ensures { IfErr result (λ status. status ≡ Status.NoMemory) }
{
    match thread::spawn(threads, move || {
        let mut net = net;
        serve_pages(
            &host,
            host.alloc(),
            &mut net,
            &mut WallClock(host),
            &metrics,
            &seen,
        );
    }) {
        Ok(_) => Ok(()),
        Err(_) => Err(Status::NoMemory),
    }
}

/// Serves the pages at the address, on a thread of its own that goes on until the program ends: a check isn't queued behind busy links.
pub(crate) fn start_pages<R: Threads>(
    rt: &HostRuntime,
    threads: &R,
    address: &str,
    metrics: Arc<Metrics>,
    seen: Seen,
) -> Result<(), Status>
    ensures { IfErr result (λ status. status ≢ Status.Usage) }
{
    let mut net = TcpNet::new(*rt);
    if net.listen(address).is_err() {
        return Err(Status::NetFault);
    }
    start_thread(*rt, threads, net, metrics, seen)
}
