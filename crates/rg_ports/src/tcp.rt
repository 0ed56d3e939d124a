// Links over the network. These forms tell no content: which bytes pass through them is trusted.
ghost use Rattle.std.specs.Prelude.{◌≡◌, ◌-◌, ◌^◌, false, min, IfOk};
ghost use Rattle.rg_ports.specs.Machine.{NetState, ReaderState};

use crate::connection::Connection;
use crate::counter::Counter;
use crate::machine::Watched;
use crate::ports::{Link, Listener};
use rg_base::Failed;
use std::io::{ErrorKind, Read, Write};
use std::marker::Model;
use std::net::{Net, TcpListener, TcpStream};
use std::rt;
use std::time::Duration;

/// A link over a stream, which is closed where the link is dropped. It tells no bytes: that the stream gives those of the
/// client, 0 for a room that isn't empty at their end alone, and hands on those that it takes is trusted.
#[derive(Drop)]
pub struct TcpLink<S: Read + Write + Drop> {
    stream: S,
    watched: Watched,
}

impl<S: Read + Write + Drop> Model for TcpLink<S> {
    ghost use Rattle.rg_ports.specs.Machine.{ReaderState};

    ghost Value = { ReaderState };

    ghost view = { λ l. l.watched };
}

impl<S: Read + Write + Drop> TcpLink<S> {
    /// Over this stream.
    pub fn new(stream: S) -> TcpLink<S>
        ensures { result ≡ record { ended = false; faults = 0 } }
    {
        TcpLink {
            stream,
            watched: Watched::new(),
        }
    }

    /// How many calls failed; from the last `u64` on the number stands still.
    pub fn failures(&self) -> u64
        ensures { result ≡ min self.now.faults (2 ^ 64 - 1) }
    {
        self.watched.failures()
    }
}

impl<S: Read + Write + Send + Drop> Link for TcpLink<S> {
    ghost use Rattle.std.specs.Prelude.{None};

    ghost left = { λ l. None };

    ghost held = { λ l. None };

    ghost ended = { λ l. l.ended };

    ghost faults = { λ l. l.faults };

    fn read(&mut self, room: &mut [u8]) -> Result<usize, Failed> {
        self.watched.read(&mut self.stream, room)
    }

    fn write(&mut self, piece: &[u8]) -> Result<usize, Failed> {
        self.watched.write(&mut self.stream, piece)
    }
}

/// How many seconds a read or a write of a link waits for its client at most. One that takes longer fails.
const PATIENCE: u64 = 30;

// Sets the time limit of reads and writes, and has each answer leave at once: where requests come without waiting for answers, the
// second answer would wait until the first is acknowledged, which clients put off. A connection that its client has reset already
// refuses it, and fails at its first call.
fn prepared(stream: TcpStream) -> TcpStream {
    let limit = Some(Duration::from_secs(PATIENCE));
    let _ = stream.set_read_timeout(limit);
    let _ = stream.set_write_timeout(limit);
    let _ = stream.set_nodelay(true);
    stream
}

// Waits for the next connection. One that a signal interrupts, or that its client gives up before it is accepted, is passed
// over; such ones without end are a failure.
fn next_stream(listener: &TcpListener) -> Result<TcpStream, Failed> {
    for _ in 0..u64::MAX {
        match listener.accept() {
            Ok((stream, _)) => return Ok(prepared(stream)),
            Err(error) if is_passed_over(error.kind()) => {}
            Err(_) => return Err(Failed),
        }
    }
    Err(Failed)
}

fn is_passed_over(kind: ErrorKind) -> bool {
    matches!(kind, ErrorKind::Interrupted | ErrorKind::ConnectionAborted)
}

/// A listener over the network. It never ends, and tells nothing of its links: that they are those of its clients is trusted.
#[derive(Drop)]
pub struct TcpNet<R: Net<Listener = TcpListener, Stream = TcpStream> + rt::Clock + Copy + Send> {
    net: R,
    listener: Option<TcpListener>,
    given: Counter,
    faults: Counter,
}

impl<R: Net<Listener = TcpListener, Stream = TcpStream> + rt::Clock + Copy + Send> Model
    for TcpNet<R> {
    ghost use Rattle.rg_ports.specs.Machine.{NetState};

    ghost Value = { NetState };

    ghost view = { λ n. record { given = n.given; faults = n.faults } };
}

impl<R: Net<Listener = TcpListener, Stream = TcpStream> + rt::Clock + Copy + Send> TcpNet<R> {
    /// Over this network, listening nowhere.
    pub fn new(net: R) -> TcpNet<R>
        ensures { result ≡ record { given = 0; faults = 0 } }
    {
        TcpNet {
            net,
            listener: None,
            given: Counter::zero(),
            faults: Counter::zero(),
        }
    }

    /// How many calls failed; from the last `u64` on the number stands still.
    pub fn failures(&self) -> u64
        ensures { result ≡ min self.now.faults (2 ^ 64 - 1) }
    {
        self.faults.seen()
    }
}

impl<R: Net<Listener = TcpListener, Stream = TcpStream> + rt::Clock + Copy + Send> Listener
    for TcpNet<R> {
    type Link = TcpLink<Connection<R>>;

    ghost use Rattle.std.specs.Prelude.{false};

    ghost given = { λ n. n.given };

    ghost ended = { λ n. false };

    ghost faults = { λ n. n.faults };

    /// The address is a host or an IP address, and a port, as `127.0.0.1:6080`. Of two calls the later counts.
    fn listen(&mut self, address: &str) -> Result<(), Failed> {
        match TcpListener::bind(&self.net, address) {
            Ok(listener) => {
                self.listener = Some(listener);
                Ok(())
            }
            Err(_) => {
                self.faults.add();
                Err(Failed)
            }
        }
    }

    /// Waits for the next client. It fails too where nothing listens yet.
    fn accept(&mut self) -> Result<Option<TcpLink<Connection<R>>>, Failed> {
        let accepted = match &self.listener {
            Some(listener) => next_stream(listener),
            None => Err(Failed),
        };
        match accepted {
            Ok(stream) => {
                self.given.add();
                Ok(Some(TcpLink::new(Connection::new(stream, self.net))))
            }
            Err(failed) => {
                self.faults.add();
                Err(failed)
            }
        }
    }
}
