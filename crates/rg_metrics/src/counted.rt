// Links over the network whose answers are counted.
ghost use Rattle.std.specs.Prelude.{◌≡◌};

use crate::metrics::Metrics;
use rg_base::Failed;
use rg_ports::{Connection, Link, Listener, TcpLink, TcpNet};
use std::io::{Read, Write};
use std::marker::Model;
use std::net::{Net, TcpListener, TcpStream};
use std::rt;
use std::sync::Arc;

/// A link that counts the answers which are written to it. It is as the link that it counts.
#[derive(Drop)]
pub struct CountedLink<S: Read + Write + Drop> {
    link: TcpLink<S>,
    metrics: Option<Arc<Metrics>>,
    /// How many bytes of the answer that was begun are still to be written.
    left: usize,
}

impl<S: Read + Write + Drop> Model for CountedLink<S> {
    ghost use Rattle.rg_ports.specs.Machine.{ReaderState};

    ghost Value = { ReaderState };

    ghost view = { λ l. l.link };
}

impl<S: Read + Write + Drop> CountedLink<S> {
    /// So many bytes were taken of this piece. An answer is written by pieces, of which the first has all of it.
    fn note(&mut self, piece: &[u8], taken: usize)
        ensures { self.new ≡ self.old }
    {
        if self.left == 0 {
            self.left = piece.len();
            if let Some(metrics) = &self.metrics {
                metrics.add_answer(piece);
            }
        }
        self.left = self.left.saturating_sub(taken);
    }
}

impl<S: Read + Write + Send + Drop> Link for CountedLink<S> {
    ghost use Rattle.std.specs.Prelude.{None};

    ghost left = { λ l. None };

    ghost held = { λ l. None };

    ghost ended = { λ l. l.ended };

    ghost faults = { λ l. l.faults };

    fn read(&mut self, room: &mut [u8]) -> Result<usize, Failed> {
        self.link.read(room)
    }

    fn write(&mut self, piece: &[u8]) -> Result<usize, Failed> {
        let taken = self.link.write(piece)?;
        self.note(piece, taken);
        Ok(taken)
    }
}

/// A listener that counts its links and their answers. It is as the listener that it counts.
#[derive(Drop)]
pub struct CountedNet<
    R: Net<Listener = TcpListener, Stream = TcpStream> + rt::Clock + Copy + Send,
> {
    net: TcpNet<R>,
    metrics: Arc<Metrics>,
}

impl<R: Net<Listener = TcpListener, Stream = TcpStream> + rt::Clock + Copy + Send> Model
    for CountedNet<R> {
    ghost use Rattle.rg_ports.specs.Machine.{NetState};

    ghost Value = { NetState };

    ghost view = { λ n. n.net };
}

impl<R: Net<Listener = TcpListener, Stream = TcpStream> + rt::Clock + Copy + Send> CountedNet<R> {
    /// Over this listener.
    pub fn new(net: TcpNet<R>, metrics: Arc<Metrics>) -> CountedNet<R>
        ensures { result ≡ net }
    {
        CountedNet { net, metrics }
    }
}

impl<R: Net<Listener = TcpListener, Stream = TcpStream> + rt::Clock + Copy + Send> Listener
    for CountedNet<R> {
    type Link = CountedLink<Connection<R>>;

    ghost use Rattle.std.specs.Prelude.{false};

    ghost given = { λ n. n.given };

    ghost ended = { λ n. false };

    ghost faults = { λ n. n.faults };

    /// Where it can listen the service is said to serve.
    fn listen(&mut self, address: &str) -> Result<(), Failed> {
        match self.net.listen(address) {
            Ok(()) => {
                self.metrics.set_serving();
                Ok(())
            }
            Err(failed) => Err(failed),
        }
    }

    /// Waits for the next client. Where its answers can't be counted it is served all the same.
    fn accept(&mut self) -> Result<Option<CountedLink<Connection<R>>>, Failed> {
        match self.net.accept() {
            Ok(Some(link)) => {
                self.metrics.add_link();
                Ok(Some(CountedLink {
                    link,
                    metrics: Arc::try_clone(&self.metrics).ok(),
                    left: 0,
                }))
            }
            Ok(None) => Ok(None),
            Err(failed) => Err(failed),
        }
    }
}
