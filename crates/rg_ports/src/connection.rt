// Connections with clients, which are closed in stages.
use crate::machine::read_past_interrupts;
use rg_base::Failed;
use std::io::{Read, Write};
use std::net::{Shutdown, TcpStream};
use std::time::{Duration, Instant};
use std::{io, rt};

/// How many seconds a connection that is closed waits for its client at most.
const LINGER: u64 = 2;

/// How often it reads meanwhile at most.
const READS: u32 = 4096;

/// How many bytes each of these reads takes at most.
const ROOM: usize = 8192;

/// The stream of a client. Where it is dropped it says that no more is to come, and reads on until the client closes it too, for two
/// seconds and 32 MiB at most (RFC 9112, section 9.6): a stream that is closed with bytes unread is reset, and what was written last
/// may be lost then.
pub struct Connection<T: rt::Clock + Drop> {
    stream: TcpStream,
    clock: T,
}

impl<T: rt::Clock + Drop> Connection<T> {
    /// Over this stream, with a clock for its end.
    pub(crate) fn new(stream: TcpStream, clock: T) -> Connection<T> {
        Connection { stream, clock }
    }
}

impl<T: rt::Clock + Drop> Read for Connection<T> {
    fn read(&mut self, room: &mut [u8]) -> io::Result<usize> {
        self.stream.read(room)
    }
}

impl<T: rt::Clock + Drop> Write for Connection<T> {
    fn write(&mut self, piece: &[u8]) -> io::Result<usize> {
        self.stream.write(piece)
    }

    fn flush(&mut self) -> io::Result<()> {
        self.stream.flush()
    }
}

// Throws away what comes until the client closes the stream, the time is over, or there were enough reads.
fn pass_over<T: rt::Clock>(stream: &mut TcpStream, clock: &T) -> io::Result<()> {
    let begin = Instant::now(clock)?;
    let mut room = [0; ROOM];
    for _ in 0..READS {
        let left = Duration::from_secs(LINGER).saturating_sub(begin.elapsed(clock)?);
        // (a limit of no time is refused)
        stream.set_read_timeout(Some(left))?;
        match read_past_interrupts(stream, &mut room) {
            Ok(0) | Err(Failed) => break,
            Ok(_) => {}
        }
    }
    Ok(())
}

impl<T: rt::Clock + Drop> Drop for Connection<T> {
    fn drop(self) {
        let Connection { mut stream, clock } = self;
        if stream.shutdown(Shutdown::Write).is_ok() {
            let _ = pass_over(&mut stream, &clock);
        }
    }
}
