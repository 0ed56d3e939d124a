// Links to a service over the network. Which bytes pass through them is trusted.
ghost use Rattle.std.specs.Prelude.{◌≡◌, false, IfOk};

use rg_base::Failed;
use rg_ports::TcpLink;
use std::io;
use std::net::{Net, TcpStream, ToSocketAddrs};
use std::time::Duration;

// The first of the address's hosts that answers in time. Reads and writes have the same limit.
fn stream_to<R: Net<Stream = TcpStream>>(
    net: &R,
    address: &str,
    limit: Duration,
) -> io::Result<TcpStream> {
    let mut last = io::Error::from(io::ErrorKind::NotFound);
    for host in address.to_socket_addrs(net)? {
        match TcpStream::connect_timeout(net, &host, limit) {
            Ok(stream) => {
                stream.set_read_timeout(Some(limit))?;
                stream.set_write_timeout(Some(limit))?;
                return Ok(stream);
            }
            Err(error) => last = error,
        }
    }
    Err(last)
}

/// A link to a service. The address is a host or an IP address, and a port, as `127.0.0.1:6080`; of several hosts the first that answers is
/// taken. Connecting to one takes so many seconds at most, and so does each read and each write of the link: one that takes longer
/// fails. With no second it fails.
pub fn connect<R: Net<Stream = TcpStream>>(
    net: &R,
    address: &str,
    seconds: u64,
) -> Result<TcpLink<TcpStream>, Failed>
    ensures { IfOk result (λ link. link ≡ record { ended = false; faults = 0 }) }
{
    match stream_to(net, address, Duration::from_secs(seconds)) {
        Ok(stream) => Ok(TcpLink::new(stream)),
        Err(_) => Err(Failed),
    }
}
