// Where an administration is asked.
use rg_base::Failed;
use rg_client::connect;
use rg_ports::{Link, TcpLink};
use std::net::{Net, TcpStream};

/// Where an administration is asked. A round has a link of its own.
pub trait Administration: Sync {
    type Link: Link + Drop;

    /// A new link.
    fn connect(&self) -> Result<Self::Link, Failed>;
}

/// An administration that is asked over the network.
#[derive(Clone, Copy)]
pub struct TcpAdministration<'n, 'a, R> {
    pub net: &'n R,
    /// A host or an IP address, and a port.
    pub address: &'a str,
    /// How many seconds connecting, a read and a write take at most.
    pub patience: u64,
}

impl<'n, 'a, R: Net<Stream = TcpStream> + Sync> Administration for TcpAdministration<'n, 'a, R> {
    type Link = TcpLink<TcpStream>;

    fn connect(&self) -> Result<TcpLink<TcpStream>, Failed> {
        connect(self.net, self.address, self.patience)
    }
}
