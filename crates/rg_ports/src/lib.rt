// What the program asks of the outside, with forms of it in memory and over the machine.
#![tactic(auto)]

mod calls;
mod connection;
mod counter;
mod gate;
mod list_clock;
mod machine;
mod mem_link;
mod mem_listener;
mod mem_sink;
mod mem_source;
mod ports;
mod taking;
mod tcp;
mod unread;
mod words;

pub use connection::Connection;
pub use gate::{FreeGate, Gate, MeetingGate};
pub use list_clock::ListClock;
pub use machine::{StdSink, StdSource, WallClock};
pub use mem_link::MemLink;
pub use mem_listener::MemListener;
pub use mem_sink::MemSink;
pub use mem_source::MemSource;
pub use ports::{Clock, Link, Listener, Sink, Source};
pub use tcp::{TcpLink, TcpNet};
pub use words::words_of;
