// Messages, responses, and the answers of a framer.
ghost use Rattle.std.specs.Prelude.{◌≡◌};
ghost use Rattle.rg_http.specs.Answers.{is_message};

use rg_base::{Failed, NoMemory, Seq, Text};
use std::alloc::AllocError;
use thiserror::Error;

/// A message that came whole.
#[derive(Drop)]
pub struct Message {
    /// As it is written: methods are told apart by the case of their letters.
    pub method: Text,
    /// As it is written, with its query; nothing in it is decoded.
    pub target: Text,
    /// The first value of the field `x-user`, without the white space around it.
    pub user: Option<Seq<u8>>,
    /// Of any method. It has no bytes where no length was given.
    pub body: Seq<u8>,
    /// Whether the client asks to close, by the field `Connection` or by version 1.0.
    pub close: bool,
}

/// What stands at the front of a stream.
#[derive(Drop)]
pub enum Next {
    Message(Message),
    /// Nothing: the link ended after the last message.
    Ended,
    /// The beginning of a message, after which the link ended.
    Cut,
    /// What is answered with this status: 400, 411, 413, 431 or 501.
    Bad(u16),
}

impl Next {
    /// Whether it is a message.
    pub fn is_message(&self) -> bool
        ensures { result ≡ is_message self.now }
    {
        matches!(self, Next::Message(_))
    }
}

/// How the messages of a stream end.
#[derive(Clone, Copy, Debug, PartialEq, Eq)]
pub enum End {
    /// After a message that asks to close, or where the bytes end after a message.
    Ended,
    /// Within a message.
    Cut,
    /// In a place that is answered with this status.
    Bad(u16),
    /// After the most messages that are read.
    Full,
}

/// Why a framer has no answer.
#[derive(Clone, Copy, Debug, PartialEq, Eq, Error)]
pub enum FrameFault {
    #[error("the link failed")]
    Failed,
    #[error("memory was refused")]
    NoMemory,
}

impl From<Failed> for FrameFault {
    ghost use Rattle.std.specs.Prelude.{◌≡◌};
    ghost use Rattle.rg_http.specs.declared.message.FrameFault.TheVariants as fault;

    ghost from_gives = { λ _ f. f ≡ fault.Failed };

    fn from(_: Failed) -> FrameFault {
        FrameFault::Failed
    }
}

impl From<NoMemory> for FrameFault {
    ghost use Rattle.std.specs.Prelude.{◌≡◌};
    ghost use Rattle.rg_http.specs.declared.message.FrameFault.TheVariants as fault;

    ghost from_gives = { λ _ f. f ≡ fault.NoMemory };

    fn from(_: NoMemory) -> FrameFault {
        FrameFault::NoMemory
    }
}

impl From<AllocError> for FrameFault {
    ghost use Rattle.std.specs.Prelude.{◌≡◌};
    ghost use Rattle.rg_http.specs.declared.message.FrameFault.TheVariants as fault;

    ghost from_gives = { λ _ f. f ≡ fault.NoMemory };

    fn from(_: AllocError) -> FrameFault {
        FrameFault::NoMemory
    }
}

/// What is answered to a message.
#[derive(Drop)]
pub struct Response {
    /// From 100 to 999.
    pub status: u16,
    /// JSON, or no bytes.
    pub body: Seq<u8>,
    /// Whether the connection is closed after it.
    pub close: bool,
}
