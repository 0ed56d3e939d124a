// Why nothing is had from a cache, or put into it.
use rg_base::{Failed, NoMemory};
use thiserror::Error;

/// Why a place gave no bytes.
#[derive(Clone, Copy, Debug, PartialEq, Eq, Error)]
pub enum LoadFault {
    #[error("the place failed")]
    Failed,
    #[error("memory was refused")]
    NoMemory,
}

/// What is wrong with the bytes of a cache.
#[derive(Clone, Copy, Debug, PartialEq, Eq, Error)]
pub enum KeptFault {
    /// They don't end with a line feed.
    #[error("the line isn't whole")]
    Cut,
    /// The line isn't facts.
    #[error("the line isn't facts")]
    Unread,
    /// The facts break a rule that holds of all facts.
    #[error("the facts break a rule")]
    Unsound,
    #[error("memory was refused")]
    NoMemory,
}

/// Why a cache gave nothing, or took nothing.
#[derive(Clone, Copy, Debug, PartialEq, Eq, Error)]
pub enum CacheFault {
    #[error("the cache failed")]
    Failed,
    /// What it holds isn't what was kept.
    #[error("what is kept doesn't read: {0}")]
    Kept(KeptFault),
    #[error("memory was refused")]
    NoMemory,
}
