use std::alloc::AllocError;
use std::io;
use thiserror::Error;

/// Why the program ends with status 1. (An `anyhow::Error` would cut a long word short.)
#[derive(Debug, Drop, Error)]
pub enum Failure {
    #[error("no kind is given; see --help")]
    NoKind,
    #[error("{0} is no kind; take vehicles, queues or movements")]
    UnknownKind(String),
    #[error("there is no option {0}; see --help")]
    UnknownOption(String),
    /// A file was not read to its end; its name was printed.
    #[error("not every log was read")]
    Unread,
    #[error("there is no memory left")]
    Memory(#[from(alloc)] AllocError),
    /// Writing or the arguments failed.
    #[error(transparent)]
    Broken(#[from] io::Error),
}
