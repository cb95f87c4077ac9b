use std::alloc::AllocError;
use std::io;
use thiserror::Error;

/// Why the comparison cannot go on.
// Not the log reader's errors: it has four that cannot come here, and lacks the first.
#[derive(Debug, Drop, Error)]
pub enum Failure {
    #[error("a line is no frame with a verdict")]
    NoVector,
    #[error("there is no memory left")]
    Memory(#[from(alloc)] AllocError),
    /// Reading or writing failed.
    #[error(transparent)]
    Broken(#[from] io::Error),
}
