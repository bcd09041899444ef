// Why a line gets no answer.
use std::alloc::AllocError;
use std::num::ParseIntError;
use thiserror::Error;

#[derive(Debug, Drop, Error)]
pub(crate) enum Fault {
    #[error("not four words")]
    Words,
    #[error("unknown algorithm")]
    Algorithm,
    #[error("unknown form of message")]
    Message,
    #[error("not bytes in hex")]
    Hex,
    #[error("not a number")]
    Number(#[from] ParseIntError),
    #[error("all pieces to feed are empty")]
    Feeds,
    #[error("the reads do not fit the algorithm")]
    Reads,
    #[error("no memory")]
    Memory(#[from(alloc)] AllocError),
}
