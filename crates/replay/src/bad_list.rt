// Why a list is not replayed.
use std::alloc::AllocError;
use thiserror::Error;

#[derive(Debug, Drop, Error)]
pub(crate) enum BadList {
    #[error("a wrong digit, or half a byte")]
    Misspelt,
    #[error("too short")]
    Short,
    #[error("too long")]
    Long,
    #[error("sizes out of range")]
    Sizes,
    #[error(transparent)]
    Memory(#[from(alloc)] AllocError),
}
