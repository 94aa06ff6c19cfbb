//! Why a leaf could not be read.

ghost use Rattle.std.specs.Prelude.{◌≡◌};
ghost use Rattle.vortex_leaves.specs.declared.error.LeafError.TheVariants.{OutOfMemory};

use std::alloc::{AllocError, AllocFailed};
use thiserror::Error;

/// Why a leaf could not be read.
#[derive(Clone, Copy, Debug, PartialEq, Eq, Error)]
pub enum LeafError {
    /// The buffers or the metadata are not those of such a leaf.
    #[error("malformed leaf")]
    Malformed,
    #[error("out of memory")]
    OutOfMemory,
}

impl From<AllocError> for LeafError {
    ghost from_gives = { λ _ e. e ≡ OutOfMemory };

    fn from(_error: AllocError) -> LeafError {
        LeafError::OutOfMemory
    }
}

impl<T: Drop> From<AllocFailed<T>> for LeafError {
    ghost from_gives = { λ _ e. e ≡ OutOfMemory };

    fn from(_error: AllocFailed<T>) -> LeafError {
        LeafError::OutOfMemory
    }
}
