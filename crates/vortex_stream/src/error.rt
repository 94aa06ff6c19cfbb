//! Why a call on messages failed.

ghost use Rattle.std.specs.Prelude.{◌≡◌};
ghost use Rattle.vortex_stream.specs.ErrorNumber.{error_number};
ghost use Rattle.vortex_stream.specs.declared.error.IpcError.TheVariants.{OutOfMemory};

use crate::kind::MessageKind;
use std::alloc::{AllocError, AllocFailed};
use thiserror::Error;

/// Why a call on messages failed.
#[derive(Clone, Copy, Debug, PartialEq, Eq, Error)]
pub enum IpcError {
    /// The bytes of a header are no header.
    #[error("malformed header")]
    MalformedHeader,
    /// A message is of another kind than the one that is asked for.
    #[error("a message of another kind")]
    WrongKind {
        /// The kind of the message, or None where the input is empty.
        found: Option<MessageKind>,
    },
    /// A header names an encoding that the registry does not hold.
    #[error("unknown encoding")]
    UnknownEncoding,
    /// No type stands in the body of a message of a type.
    #[error("malformed type")]
    MalformedDType,
    /// No array stands in the body of a message of an array.
    #[error("malformed array")]
    MalformedArray,
    /// An earlier call of this decoder failed.
    #[error("the decoder failed before")]
    Failed,
    /// The input ends inside a message.
    #[error("unexpected end")]
    UnexpectedEnd,
    /// A read failed.
    #[error("a read failed")]
    ReadFault,
    /// As many reads were made as are allowed, and one more is needed.
    #[error("the limit of reads is reached")]
    ReadLimit,
    /// A write failed.
    #[error("a write failed")]
    WriteFault,
    /// What is to be written passes a limit.
    #[error("too large")]
    TooLarge,
    /// Memory ran out.
    #[error("out of memory")]
    OutOfMemory,
}

impl IpcError {
    /// The number under which documents list the error.
    pub fn number(self) -> u8
        ensures { result ≡ error_number self }
    {
        match self {
            IpcError::MalformedHeader => 1,
            IpcError::WrongKind { found: _ } => 2,
            IpcError::UnknownEncoding => 3,
            IpcError::MalformedDType => 4,
            IpcError::MalformedArray => 5,
            IpcError::Failed => 6,
            IpcError::UnexpectedEnd => 7,
            IpcError::ReadFault => 8,
            IpcError::ReadLimit => 9,
            IpcError::WriteFault => 10,
            IpcError::TooLarge => 11,
            IpcError::OutOfMemory => 12,
        }
    }
}

impl From<AllocError> for IpcError {
    ghost from_gives = { λ _ e. e ≡ OutOfMemory };

    fn from(_e: AllocError) -> IpcError {
        IpcError::OutOfMemory
    }
}

impl<T: Drop> From<AllocFailed<T>> for IpcError {
    ghost from_gives = { λ _ e. e ≡ OutOfMemory };

    fn from(_e: AllocFailed<T>) -> IpcError {
        IpcError::OutOfMemory
    }
}
