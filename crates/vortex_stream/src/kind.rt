//! The kinds of messages.

ghost use Rattle.std.specs.Prelude.{◌≡◌};
ghost use Rattle.vortex_stream.specs.Header.{kind_number};

use crate::schema::{ARRAY, BUFFER, DTYPE};

/// What a message holds.
#[derive(Clone, Copy, Debug, PartialEq, Eq)]
pub enum MessageKind {
    /// An array.
    Array,
    /// A buffer.
    Buffer,
    /// A type.
    DType,
}

impl MessageKind {
    /// The number of the kind in a header.
    pub fn number(self) -> u8
        ensures { result ≡ kind_number self }
    {
        match self {
            MessageKind::Array => ARRAY,
            MessageKind::Buffer => BUFFER,
            MessageKind::DType => DTYPE,
        }
    }
}
