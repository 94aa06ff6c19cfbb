//! Whole numbers.

ghost use Rattle.std.specs.Prelude.{◌≡◌, ◌<◌, IfOk, Some, slice_get};
ghost use Rattle.vortex_number.specs.PType.{format_of};
ghost use Rattle.vortex_terms.specs.Row.{whole_row};
ghost use Rattle.vortex_body.specs.Node.{node_buffers};
ghost use Rattle.vortex_node_rows.specs.Leaves.{numbers_of};
ghost use Rattle.vortex_leaves.specs.Answers.{Answers};
ghost use Rattle.vortex_leaves.specs.Numbers.{AreNumbers, number_format, number_rows};

use crate::LeafError;
use crate::buffers::{are_bytes, one_buffer};
use crate::chunk::number_at;
use crate::format::NumberFormat;
use bytes::Bytes;
use std::marker::Model;
use vortex_body::NodeParts;
use vortex_number::PType;

/// So many whole numbers in a format. Their bytes are shared.
#[derive(Drop)]
pub struct Numbers {
    pub(crate) format: NumberFormat,
    pub(crate) len: usize,
    pub(crate) bytes: Bytes,
}

impl Model for Numbers {
    ghost use Rattle.vortex_leaves.specs.Numbers.{AreNumbers, NumberBytes, number_format};

    ghost Value = { NumberBytes };

    ghost view = { λ a. record { format = number_format a.format; count = a.len; bytes = a.bytes } };

    ghost invariant = { λ a. AreNumbers
        (record { format = number_format a.format; count = a.len; bytes = a.bytes }) };
}

impl Numbers {
    /// The numbers of a kind that the one buffer is.
    pub fn read(parts: &NodeParts, ptype: PType, n: usize) -> Result<Numbers, LeafError>
        ensures rows { Answers number_rows result
            (numbers_of (format_of ptype) n (node_buffers parts.now)) }
        ensures format { IfOk result (λ a. a.format ≡ format_of ptype) }
        ensures count { IfOk result (λ a. a.count ≡ n) }
    {
        Numbers::read_in(parts, NumberFormat::of(ptype), n)
    }

    /// The numbers in a format that the one buffer is.
    #[tactic(auto, unfolding(vortex_node_rows::specs::Leaves::numbers_of))]
    pub(crate) fn read_in(
        parts: &NodeParts,
        format: NumberFormat,
        n: usize,
    ) -> Result<Numbers, LeafError>
        ensures rows { Answers number_rows result
            (numbers_of (number_format format) n (node_buffers parts.now)) }
        ensures format { IfOk result (λ a. a.format ≡ number_format format) }
        ensures count { IfOk result (λ a. a.count ≡ n) }
    {
        let Some(bytes) = one_buffer(parts) else {
            return Err(LeafError::Malformed);
        };
        let slice = bytes.as_slice();
        are_bytes(slice);
        if slice.len() / format.width() != n || slice.len() % format.width() != 0 {
            return Err(LeafError::Malformed);
        }
        Ok(Numbers {
            format,
            len: n,
            bytes: bytes.clone()?,
        })
    }

    /// How each is held.
    pub fn format(&self) -> NumberFormat
        ensures { number_format result ≡ self.now.format }
    {
        self.format
    }

    /// How many there are.
    pub fn len(&self) -> usize
        ensures { result ≡ self.now.count }
    {
        self.len
    }

    /// The bytes of all of them.
    pub fn bytes(&self) -> &Bytes
        ensures { result.now ≡ self.now.bytes }
    {
        &self.bytes
    }

    /// Number `i`.
    pub fn number(&self, i: usize) -> i128
        requires { i < self.now.count }
        ensures { slice_get (number_rows self.now) i ≡ Some (whole_row result) }
    {
        number_at(self.format, self.bytes.as_slice(), self.len, i)
    }

    /// There are bytes for exactly so many. This does nothing when the program runs.
    pub fn law(&self)
        ensures { AreNumbers self.now }
    {
        let _ = &self.len;
    }
}
