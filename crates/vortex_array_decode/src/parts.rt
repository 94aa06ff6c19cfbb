//! What arrays are read from.

ghost use Rattle.std.specs.Prelude.{◌≡◌, IfOk, Some};
ghost use Rattle.vortex_terms.specs.Types.{IsBytes};
ghost use Rattle.vortex_types.specs.DTypes.{term_of};
ghost use Rattle.vortex_body.specs.Reading.{node_of};
ghost use Rattle.vortex_node_rows.specs.Encodings.{encoding_in};
ghost use Rattle.vortex_node_rows.specs.RowsOf.{rows_of};
ghost use Rattle.vortex_array_decode.specs.Agreement.{Agrees};
ghost use Rattle.vortex_array_data.specs.Answers.{Answers};

use crate::context::ArrayContext;
use crate::decode::decode;
use std::alloc::Global;
use std::marker::Model;
use vortex_array_data::{Array, ArrayError};
use vortex_body::{BodyError, NodeParts};
use vortex_buffer::ByteBuffer;
use vortex_node_rows::bodies_are_bytes;
use vortex_types::DType;

/// The node that a body stands for, before it is known which rows it has. Its buffers are parts of
/// the body, which is shared. Contracts see it as the node.
#[derive(Drop)]
pub struct ArrayParts {
    node: NodeParts,
}

impl Model for ArrayParts {
    ghost use Rattle.vortex_body.specs.Node.{Node, coded_node};
    ghost use Rattle.vortex_node_rows.specs.ByteNode.{IsByteNode};

    ghost Value = { Node };

    ghost coded = { coded_node };

    ghost view = { λ a. a.node };

    ghost invariant = { λ a. IsByteNode a.node };
}

/// A slice of bytes has numbers below 256. This does nothing when the program runs.
fn are_bytes(bytes: &[u8])
    ensures { IsBytes bytes.now }
{
    let _ = bytes;
}

impl ArrayParts {
    /// The node that a body stands for. It is [`ArrayError::Malformed`] where there is none within
    /// the limits of a body.
    pub fn try_new(alloc: Global, body: ByteBuffer) -> Result<ArrayParts, ArrayError>
        ensures { Answers (λ p. p) result (node_of body.bytes) }
    {
        are_bytes(body.as_slice());
        bodies_are_bytes();
        match NodeParts::try_new(alloc, body) {
            Ok(node) => Ok(ArrayParts { node }),
            Err(BodyError::Malformed) => Err(ArrayError::Malformed),
            Err(BodyError::OutOfMemory) => Err(ArrayError::OutOfMemory),
        }
    }

    /// The array of so many rows of the type. It is [`ArrayError::Malformed`] where the node stands
    /// for none.
    pub fn decode(
        &self,
        alloc: Global,
        ctx: &ArrayContext,
        dtype: &DType,
        rows: usize,
    ) -> Result<Array, ArrayError>
        ensures rows { Answers (λ a. a.rows) result
            (rows_of (encoding_in ctx.now) self.now (term_of dtype.now) rows) }
        ensures dtype { IfOk result (λ a. a.dtype ≡ term_of dtype.now) }
        ensures node { IfOk result (λ a.
            Agrees (encoding_in ctx.now) (term_of dtype.now) (Some rows) self.now a.node) }
    {
        decode(alloc, ctx, &self.node, dtype, rows)
    }
}
