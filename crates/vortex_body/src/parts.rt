//! The tree of nodes that a body stands for.

ghost use Rattle.std.specs.Prelude.{◌≡◌, ◌<◌, length, slice_get, Some};
ghost use Rattle.vortex_body.specs.Node.{node_buffers, node_children, node_encoding, node_metadata, nodes_from};

use crate::known::{known_buffer, known_buffer_count, known_encoding, known_metadata};
use bytes::Bytes;
use std::marker::Model;
use std::rc::Rc;

/// A node of a body, seen as a `Node`. Its metadata and buffers are parts of the body, which is
/// shared.
#[derive(Drop)]
pub struct NodeParts {
    pub(crate) flat: Bytes,
    pub(crate) place: usize,
    pub(crate) buffers: Rc<Vec<Bytes>>,
    pub(crate) children: Vec<NodeParts>,
}

impl Model for NodeParts {
    ghost use Rattle.std.specs.Prelude.{IsSome};
    ghost use Rattle.std.proofs.Common.{arith};
    ghost use Rattle.vortex_body.specs.Node.{Node, coded_node, most_le-nodes, node_count, nodes_from};
    ghost use Rattle.vortex_body.specs.Reading.{own_at};
    ghost use Rattle.vortex_body.specs.inner.Walked.{known_own, node_of_own};

    ghost Value = { Node };

    ghost coded = { coded_node };

    ghost view = { λ a. node_of_own (known_own a.flat a.buffers.value.items a.place)
        (nodes_from a.children.items) };

    ghost invariant = { λ a. IsSome (own_at a.flat a.buffers.value.items a.place) };

    ghost size = { node_count };

    ghost size_decreases = { λ a h. omega (arith, most_le-nodes a.children.items) };
}

impl NodeParts {
    /// The place of the encoding among the names of the header.
    pub fn encoding(&self) -> u16
        ensures { result ≡ node_encoding self.now }
    {
        known_encoding(self.flat.as_slice(), &self.buffers, self.place)
    }

    /// The metadata, and no bytes where there is none.
    pub fn metadata(&self) -> &[u8]
        ensures { result.now ≡ node_metadata self.now }
    {
        known_metadata(self.flat.as_slice(), &self.buffers, self.place)
    }

    /// How many buffers the node has.
    pub fn buffer_count(&self) -> usize
        ensures { result ≡ length (node_buffers self.now) }
    {
        known_buffer_count(self.flat.as_slice(), &self.buffers, self.place)
    }

    /// Buffer `i`, a part of the body.
    pub fn buffer(&self, i: usize) -> &Bytes
        requires { i < length (node_buffers self.now) }
        ensures { slice_get (node_buffers self.now) i ≡ Some result.now }
    {
        known_buffer(self.flat.as_slice(), &self.buffers, self.place, i)
    }

    /// The children.
    pub fn children(&self) -> &[NodeParts]
        ensures { nodes_from result.now ≡ node_children self.now }
    {
        &self.children
    }
}
