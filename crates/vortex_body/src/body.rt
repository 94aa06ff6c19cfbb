//! A body, taken apart.

ghost use Rattle.std.specs.Prelude.{◌≡◌, ◌<◌, ◌^◌, IfOk, length};
ghost use Rattle.vortex_body.specs.Answers.{Answers};
ghost use Rattle.vortex_body.specs.Body.{body_parts, buffers_of, descriptor_of, descriptors_in};
ghost use Rattle.vortex_body.specs.Reading.{bounded_node_at, node_in, node_of};
ghost use Rattle.vortex_body.specs.inner.Walked.{buffers_from, next_buffer, parts_pair};

use crate::error::BodyError;
use crate::parts::NodeParts;
use crate::places::Places;
use crate::schema::*;
use crate::tree::make;
use crate::walk::walk;
use bytes::Bytes;
use std::alloc::Global;
use vortex_buffer::ByteBuffer;
use vortex_flat::{Table, Vector, root, u32_at};

/// How deep a node nests at most.
const MOST_LEVELS: usize = 128;

/// How many nodes a body has at most.
const MOST_NODES: usize = 4_000_000;

impl NodeParts {
    /// The node that a body stands for. It is [`BodyError::Malformed`] exactly where the body stands
    /// for none within the limits. The body is checked whole before memory is taken for nodes.
    #[tactic(auto, unfolding(crate::specs::Reading::node_of))]
    pub fn try_new(alloc: Global, body: ByteBuffer) -> Result<NodeParts, BodyError>
        ensures { Answers (λ n. n) result (node_of body.bytes) }
    {
        let (region, flat) = parts_of(body.inner())?;
        node_in(alloc, region, flat)
    }
}

/// The region of the buffers, and the flat buffer.
#[tactic(auto, unfolding(crate::specs::Body::body_parts))]
fn parts_of(body: &Bytes) -> Result<(Bytes, Bytes), BodyError>
    ensures parts { Answers parts_pair result (body_parts body.now) }
    ensures short { IfOk result (λ parts. length parts.1 < 2 ^ 32) }
{
    if body.len() < 4 {
        return Err(BodyError::Malformed);
    }
    let Ok(len) = u32_at(body.as_slice(), body.len() - 4) else {
        return Err(BodyError::Malformed);
    };
    let len = len as usize;
    if body.len() < len + 4 {
        return Err(BodyError::Malformed);
    }
    let start = body.len() - 4 - len;
    let region = body.slice(0..start)?;
    let flat = body.slice(start..start + len)?;
    Ok((region, flat))
}

/// The node of the parts of a body.
#[tactic(auto, unfolding(crate::specs::Reading::node_in))]
fn node_in(alloc: Global, region: Bytes, flat: Bytes) -> Result<NodeParts, BodyError>
    requires { length flat < 2 ^ 32 }
    ensures { Answers (λ n. n) result (node_in (record { region = region; flat = flat })) }
{
    let Ok(root) = root(flat.as_slice()) else {
        return Err(BodyError::Malformed);
    };
    let buffers = buffers_of(alloc, region, &root)?;
    let Ok(Some(node)) = root.field_table(ROOT_NODE) else {
        return Err(BodyError::Malformed);
    };
    tree_of(alloc, &flat, buffers, &node)
}

/// The tree of the node of this table.
#[tactic(auto, using(crate::proofs::Making::not_walked, crate::proofs::Making::whole_made, crate::proofs::Making::whole_refused))]
fn tree_of(
    alloc: Global,
    flat: &Bytes,
    buffers: Vec<Bytes>,
    node: &Table<'_>,
) -> Result<NodeParts, BodyError>
    requires same { node.now.buffer ≡ flat.now }
    requires short { length flat.now < 2 ^ 32 }
    ensures { Answers (λ n. n) result (bounded_node_at flat.now buffers.items node.now.place) }
{
    let body = Places::new(alloc, flat, buffers)?;
    let Ok(_) = walk(node, &body, MOST_LEVELS, MOST_NODES) else {
        return Err(BodyError::Malformed);
    };
    let (node, _) = make(alloc, &body, node, MOST_LEVELS, MOST_NODES)?;
    Ok(node)
}

/// The buffers whose descriptors the root leads to, in the region.
#[tactic(auto, unfolding(crate::specs::Body::buffers_of))]
fn buffers_of(alloc: Global, region: Bytes, root: &Table<'_>) -> Result<Vec<Bytes>, BodyError>
    ensures { Answers (λ buffers. buffers.items) result
        (buffers_of (record { region = region; flat = root.now.buffer }) root.now.place) }
{
    let Ok(descriptors) = root.field_vector_or_empty(ROOT_DESCRIPTORS, 8) else {
        return Err(BodyError::Malformed);
    };
    cut_buffers(alloc, region, &descriptors)
}

fn cut_buffers(
    alloc: Global,
    region: Bytes,
    descriptors: &Vector<'_>,
) -> Result<Vec<Bytes>, BodyError>
    requires { descriptors.now.shape.width ≡ 8 }
    ensures { Answers (λ buffers. buffers.items) result
        (buffers_from region (descriptors_in descriptors.now.buffer descriptors.now.shape)) }
{
    let mut buffers = Vec::with_capacity(alloc, descriptors.len())?;
    let mut rest = region;
    for i in 0..descriptors.len() {
        let (buffer, behind) = cut_buffer(rest, descriptors.u64(i))?;
        buffers.push(buffer)?;
        rest = behind;
    }
    Ok(buffers)
}

/// The first buffer of the region, and the region behind it.
#[tactic(auto, using(crate::proofs::Buffers::next_fails, crate::proofs::Buffers::next_there))]
fn cut_buffer(region: Bytes, descriptor: u64) -> Result<(Bytes, Bytes), BodyError>
    ensures { Answers (λ p. p) result (next_buffer (descriptor_of descriptor) region) }
{
    let padding = (descriptor % 0x1_0000) as usize;
    let compression = descriptor / 0x100_0000 % 0x100;
    let end = padding + (descriptor / 0x1_0000_0000) as usize;
    if compression != 0 || region.len() < end {
        return Err(BodyError::Malformed);
    }
    let buffer = region.slice(padding..end)?;
    let behind = region.slice(end..)?;
    Ok((buffer, behind))
}
