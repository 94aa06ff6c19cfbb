ghost use Rattle.std.specs.Prelude.{◌≤◌, ◌<◌};

use super::*;
use std::alloc::{AllocError, Global};
use vortex_buffer::ByteBuffer;

/// A node of encoding 0 with nothing else: the root table at 10 and the node at 22.
const BARE: [u8; 30] = [
    10, 0, 0, 0, 6, 0, 8, 0, 4, 0, 6, 0, 0, 0, 8, 0, 0, 0, 4, 0, 4, 0, 4, 0, 0, 0, 26, 0, 0, 0,
];

/// A region of 9 bytes, in which stand [1, 2] behind 1 byte and [3, 4, 5] behind 2 more; a flat
/// buffer of 134, with descriptors at 28 and 36, a node at 56 of encoding 258, metadata [7, 8] and
/// twice the second buffer, and a node at 116 of encoding 5 and that buffer, which is both children.
const SHARED: [u8; 147] = [
    170, 1, 2, 0, 0, 3, 4, 5, 9, 12, 0, 0, 0, 8, 0, 12, 0, 4, 0, 8, 0, 8, 0, 0, 0, 40, 0, 0, 0, 4,
    0, 0, 0, 2, 0, 0, 0, 1, 0, 3, 0, 2, 0, 0, 0, 2, 0, 0, 0, 3, 0, 0, 0, 12, 0, 18, 0, 16, 0, 4, 0,
    8, 0, 12, 0, 12, 0, 0, 0, 14, 0, 0, 0, 16, 0, 0, 0, 24, 0, 0, 0, 2, 1, 2, 0, 0, 0, 7, 8, 2, 0,
    0, 0, 32, 0, 0, 0, 28, 0, 0, 0, 2, 0, 0, 0, 1, 0, 0, 0, 1, 0, 0, 0, 12, 0, 10, 0, 8, 0, 0, 0,
    0, 0, 4, 0, 12, 0, 0, 0, 6, 0, 0, 0, 5, 0, 1, 0, 0, 0, 1, 0, 0, 0, 134, 0, 0, 0,
];

fn read(alloc: Global, body: &[u8]) -> Option<NodeParts> {
    match ByteBuffer::from_slice(alloc, body) {
        Ok(body) => NodeParts::try_new(alloc, body).ok(),
        Err(_) => None,
    }
}

fn is_buffer(node: &NodeParts, i: usize, bytes: &[u8]) -> bool {
    i < node.buffer_count() && node.buffer(i).as_slice() == bytes
}

fn is_leaf(node: &NodeParts, bytes: &[u8]) -> bool {
    node.encoding() == 5
        && node.metadata().is_empty()
        && node.children().is_empty()
        && node.buffer_count() == 1
        && is_buffer(node, 0, bytes)
}

fn is_shared(node: &NodeParts, bytes: &[u8]) -> bool {
    let own = node.encoding() == 258
        && node.metadata() == [7, 8].as_slice()
        && node.buffer_count() == 2
        && is_buffer(node, 0, bytes)
        && is_buffer(node, 1, bytes);
    match node.children() {
        [first, second] => own && is_leaf(first, bytes) && is_leaf(second, bytes),
        _ => false,
    }
}

fn is_bare(node: &NodeParts) -> bool {
    node.encoding() == 0
        && node.metadata().is_empty()
        && node.children().is_empty()
        && node.buffer_count() == 0
}

/// Whether the body with a byte changed is one, whose second buffer has these bytes.
fn changed(alloc: Global, place: usize, byte: u8, bytes: &[u8]) -> bool
    requires { place < 147 }
{
    let mut body = SHARED;
    body[place] = byte;
    match read(alloc, &body) {
        Some(node) => is_shared(&node, bytes),
        None => false,
    }
}

/// Whether the body with a byte changed is none.
fn refused(alloc: Global, place: usize, byte: u8) -> bool
    requires { place < 147 }
{
    let mut body = SHARED;
    body[place] = byte;
    read(alloc, &body).is_none()
}

#[test]
fn worked_bodies(rt: HostRuntime) {
    let alloc = rt.alloc();
    let bare = match read(alloc, &BARE) {
        Some(node) => is_bare(&node),
        None => false,
    };
    assert_eq!(rt; bare, true);
    assert_eq!(rt; changed(alloc, 0, 0, &[3, 4, 5]), true);
    assert_eq!(rt; read(alloc, &[]).is_none(), true);
    assert_eq!(rt; read(alloc, &[0, 0, 0, 0]).is_none(), true);
}

#[test]
fn descriptors(rt: HostRuntime) {
    let alloc = rt.alloc();
    // padding: the last buffer ends with the region, and past it
    assert_eq!(rt; changed(alloc, 37, 2, &[4, 5, 9]), true);
    assert_eq!(rt; refused(alloc, 37, 3), true);
    // the exponent of the alignment, and compression
    assert_eq!(rt; changed(alloc, 39, 255, &[3, 4, 5]), true);
    assert_eq!(rt; refused(alloc, 40, 1), true);
    // length
    assert_eq!(rt; changed(alloc, 49, 4, &[3, 4, 5, 9]), true);
    assert_eq!(rt; refused(alloc, 49, 5), true);
}

#[test]
fn refused_bodies(rt: HostRuntime) {
    let alloc = rt.alloc();
    // a place past the descriptors
    assert_eq!(rt; refused(alloc, 139, 2), true);
    // a child outside
    assert_eq!(rt; refused(alloc, 97, 255), true);
    // no root node
    assert_eq!(rt; refused(alloc, 17, 0), true);
    // a flat buffer longer than the body
    assert_eq!(rt; refused(alloc, 143, 144), true);
}

fn put(bytes: &mut Vec<u8>, words: &[u32]) -> Result<(), AllocError> {
    for word in words {
        bytes.extend_from_slice(&word.to_le_bytes())?;
    }
    Ok(())
}

/// Nodes of so many levels, each of which has the next one as its one child, or as both.
fn nested(alloc: Global, levels: u32, children: u32) -> Result<Vec<u8>, AllocError>
    requires some { 0 < levels }
    requires few { levels ≤ 200 }
{
    let mut bytes = Vec::new(alloc);
    // The root is at 28 and the first node at 36; their vtables are at 4 and 12, and that of the last
    // node at 24.
    put(
        &mut bytes,
        &[28, 0x0008_0006, 4, 0x0008_000A, 0, 4, 0x0004_0004, 24, 4],
    )?;
    for k in 1..levels {
        put(&mut bytes, &[20 * k + 4, 4, children, 8, 4])?;
    }
    put(&mut bytes, &[20 * levels - 8, 20 * levels + 20])?;
    Ok(bytes)
}

/// Whether nodes of so many levels are a body.
fn is_body(alloc: Global, levels: u32, children: u32) -> bool
    requires some { 0 < levels }
    requires few { levels ≤ 200 }
{
    match nested(alloc, levels, children) {
        Ok(bytes) => read(alloc, &bytes).is_some(),
        Err(_) => false,
    }
}

#[test]
fn limits(rt: HostRuntime) {
    let alloc = rt.alloc();
    assert_eq!(rt; is_body(alloc, 1, 1), true);
    assert_eq!(rt; is_body(alloc, 128, 1), true);
    assert_eq!(rt; is_body(alloc, 129, 1), false);
    // 4,095 nodes, of 12 that stand there
    assert_eq!(rt; is_body(alloc, 12, 2), true);
}

/// Nodes of so many levels, each but the last of which has the next one as both children. All of
/// them share a vector of so many places of the one buffer, and behind these `last`.
fn doubled(alloc: Global, levels: u32, count: u32, last: u32) -> Result<Vec<u8>, AllocError>
    requires some { 0 < levels }
    requires few { levels ≤ 200 }
    requires places { count ≤ 1000 }
{
    let mut bytes = Vec::new(alloc);
    // The root is at 36, its descriptor at 52 and the first node at 60; their vtables are at 4 and
    // 12, and that of the last node at 24.
    put(
        &mut bytes,
        &[
            36,
            0x000C_0008,
            0x0008_0004,
            0x000C_000C,
            0,
            0x0008_0004,
            0x0008_000C,
            0,
            0x0004_0000,
        ],
    )?;
    put(&mut bytes, &[32, 20, 4, 1, 0, 0])?;
    let places = 24 * levels + 44;
    for k in 1..levels {
        put(&mut bytes, &[24 * k + 24, 8, places - 24 * k - 44, 2, 8, 4])?;
    }
    put(&mut bytes, &[24 * levels + 12, 4, count + 1])?;
    for _ in 0..count {
        put(&mut bytes, &[0])?;
    }
    put(&mut bytes, &[last, places + 8 + 4 * count])?;
    Ok(bytes)
}

/// Whether these nodes are a body.
fn is_doubled(alloc: Global, levels: u32, count: u32, last: u32) -> bool
    requires some { 0 < levels }
    requires few { levels ≤ 200 }
    requires places { count ≤ 1000 }
{
    match doubled(alloc, levels, count, last) {
        Ok(bytes) => read(alloc, &bytes).is_some(),
        Err(_) => false,
    }
}

#[test]
fn shared_places(rt: HostRuntime) {
    let alloc = rt.alloc();
    // 4,095 nodes, and 400 places for each
    assert_eq!(rt; is_doubled(alloc, 12, 399, 0), true);
    assert_eq!(rt; is_doubled(alloc, 12, 399, 1), false);
}

#[test]
fn laws(rt: HostRuntime) {
    schema::body_schema();
    found_nodes_stand();
    standing_nodes_are_found();
    bodies_are_found();
    one_node_stands();
    assert_eq!(rt; BodyError::Malformed == BodyError::OutOfMemory, false);
}
