//! Primitive arrays, read from bytes in hand. Whatever is no primitive array is `Outside`.

ghost use Rattle.std.specs.Prelude.{◌≡◌, ◌<◌, ◌^◌, Some, None, IfOk, length};
ghost use Rattle.vortex_flat.specs.Answers.{Answers};
ghost use Rattle.vortex_stream.specs.Header.{names_in};
ghost use Rattle.vortex_select.specs.Column.{body_parts, buffer_in, descriptors_at, descriptors_in, primitive_node_at, primitive_buffer_of};
ghost use Rattle.vortex_select.specs.inner.Decoding.{names_at, primitive_count, primitive_header_of, primitive_array_of};
ghost use Rattle.vortex_select.specs.inner.Views.{pair_view, parts_view, primitive_header_view, primitive_node_view};

use crate::decoding::{length_prefixed, message_table, prefix};
use crate::schema::{
    BODY_BUFFERS, BODY_NODE, NODE_BUFFERS, NODE_CHILDREN, NODE_ENCODING, NODE_METADATA,
    PRIMITIVE_NAME,
};
use vortex_flat::{FlatError, Table, Vector, root, u32_at};
use vortex_stream::schema::{ARRAY, ARRAY_NAMES, ARRAY_ROWS, MOST_NAMES};

/// What the header of a primitive array says.
#[derive(Clone, Copy)]
struct FoundHeader {
    rows: u32,
    names: usize,
    body_size: u64,
}

/// A node without children that has one buffer.
#[derive(Clone, Copy)]
struct FoundNode {
    encoding: u16,
    buffer: u32,
}

/// How many names there are, where each is that of the primitive encoding. The first other one ends
/// the look.
#[tactic(auto, unfolding(crate::specs::inner::Decoding::primitive_count))]
fn primitive_names(names: &Vector) -> Result<usize, FlatError>
    requires { names.now.shape.width ≡ 4 }
    ensures { Answers (λ x. x) result
        (primitive_count (names_in names.now.buffer names.now.shape)) }
{
    if names.len() > MOST_NAMES {
        return Err(FlatError::Outside);
    }
    for i in 0..names.len() {
        if names.str(i)? != PRIMITIVE_NAME {
            return Err(FlatError::Outside);
        }
    }
    Ok(names.len())
}

/// How many names of encodings the table of an array holds, where each is that of the primitive
/// encoding.
#[tactic(auto, unfolding(crate::specs::inner::Decoding::primitive_count))]
fn primitive_names_of(table: &Table) -> Result<usize, FlatError>
    ensures { Answers (λ x. x) result
        (primitive_count (names_at table.now.buffer table.now.place)) }
{
    primitive_names(&table.field_vector_or_empty(ARRAY_NAMES, 4)?)
}

/// What the header of a primitive array says.
#[tactic(auto, unfolding(crate::specs::inner::Decoding::primitive_header_of))]
fn primitive_header(header: &[u8]) -> Result<FoundHeader, FlatError>
    ensures { Answers primitive_header_view result (primitive_header_of header.now) }
{
    let message = message_table(header)?;
    let rows = message.inner.field_u32(ARRAY_ROWS)?.unwrap_or(0);
    let names = primitive_names_of(&message.inner)?;
    if message.kind != ARRAY {
        return Err(FlatError::Outside);
    }
    Ok(FoundHeader {
        rows,
        names,
        body_size: message.body_size,
    })
}

/// The region of the buffers of a body, and its flat buffer.
#[tactic(auto, unfolding(crate::specs::Column::body_parts))]
fn parts_of(body: &[u8]) -> Result<(&[u8], &[u8]), FlatError>
    ensures { Answers parts_view result (body_parts body.now) }
{
    if body.len() < 4 {
        return Err(FlatError::Outside);
    }
    let len = u32_at(body, body.len() - 4)? as usize;
    if body.len() < len + 4 {
        return Err(FlatError::Outside);
    }
    let start = body.len() - 4 - len;
    Ok((&body[..start], &body[start..start + len]))
}

/// The buffer at `wanted` of those that the descriptors tell, all of which stand in the region.
fn buffer_at<'a>(
    descriptors: &Vector,
    wanted: usize,
    region: &'a [u8],
) -> Result<&'a [u8], FlatError>
    requires { descriptors.now.shape.width ≡ 8 }
    ensures found { Answers (λ buffer. buffer.now) result
        (buffer_in region.now
        (descriptors_in descriptors.now.buffer descriptors.now.shape) wanted) }
    ensures short { IfOk result (λ buffer. length buffer.now < 2 ^ 32) }
{
    let mut rest = region;
    let mut found = None;
    for i in 0..descriptors.len() {
        let entry = descriptors.u64(i);
        let padding = (entry % 0x1_0000) as usize;
        let compression = entry / 0x100_0000 % 0x100;
        let len = (entry / 0x1_0000_0000) as usize;
        if compression != 0 || rest.len() < padding + len {
            return Err(FlatError::Outside);
        }
        let (buffer, after) = rest.split_at(padding).1.split_at(len);
        if i == wanted {
            found = Some(buffer);
        }
        rest = after;
    }
    found.ok_or(FlatError::Outside)
}

/// The buffer at `wanted` of those that the root of a flat buffer tells.
#[tactic(auto, unfolding(crate::specs::Column::buffer_in))]
fn buffer_of<'a>(table: &Table, wanted: usize, region: &'a [u8]) -> Result<&'a [u8], FlatError>
    ensures found { Answers (λ buffer. buffer.now) result
        (buffer_in region.now (descriptors_at table.now.buffer table.now.place) wanted) }
    ensures short { IfOk result (λ buffer. length buffer.now < 2 ^ 32) }
{
    buffer_at(
        &table.field_vector_or_empty(BODY_BUFFERS, 8)?,
        wanted,
        region,
    )
}

/// A node without children that has one buffer.
#[tactic(auto, unfolding(crate::specs::Column::primitive_node_at))]
fn primitive_node(node: &Table) -> Result<FoundNode, FlatError>
    ensures { Answers primitive_node_view result
        (primitive_node_at node.now.buffer node.now.place) }
{
    let encoding = node.field_u16(NODE_ENCODING)?.unwrap_or(0);
    let _ = node.field_bytes(NODE_METADATA)?;
    let children = node.field_vector_or_empty(NODE_CHILDREN, 4)?;
    let buffers = node.field_vector_or_empty(NODE_BUFFERS, 4)?;
    if buffers.len() != 1 || !children.is_empty() {
        return Err(FlatError::Outside);
    }
    Ok(FoundNode {
        encoding,
        buffer: buffers.u32(0),
    })
}

/// The buffer of so many rows that a body stands for, by one primitive node.
#[tactic(auto, unfolding(crate::specs::Column::primitive_buffer_in))]
fn primitive_buffer(rows: u32, names: usize, body: &[u8]) -> Result<&[u8], FlatError>
    ensures found { Answers (λ buffer. buffer.now) result
        (primitive_buffer_of rows names body.now) }
    ensures short { IfOk result (λ buffer. length buffer.now < 2 ^ 32) }
{
    let (region, flat) = parts_of(body)?;
    let root = root(flat)?;
    let Some(place) = root.field_table(BODY_NODE)? else {
        return Err(FlatError::Outside);
    };
    let node = primitive_node(&place)?;
    let buffer = buffer_of(&root, node.buffer as usize, region)?;
    if usize::from(node.encoding) < names && buffer.len() == 8 * rows as usize {
        Ok(buffer)
    } else {
        Err(FlatError::Outside)
    }
}

/// The buffer of the rows of a message of a primitive array, and what follows the message.
#[tactic(auto, unfolding(crate::specs::inner::Decoding::primitive_array_of))]
pub(crate) fn primitive_array(bytes: &[u8]) -> Result<(&[u8], &[u8]), FlatError>
    ensures found { Answers pair_view result (primitive_array_of bytes.now) }
    ensures short { IfOk result (λ array. length array.0.now < 2 ^ 32) }
{
    let (header, rest) = length_prefixed(bytes)?;
    let primitive = primitive_header(header)?;
    let (body, rest) = prefix(primitive.body_size, rest)?;
    Ok((
        primitive_buffer(primitive.rows, primitive.names, body)?,
        rest,
    ))
}
