//! A plain and slow reading of streams, for the tests to compare the program with: what `select .
//! ge i64:2` is to do.
//!
//! A place in a buffer is the rest of the buffer from there on. So a step is a cut, which finds
//! nothing where it would leave the buffer.

use crate::worked_tests::{TYPE, array_of};
use std::alloc::{AllocError, Global};

const PRIMITIVE: &[u8] = b"vortex.primitive";

const MOST_NAMES: u64 = 65_536;

const HALF: u64 = 0x8000_0000_0000_0000;

/// What the program is to answer and to write.
#[derive(Drop)]
pub(crate) struct Expected {
    pub(crate) status: u8,
    pub(crate) output: Vec<u8>,
    pub(crate) note: String,
}

// The bytes to be written, and the numbers of arrays, of their rows, and of the rows kept.
#[derive(Drop)]
struct Selected {
    output: Vec<u8>,
    arrays: usize,
    read: usize,
    kept: usize,
}

// A table from its place on, its inline part, and the entries of its vtable.
#[derive(Clone, Copy)]
struct Table<'a> {
    buffer: &'a [u8],
    rest: &'a [u8],
    inline: &'a [u8],
    entries: &'a [u8],
}

// A message and what follows it.
#[derive(Clone, Copy)]
struct Message<'a> {
    kind: u64,
    content: Table<'a>,
    body: &'a [u8],
    rest: &'a [u8],
}

// The number in the first bytes, the lowest first.
fn number(rest: &[u8], width: usize) -> Option<u64> {
    let mut value = 0;
    for byte in rest.get(..width)?.iter().rev() {
        value = (value << 8) | u64::from(*byte);
    }
    Some(value)
}

// The number in the first bytes, as a distance or a count.
fn count(rest: &[u8], width: usize) -> Option<usize> {
    Some(number(rest, width)? as usize)
}

// What an offset leads to.
fn target(slot: &[u8]) -> Option<&[u8]> {
    slot.get(count(slot, 4)?..)
}

// The place of a vtable, which four signed bytes tell.
fn vtable_place(place: usize, back: usize) -> Option<usize> {
    if back < 0x8000_0000 {
        place.checked_sub(back)
    } else {
        place.checked_add(0x1_0000_0000usize.checked_sub(back)?)
    }
}

fn table_at<'a>(buffer: &'a [u8], rest: &'a [u8]) -> Option<Table<'a>> {
    let place = buffer.len().checked_sub(rest.len())?;
    let vtable = buffer.get(vtable_place(place, count(rest, 4)?)?..)?;
    let size = count(vtable, 2)?;
    let inline_size = count(vtable.get(2..)?, 2)?;
    if size % 2 != 0 || inline_size < 4 {
        return None;
    }
    Some(Table {
        buffer,
        rest,
        inline: rest.get(..inline_size)?,
        entries: vtable.get(4..size)?,
    })
}

fn root(buffer: &[u8]) -> Option<Table<'_>> {
    table_at(buffer, target(buffer)?)
}

// Where a field begins. A field that is absent is nowhere, which is no fault.
fn field<'a>(table: &Table<'a>, index: usize, width: usize) -> Option<Option<&'a [u8]>> {
    let Some(entry) = table.entries.chunks_exact(2).nth(index) else {
        return Some(None);
    };
    let distance = count(entry, 2)?;
    if distance == 0 {
        return Some(None);
    }
    if distance < 4 || table.inline.get(distance..)?.len() < width {
        return None;
    }
    Some(Some(table.rest.get(distance..)?))
}

fn number_field(table: &Table, index: usize, width: usize) -> Option<u64> {
    match field(table, index, width)? {
        Some(slot) => number(slot, width),
        None => Some(0),
    }
}

fn table_field<'a>(outer: &Table<'a>, index: usize) -> Option<Table<'a>> {
    let slot = field(outer, index, 4)??;
    table_at(outer.buffer, target(slot)?)
}

// The elements of a vector, so many bytes each.
fn vector(rest: &[u8], width: usize) -> Option<&[u8]> {
    let size = count(rest, 4)?.checked_mul(width)?;
    rest.get(4..)?.get(..size)
}

// The elements of the vector that a field leads to; one that is absent has none.
fn vector_field<'a>(table: &Table<'a>, index: usize, width: usize) -> Option<&'a [u8]> {
    match field(table, index, 4)? {
        Some(slot) => vector(target(slot)?, width),
        None => Some(&[]),
    }
}

fn message_at(stream: &[u8]) -> Option<Message<'_>> {
    let header_size = count(stream, 4)?;
    let (header, behind) = stream.get(4..)?.split_at_checked(header_size)?;
    let told = root(header)?;
    let version = number_field(&told, 0, 1)?;
    let kind = number_field(&told, 1, 1)?;
    let content = table_field(&told, 2)?;
    let body_size = number_field(&told, 3, 8)? as usize;
    let (body, rest) = behind.split_at_checked(body_size)?;
    if version != 0 {
        return None;
    }
    Some(Message {
        kind,
        content,
        body,
        rest,
    })
}

// What follows the message of a type, which is a primitive of 64 signed bits, never null.
fn after_type(stream: &[u8]) -> Option<&[u8]> {
    let message = message_at(stream)?;
    let dtype = root(message.body)?;
    let primitive = table_field(&dtype, 1)?;
    let dtype_kind = number_field(&dtype, 0, 1)?;
    let ptype = number_field(&primitive, 0, 1)?;
    let nullable = number_field(&primitive, 1, 1)?;
    if message.kind == 3 && dtype_kind == 3 && ptype == 7 && nullable == 0 {
        Some(message.rest)
    } else {
        None
    }
}

// How many names of encodings a header tells, where each is the primitive one, which is UTF-8.
fn primitive_names(content: &Table) -> Option<u64> {
    let Some(slot) = field(content, 1, 4)? else {
        return Some(0);
    };
    let names = target(slot)?;
    let told = number(names, 4)?;
    let mut rest = names.get(4..)?;
    for _ in 0..told {
        if vector(target(rest)?, 1)? != PRIMITIVE {
            return None;
        }
        rest = rest.get(4..)?;
    }
    if told <= MOST_NAMES { Some(told) } else { None }
}

// The buffer of that number among those that the descriptors tell, which stand in the region one
// after the other.
fn buffer<'a>(region: &'a [u8], descriptors: &[u8], wanted: usize) -> Option<&'a [u8]> {
    let mut rest = region;
    let mut found = None;
    for (place, descriptor) in descriptors.chunks_exact(8).enumerate() {
        let behind = rest.get(count(descriptor, 2)?..)?;
        let (this, after) = behind.split_at_checked(count(descriptor.get(4..)?, 4)?)?;
        if *descriptor.get(3)? != 0 {
            return None;
        }
        if place == wanted {
            found = Some(this);
        }
        rest = after;
    }
    found
}

// The one buffer of the root node of a body, whose node has no child.
fn node_buffer(body: &[u8], names: u64) -> Option<&[u8]> {
    let (front, last) = body.split_at_checked(body.len().checked_sub(4)?)?;
    let region_size = front.len().checked_sub(count(last, 4)?)?;
    let (region, flat) = front.split_at_checked(region_size)?;
    let top = root(flat)?;
    let node = table_field(&top, 0)?;
    let encoding = number_field(&node, 0, 2)?;
    vector_field(&node, 1, 1)?;
    let children = vector_field(&node, 2, 4)?;
    let buffers = vector_field(&node, 3, 4)?;
    if encoding >= names || !children.is_empty() || buffers.len() != 4 {
        return None;
    }
    buffer(region, vector_field(&top, 1, 8)?, count(buffers, 4)?)
}

// The rows of the message of an array, eight bytes each, and what follows it.
fn rows(stream: &[u8]) -> Option<(&[u8], &[u8])> {
    let message = message_at(stream)?;
    let told = number_field(&message.content, 0, 4)?;
    let names = primitive_names(&message.content)?;
    let found = node_buffer(message.body, names)?;
    if message.kind == 1 && found.len() as u64 == told.checked_mul(8)? {
        Some((found, message.rest))
    } else {
        None
    }
}

// The rows that are 2 or more. A number whose top bit is set is below 0.
fn at_least_two(alloc: Global, rows: &[u8]) -> Result<Vec<u8>, AllocError> {
    let mut kept = Vec::new(alloc);
    for row in rows.chunks_exact(8) {
        if number(row, 8).is_some_and(|value| 2 <= value && value < HALF) {
            kept.extend_from_slice(row)?;
        }
    }
    Ok(kept)
}

// The selection with that of one array more.
fn with_array(alloc: Global, so_far: Selected, rows: &[u8]) -> Result<Selected, AllocError> {
    let kept = at_least_two(alloc, rows)?;
    let mut output = so_far.output;
    output.extend_from_slice(&array_of(alloc, &kept)?)?;
    Ok(Selected {
        output,
        arrays: so_far.arrays.saturating_add(1),
        read: so_far.read.saturating_add(rows.len() / 8),
        kept: so_far.kept.saturating_add(kept.len() / 8),
    })
}

// What is selected of a stream, or nothing where the bytes are none.
fn selection_of(alloc: Global, stream: &[u8]) -> Result<Option<Selected>, AllocError> {
    let Some(mut rest) = after_type(stream) else {
        return Ok(None);
    };
    let mut all = Selected {
        output: TYPE.to_vec(alloc)?,
        arrays: 0,
        read: 0,
        kept: 0,
    };
    // A message has bytes, so there are no more messages than bytes.
    for _ in 0..stream.len() {
        if rest.is_empty() {
            break;
        }
        let Some((found, after)) = rows(rest) else {
            return Ok(None);
        };
        all = with_array(alloc, all, found)?;
        rest = after;
    }
    Ok(Some(all))
}

/// What `select . ge i64:2` is to do with a stream.
pub(crate) fn expectation_of(alloc: Global, stream: &[u8]) -> Result<Expected, AllocError> {
    let Some(all) = selection_of(alloc, stream)? else {
        return Ok(Expected {
            status: 10,
            output: Vec::new(alloc),
            note: String::from_str(alloc, "error: Unbuilt\n")?,
        });
    };
    let (arrays, read, kept) = (all.arrays, all.read, all.kept);
    Ok(Expected {
        status: 0,
        output: all.output,
        note: format!(in alloc; "arrays {arrays}, read {read}, kept {kept}\n")?,
    })
}
