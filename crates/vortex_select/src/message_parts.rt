//! The bytes that are written.

ghost use Rattle.std.specs.Prelude.{◌≡◌, ◌+◌, ◌≤◌, ◌<◌, ◌^◌, ◌++◌, length, take, drop, IfOk, OnOk, IsSome, Some};
ghost use Rattle.std.specs.Int.{w32, to_le_bytes};
ghost use Rattle.vortex_flat.specs.Finish.{IsTable};
ghost use Rattle.vortex_flat.specs.Item.{tree_of};
ghost use Rattle.vortex_flat.specs.Layout.{layout_of};
ghost use Rattle.vortex_select.specs.Layout.{array_header, body_end, type_message};

use crate::message_items::{array_content, column_type, header, primitive_body};
use std::alloc::{AllocError, Global};
use vortex_flat::{FlatError, Item, Items, Slots};
use vortex_stream::schema::{ARRAY, DTYPE};

/// The layout of a table that has one, so that nothing but lack of memory is in the way.
fn lay_out(alloc: Global, root: &Item) -> Result<Vec<u8>, AllocError>
    requires table { IsTable (tree_of root.now) }
    requires fits { IsSome (layout_of (tree_of root.now)) }
    ensures { IfOk result (λ v. layout_of (tree_of root.now) ≡ Some v.items) }
{
    match Items::finish(alloc, root) {
        Ok(bytes) => Ok(bytes),
        Err(FlatError::OutOfMemory) => Err(AllocError),
        Err(FlatError::Outside | FlatError::TooLong) => unreachable!(),
    }
}

/// The header of the message of the type.
fn type_header(alloc: Global, size: u64) -> Result<Vec<u8>, AllocError>
    requires { size ≡ 48 }
    ensures { IfOk result (λ v. v.items ≡ take 64 (drop 4 type_message)) }
{
    let item = header(alloc, DTYPE, Slots::new(Vec::new(alloc)), size)?;
    lay_out(alloc, &item)
}

/// The body of the message of the type.
fn type_body(alloc: Global) -> Result<Vec<u8>, AllocError>
    ensures { IfOk result (λ v. v.items ≡ drop 68 type_message) }
{
    let item = column_type(alloc)?;
    lay_out(alloc, &item)
}

/// The header of a message of so many rows, which has a body of that size.
pub(crate) fn primitive_header(alloc: Global, rows: u32, size: u64) -> Result<Vec<u8>, AllocError>
    ensures { IfOk result (λ v. v.items ≡ drop 4 (array_header rows size)) }
{
    let item = header(alloc, ARRAY, array_content(alloc, rows)?, size)?;
    lay_out(alloc, &item)
}

/// The flat buffer behind the region of a primitive array, whose length is given.
pub(crate) fn primitive_flat(alloc: Global, len: u32) -> Result<Vec<u8>, AllocError>
    ensures { IfOk result (λ v. v.items ≡ take 112 (body_end len)) }
{
    let item = primitive_body(alloc, len)?;
    lay_out(alloc, &item)
}

/// Appends the message of the column type.
pub(crate) fn push_type(out: &mut Vec<u8>) -> Result<(), AllocError>
    ensures { OnOk result (out.new.items ≡ out.old.items ++ type_message) }
{
    let alloc = *out.allocator();
    let body = type_body(alloc)?;
    let header = type_header(alloc, body.len() as u64)?;
    out.extend_from_slice(&(header.len() as u32).to_le_bytes())?;
    out.extend_from_slice(&header)?;
    out.extend_from_slice(&body)?;
    Ok(())
}

/// Writes `piece` over the bytes from `at` on.
fn put(bytes: &mut [u8], at: usize, piece: &[u8])
    requires { at + length piece.now ≤ length bytes.old }
    ensures { bytes.new
        ≡ take at bytes.old ++ (piece.now ++ drop (at + length piece.now) bytes.old) }
{
    bytes[at..at + piece.len()].copy_from_slice(piece);
}

/// Writes `piece` over the bytes of a vector from `at` on.
fn fill(bytes: &mut Vec<u8>, at: usize, piece: &[u8])
    requires { at + length piece.now ≤ length bytes.old.items }
    ensures { bytes.new.items ≡ take at bytes.old.items
        ++ (piece.now ++ drop (at + length piece.now) bytes.old.items) }
{
    put(bytes, at, piece);
}

/// Writes a header, with its length before it, over the bytes from `at` on.
pub(crate) fn fill_header(bytes: &mut Vec<u8>, at: usize, header: &[u8])
    requires room { at + (4 + length header.now) ≤ length bytes.old.items }
    requires short { length header.now < 2 ^ 32 }
    ensures { bytes.new.items ≡ take at bytes.old.items
        ++ ((to_le_bytes w32 (length header.now) ++ header.now)
        ++ drop (at + (4 + length header.now)) bytes.old.items) }
{
    fill(bytes, at, &(header.len() as u32).to_le_bytes());
    fill(bytes, at + 4, header);
}
