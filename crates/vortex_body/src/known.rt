//! What a node has beside its children, where one is known to stand.

ghost use Rattle.std.specs.Prelude.{◌≡◌, ◌<◌, IsSome, Some, length, slice_get};
ghost use Rattle.vortex_body.specs.Body.{named_buffers};
ghost use Rattle.vortex_body.specs.Reading.{own_at};
ghost use Rattle.vortex_body.specs.inner.Walked.{known_own};

use crate::schema::*;
use crate::tables::{encoding, metadata, places};
use bytes::Bytes;
use vortex_flat::{Table, Vector};

/// The table of the node.
#[tactic(auto, using(crate::proofs::KnownNode::known_table, crate::proofs::KnownNode::same_place))]
fn table_of<'a>(flat: &'a [u8], buffers: &[Bytes], place: usize) -> Table<'a>
    requires { IsSome (own_at flat.now buffers.now place) }
    ensures buffer { result.buffer ≡ flat.now }
    ensures place { result.place ≡ place }
{
    let _ = buffers;
    match Table::at(flat, place) {
        Ok(table) => table,
        Err(_) => unreachable!(),
    }
}

/// The place of its encoding among the names of the header.
#[tactic(auto, using(crate::proofs::KnownNode::encoding_is, crate::proofs::KnownNode::no_encoding))]
pub(crate) fn known_encoding(flat: &[u8], buffers: &[Bytes], place: usize) -> u16
    requires { IsSome (own_at flat.now buffers.now place) }
    ensures { result ≡ (known_own flat.now buffers.now place).encoding }
{
    match encoding(&table_of(flat, buffers, place)) {
        Ok(number) => number,
        Err(_) => unreachable!(),
    }
}

/// Its metadata.
#[tactic(auto, using(crate::proofs::KnownNode::metadata_is, crate::proofs::KnownNode::no_metadata))]
pub(crate) fn known_metadata<'a>(flat: &'a [u8], buffers: &[Bytes], place: usize) -> &'a [u8]
    requires { IsSome (own_at flat.now buffers.now place) }
    ensures { result.now ≡ (known_own flat.now buffers.now place).metadata }
{
    match metadata(&table_of(flat, buffers, place)) {
        Ok(bytes) => bytes,
        Err(_) => unreachable!(),
    }
}

/// The places of its buffers.
#[tactic(auto, using(crate::proofs::KnownNode::no_places, crate::proofs::KnownNode::named_are))]
fn known_places<'a>(flat: &'a [u8], buffers: &[Bytes], place: usize) -> Vector<'a>
    requires { IsSome (own_at flat.now buffers.now place) }
    ensures buffer { result.buffer ≡ flat.now }
    ensures width { result.shape.width ≡ 4 }
    ensures named { named_buffers flat.now buffers.now result.shape
        ≡ Some (known_own flat.now buffers.now place).buffers }
{
    match places(&table_of(flat, buffers, place)) {
        Ok(vector) => vector,
        Err(_) => unreachable!(),
    }
}

/// How many buffers it has.
#[tactic(auto, using(crate::proofs::Named::named_count_is))]
pub(crate) fn known_buffer_count(flat: &[u8], buffers: &[Bytes], place: usize) -> usize
    requires { IsSome (own_at flat.now buffers.now place) }
    ensures { result ≡ length (known_own flat.now buffers.now place).buffers }
{
    known_places(flat, buffers, place).len()
}

/// Its buffer `i`.
#[tactic(auto, using(crate::proofs::Named::named_is))]
pub(crate) fn known_buffer<'a>(
    flat: &[u8],
    buffers: &'a [Bytes],
    place: usize,
    i: usize,
) -> &'a Bytes
    requires stands { IsSome (own_at flat.now buffers.now place) }
    requires index { i < length (known_own flat.now buffers.now place).buffers }
    ensures { slice_get (known_own flat.now buffers.now place).buffers i ≡ Some result.now }
{
    let places = known_places(flat, buffers, place);
    &buffers[places.u32(i) as usize]
}
