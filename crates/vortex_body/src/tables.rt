//! The tables of nodes, read.

ghost use Rattle.std.specs.Prelude.{◌≡◌, [], IfOk, Some};
ghost use Rattle.std.specs.Option.{option_map};
ghost use Rattle.vortex_prelude.specs.Absent.{or_else, or_zero};
ghost use Rattle.vortex_flat.specs.Answers.{Answers};
ghost use Rattle.vortex_flat.specs.Targets.{bytes_field, number_field, or_empty, vector_field, vector_view};
ghost use Rattle.vortex_body.specs.inner.Walked.{named_count, targets_at};

use crate::first::first_of;
use crate::places::Places;
use crate::schema::*;
use vortex_flat::{FlatError, Table, Vector};

/// The place of the encoding of a node among the names of the header.
pub(crate) fn encoding(node: &Table<'_>) -> Result<u16, FlatError>
    ensures { Answers (λ x. x) result
        (or_zero (number_field node.now.buffer node.now.place NODE_ENCODING 2)) }
{
    Ok(node.field_u16(NODE_ENCODING)?.unwrap_or(0))
}

/// The metadata of a node.
pub(crate) fn metadata<'a>(node: &Table<'a>) -> Result<&'a [u8], FlatError>
    ensures { Answers (λ x. x.now) result
        (or_else [] (bytes_field node.now.buffer node.now.place NODE_METADATA)) }
{
    match node.field_bytes(NODE_METADATA)? {
        Some(bytes) => Ok(bytes),
        None => Ok(&[]),
    }
}

/// The places of the buffers of a node.
pub(crate) fn places<'a>(node: &Table<'a>) -> Result<Vector<'a>, FlatError>
    ensures found { Answers (λ x. x) result (option_map (vector_view node.now.buffer)
        (or_empty 4 (vector_field node.now.buffer node.now.place NODE_BUFFERS 4))) }
    ensures width { IfOk result (λ vector. vector.shape.width ≡ 4) }
{
    node.field_vector_or_empty(NODE_BUFFERS, 4)
}

/// How many of these places there are, which are the node's, where each is one of a buffer.
fn named_count(node: &Table<'_>, places: &Vector<'_>, body: &Places) -> Result<usize, FlatError>
    requires body { node.now.buffer ≡ body.now.flat }
    requires found { option_map (vector_view node.now.buffer)
        (or_empty 4 (vector_field node.now.buffer node.now.place NODE_BUFFERS 4))
        ≡ Some places.now }
    requires width { places.now.shape.width ≡ 4 }
    ensures { Answers (λ x. x) result
        (named_count node.now.buffer body.now.buffers places.now.shape) }
{
    if places.is_empty() {
        return Ok(0);
    }
    places.law();
    let first = first_of(body.flat.as_slice(), node.place(), places);
    if !body.names_all(first, places.len()) {
        return Err(FlatError::Outside);
    }
    Ok(places.len())
}

/// The offsets to the children of a node, where all else of it stands.
#[tactic(auto, unfolding(crate::specs::inner::Walked::targets_at))]
pub(crate) fn targets<'a>(node: &Table<'a>, body: &Places) -> Result<Vector<'a>, FlatError>
    requires { node.now.buffer ≡ body.now.flat }
    ensures found { Answers (λ x. x) result (option_map (vector_view node.now.buffer)
        (targets_at node.now.buffer body.now.buffers node.now.place)) }
    ensures width { IfOk result (λ vector. vector.shape.width ≡ 4) }
{
    encoding(node)?;
    metadata(node)?;
    let places = places(node)?;
    named_count(node, &places, body)?;
    node.field_vector_or_empty(NODE_CHILDREN, 4)
}
