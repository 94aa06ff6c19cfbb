//! Arrays of lists, structs and extensions from the nodes of bodies.

ghost use Rattle.std.specs.Prelude.{◌≡◌, ◌≤◌, ◌<◌, ◌*◌, IfOk, IsOkUnless, Some, false, ◌∷◌, []};
ghost use Rattle.vortex_terms.specs.Types.{field_at, field_count};
ghost use Rattle.vortex_terms.specs.Term.{extension, fixed_size_list, list, structure};
ghost use Rattle.vortex_types.specs.DTypes.{term_of};
ghost use Rattle.vortex_names.specs.Nullable.{is_nullable};
ghost use Rattle.vortex_body.specs.Node.{node_buffers, node_children, nodes_from};
ghost use Rattle.vortex_node_rows.specs.ByteNode.{AreByteNodes, IsByteNode};
ghost use Rattle.vortex_node_rows.specs.Encodings.{encoding_in};
ghost use Rattle.vortex_node_rows.specs.RowsOf.{elements_of, field_rows_of, fixed_lists, most_rows, offset_lists, only_rows_of, storage_rows, structs};
ghost use Rattle.vortex_array_data.specs.Answers.{Answers};
ghost use Rattle.vortex_array_decode.specs.Decoded.{lists_in};
ghost use Rattle.vortex_array_decode.specs.Agreement.{part, PartsAgree};
ghost use Rattle.vortex_array_data.specs.ArrayNode.{array_child, array_nodes_before, no_array_nodes};
ghost use Rattle.vortex_array_decode.specs.inner.Agreeing.{field_parts, HeldAgrees};
ghost use Rattle.vortex_array_data.specs.Content.{column_nodes, column_rows, held_node, held_rows, mask_nodes, AreFields, IsColumn, IsMask, IsShaped};

use crate::context::ArrayContext;
use crate::decode::{decode, validity};
use std::alloc::Global;
use std::rc::Rc;
use vortex_array_data::{Array, ArrayError, Content, Held};
use vortex_body::NodeParts;
use vortex_leaves::{Offsets, one_buffer};
use vortex_mask::Mask;
use vortex_names::Nullability;
use vortex_node_rows::Encoding;
use vortex_types::{DType, ExtDType, StructFields};
use vortex_wire::ListMetadata;

/// So many elements of lists, and the mask of the lists.
#[cycle(decode)]
#[tactic(auto, unfolding(vortex_node_rows::specs::RowsOf::rows_of))]
fn elements(
    alloc: Global,
    context: &ArrayContext,
    nodes: &[NodeParts],
    dtype: &DType,
    nullability: Nullability,
    count: usize,
    n: usize,
) -> Result<(Array, Option<Mask>), ArrayError>
    requires bytes { AreByteNodes (nodes_from nodes.now) }
    requires few { n ≤ most_rows }
    ensures rows { Answers (λ p. (p.0.rows, p.1)) result (elements_of (encoding_in context.now)
        (nodes_from nodes.now) (term_of dtype.now) (is_nullable nullability) count n) }
    ensures column { IfOk result (λ p. IsColumn (term_of dtype.now) count p.0) }
    ensures mask { IfOk result (λ p. IsMask n (is_nullable nullability) p.1) }
    ensures parts { IfOk result (λ p. PartsAgree (encoding_in context.now) n
        (part (term_of dtype.now) (Some count) ∷ []) (nodes_from nodes.now)
        (array_child p.0.node (mask_nodes n p.1))) }
{
    let [first, others @ ..] = nodes else {
        return Err(ArrayError::Malformed);
    };
    let elements = decode(alloc, context, first, dtype, count)?;
    let validity = validity(alloc, context, others, nullability, n)?;
    Ok((elements, validity))
}

#[cycle(decode)]
#[tactic(auto, unfolding(vortex_node_rows::specs::RowsOf::offset_lists))]
pub(crate) fn lists(
    alloc: Global,
    context: &ArrayContext,
    parts: &NodeParts,
    element: &DType,
    nullability: Nullability,
    n: usize,
) -> Result<Held, ArrayError>
    requires bytes { IsByteNode parts.now }
    requires few { n ≤ most_rows }
    ensures rows { let nl = is_nullable nullability in let t = term_of element.now in
        Answers (held_rows (list t nl) n) result
        (lists_in (encoding_in context.now) parts.now t nl n) }
    ensures shape { IfOk result (λ h.
        IsShaped h.content (list (term_of element.now) (is_nullable nullability)) n) }
    ensures mask { IfOk result (λ h. IsMask n (is_nullable nullability) h.validity) }
    ensures node { IfOk result (λ h. HeldAgrees (encoding_in context.now) Encoding.List
        (list (term_of element.now) (is_nullable nullability)) n parts.now (held_node n h)) }
{
    let Ok(metadata) = ListMetadata::read(parts.metadata()) else {
        return Err(ArrayError::Malformed);
    };
    let count = metadata.elements as usize;
    let Some(bytes) = one_buffer(parts) else {
        return Err(ArrayError::Malformed);
    };
    let offsets = Offsets::read(bytes, n, count)?;
    let (elements, validity) = elements(
        alloc,
        context,
        parts.children(),
        element,
        nullability,
        count,
        n,
    )?;
    let content = Content::Lists(offsets, Rc::new(alloc, elements)?);
    Ok(Held { content, validity })
}

#[cycle(decode)]
#[tactic(auto, unfolding(vortex_node_rows::specs::RowsOf::fixed_lists))]
pub(crate) fn fixed_lists(
    alloc: Global,
    context: &ArrayContext,
    parts: &NodeParts,
    element: &DType,
    size: u32,
    nullability: Nullability,
    n: usize,
) -> Result<Held, ArrayError>
    requires bytes { IsByteNode parts.now }
    requires few { n ≤ most_rows }
    ensures rows { let nl = is_nullable nullability in let t = term_of element.now in
        Answers (held_rows (fixed_size_list t size nl) n) result
        (fixed_lists size n (node_buffers parts.now)
        (elements_of (encoding_in context.now) (node_children parts.now) t nl (n * size) n)) }
    ensures shape { IfOk result (λ h.
        IsShaped h.content
        (fixed_size_list (term_of element.now) size (is_nullable nullability)) n) }
    ensures mask { IfOk result (λ h. IsMask n (is_nullable nullability) h.validity) }
    ensures node { IfOk result (λ h. HeldAgrees (encoding_in context.now) Encoding.FixedSizeList
        (fixed_size_list (term_of element.now) size (is_nullable nullability)) n parts.now (held_node n h)) }
{
    if parts.buffer_count() != 0 {
        return Err(ArrayError::Malformed);
    }
    let count = n * size as usize;
    let (elements, validity) = elements(
        alloc,
        context,
        parts.children(),
        element,
        nullability,
        count,
        n,
    )?;
    let content = Content::FixedLists(size, Rc::new(alloc, elements)?);
    Ok(Held { content, validity })
}

/// The array of the one child.
#[cycle(decode)]
#[tactic(auto, unfolding(vortex_node_rows::specs::RowsOf::rows_of, vortex_node_rows::specs::RowsOf::only_child))]
fn only_array(
    alloc: Global,
    context: &ArrayContext,
    nodes: &[NodeParts],
    dtype: &DType,
    n: usize,
) -> Result<Array, ArrayError>
    requires { AreByteNodes (nodes_from nodes.now) }
    ensures rows { Answers (λ a. a.rows) result
        (only_rows_of (encoding_in context.now) (nodes_from nodes.now) (term_of dtype.now) n) }
    ensures column { IfOk result (IsColumn (term_of dtype.now) n) }
    ensures parts { IfOk result (λ a. PartsAgree (encoding_in context.now) n
        (part (term_of dtype.now) (Some n) ∷ []) (nodes_from nodes.now)
        (array_child a.node no_array_nodes)) }
{
    let [child, others @ ..] = nodes else {
        return Err(ArrayError::Malformed);
    };
    if !others.is_empty() {
        return Err(ArrayError::Malformed);
    }
    decode(alloc, context, child, dtype, n)
}

#[cycle(decode)]
#[tactic(auto, unfolding(vortex_node_rows::specs::RowsOf::structs))]
pub(crate) fn structs(
    alloc: Global,
    context: &ArrayContext,
    parts: &NodeParts,
    fields: &StructFields,
    nullability: Nullability,
    n: usize,
) -> Result<Held, ArrayError>
    requires bytes { IsByteNode parts.now }
    requires few { n ≤ most_rows }
    ensures rows { let nl = is_nullable nullability in
        Answers (held_rows (structure fields.now nl) n) result (structs n (node_buffers parts.now)
        (field_rows_of (encoding_in context.now) (node_children parts.now) fields.now nl n)) }
    ensures shape { IfOk result (λ h.
        IsShaped h.content (structure fields.now (is_nullable nullability)) n) }
    ensures mask { IfOk result (λ h. IsMask n (is_nullable nullability) h.validity) }
    ensures node { IfOk result (λ h. HeldAgrees (encoding_in context.now) Encoding.Struct
        (structure fields.now (is_nullable nullability)) n parts.now (held_node n h)) }
{
    if parts.buffer_count() != 0 {
        return Err(ArrayError::Malformed);
    }
    let (arrays, validity) = field_arrays(
        alloc,
        context,
        parts.children(),
        fields,
        nullability,
        n,
    )?;
    let content = Content::Structs(arrays);
    Ok(Held { content, validity })
}

#[cycle(decode)]
#[tactic(auto, unfolding(vortex_node_rows::specs::RowsOf::storage_rows))]
pub(crate) fn extension(
    alloc: Global,
    context: &ArrayContext,
    parts: &NodeParts,
    ext: &ExtDType,
    n: usize,
) -> Result<Held, ArrayError>
    requires bytes { IsByteNode parts.now }
    requires few { n ≤ most_rows }
    ensures rows { let t = extension ext.now.id ext.now.storage ext.now.metadata in
        Answers (held_rows t n) result (storage_rows (node_buffers parts.now)
        (only_rows_of (encoding_in context.now) (node_children parts.now) ext.now.storage n)) }
    ensures shape { IfOk result (λ h.
        IsShaped h.content (extension ext.now.id ext.now.storage ext.now.metadata) n) }
    ensures mask { IfOk result (λ h. IsMask n false h.validity) }
    ensures node { IfOk result (λ h. HeldAgrees (encoding_in context.now) Encoding.Ext
        (extension ext.now.id ext.now.storage ext.now.metadata) n parts.now (held_node n h)) }
{
    if parts.buffer_count() != 0 {
        return Err(ArrayError::Malformed);
    }
    let array = only_array(alloc, context, parts.children(), ext.storage_dtype(), n)?;
    let content = Content::Storage(Rc::new(alloc, array)?);
    Ok(Held {
        content,
        validity: None,
    })
}

/// The arrays of the fields, and the mask of the structs.
#[cycle(decode)]
#[tactic(auto, unfolding(vortex_node_rows::specs::RowsOf::rows_of, vortex_node_rows::specs::RowsOf::mask_in))]
fn field_arrays(
    alloc: Global,
    context: &ArrayContext,
    nodes: &[NodeParts],
    fields: &StructFields,
    nullability: Nullability,
    n: usize,
) -> Result<(Vec<Array>, Option<Mask>), ArrayError>
    requires bytes { AreByteNodes (nodes_from nodes.now) }
    requires few { n ≤ most_rows }
    ensures rows { Answers (λ p. (column_rows p.0.items, p.1)) result
        (field_rows_of (encoding_in context.now) (nodes_from nodes.now) fields.now
        (is_nullable nullability) n) }
    ensures fields { IfOk result (λ p. AreFields n fields.now p.0.items) }
    ensures mask { IfOk result (λ p. IsMask n (is_nullable nullability) p.1) }
    ensures parts { IfOk result (λ p. PartsAgree (encoding_in context.now) n
        (field_parts fields.now n) (nodes_from nodes.now)
        (array_nodes_before (column_nodes p.0.items) (mask_nodes n p.1))) }
{
    let count = fields.nfields();
    let mut arrays = Vec::with_capacity(alloc, count)?;
    let mut rest = nodes;
    for i in 0..count {
        let [first, others @ ..] = rest else {
            return Err(ArrayError::Malformed);
        };
        let dtype = field_type(alloc, fields, i)?;
        arrays.push(decode(alloc, context, first, &dtype, n)?)?;
        rest = others;
    }
    let validity = validity(alloc, context, rest, nullability, n)?;
    Ok((arrays, validity))
}

/// The type of the field at an index.
fn field_type(alloc: Global, fields: &StructFields, i: usize) -> Result<DType, ArrayError>
    requires { i < field_count fields.now }
    ensures field { IfOk result (λ t. Some (term_of t) ≡ field_at fields.now i) }
    ensures memory { IsOkUnless result ArrayError.OutOfMemory }
{
    match fields.field_by_index(alloc, i) {
        Ok(Some(dtype)) => Ok(dtype),
        Ok(None) => unreachable!(),
        Err(_) => Err(ArrayError::OutOfMemory),
    }
}
