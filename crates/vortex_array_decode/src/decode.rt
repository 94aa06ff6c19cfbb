//! Arrays from the nodes of bodies.

ghost use Rattle.std.specs.Prelude.{◌≡◌, ◌≤◌, IfOk, None, Some, if◌then◌else◌, length, map, true};
ghost use Rattle.std.specs.Option.{option_map};
ghost use Rattle.vortex_terms.specs.Term.{binary, boolean, decimal, null, primitive, utf8};
ghost use Rattle.vortex_number.specs.PType.{format_of};
ghost use Rattle.vortex_number.specs.WholeKind.{whole_kind};
ghost use Rattle.vortex_terms.specs.Row.{bytes_row, truth_row};
ghost use Rattle.vortex_types.specs.DTypes.{term_of};
ghost use Rattle.vortex_body.specs.Node.{node_buffers, node_children, node_metadata, nodes_from};
ghost use Rattle.vortex_names.specs.Nullable.{is_nullable};
ghost use Rattle.vortex_node_rows.specs.ByteNode.{IsByteNode, AreByteNodes};
ghost use Rattle.vortex_node_rows.specs.Encodings.{encoding_in};
ghost use Rattle.vortex_node_rows.specs.Leaves.{constant_rows, decimals_of, numbers_of, pieces_of, truths_of};
ghost use Rattle.vortex_node_rows.specs.RowsOf.{has_none, masked_rows, most_rows, null_rows, rows_of, text_rows, validity_of};
ghost use Rattle.vortex_array_data.specs.Answers.{Answers};
ghost use Rattle.vortex_array_decode.specs.Agreement.{Agrees};
ghost use Rattle.vortex_array_data.specs.ArrayNode.{array_node, no_array_nodes};
ghost use Rattle.vortex_array_data.specs.Content.{held_node, held_rows, is_maskable, IsMask, IsShaped};
ghost use Rattle.vortex_array_decode.specs.Decoded.{rows_in};
ghost use Rattle.vortex_array_decode.specs.inner.Agreeing.{HeldAgrees};

use crate::context::ArrayContext;
use crate::decode_nested::{extension, fixed_lists, lists, structs};
use std::alloc::Global;
use vortex_array_data::{Array, ArrayError, Content, Held};
use vortex_body::NodeParts;
use vortex_leaves::{Decimals, Numbers, Texts, constant, constants_are_copies, one_buffer};
use vortex_mask::Mask;
use vortex_names::{DecimalDType, Nullability};
use vortex_node_rows::Encoding;
use vortex_number::PType;
use vortex_types::DType;

/// How many rows a node has at most.
const MOST_ROWS: usize = 4_294_967_295;

/// The array of the `n` rows of a type that a node stands for, where its encodings are places in
/// the context.
#[cycle(decode)]
pub(crate) fn decode(
    alloc: Global,
    context: &ArrayContext,
    parts: &NodeParts,
    dtype: &DType,
    n: usize,
) -> Result<Array, ArrayError>
    requires { IsByteNode parts.now }
    ensures rows { Answers (λ a. a.rows) result
        (rows_of (encoding_in context.now) parts.now (term_of dtype.now) n) }
    ensures dtype { IfOk result (λ a. a.dtype ≡ term_of dtype.now) }
    ensures node { IfOk result (λ a.
        Agrees (encoding_in context.now) (term_of dtype.now) (Some n) parts.now a.node) }
{
    if n > MOST_ROWS {
        return Err(ArrayError::Malformed);
    }
    let Some(encoding) = context.encoding(parts.encoding()) else {
        return Err(ArrayError::Malformed);
    };
    let held = held(alloc, context, encoding, parts, dtype, n)?;
    let Ok(own) = dtype.try_clone(alloc) else {
        return Err(ArrayError::OutOfMemory);
    };
    Ok(Array::made(own, n, held))
}

/// How the rows of a node in this encoding are held.
#[cycle(decode)]
#[tactic(auto, unfolding(vortex_node_rows::specs::RowsOf::encoded_rows))]
fn held(
    alloc: Global,
    context: &ArrayContext,
    encoding: Encoding,
    parts: &NodeParts,
    dtype: &DType,
    n: usize,
) -> Result<Held, ArrayError>
    requires bytes { IsByteNode parts.now }
    requires few { n ≤ most_rows }
    ensures rows { Answers (held_rows (term_of dtype.now) n) result
        (rows_in (encoding_in context.now) encoding parts.now (term_of dtype.now) n) }
    ensures shape { IfOk result (λ h. IsShaped h.content (term_of dtype.now) n) }
    ensures mask { IfOk result (λ h. IsMask n (is_maskable (term_of dtype.now)) h.validity) }
    ensures node { IfOk result (λ h. HeldAgrees (encoding_in context.now) encoding
        (term_of dtype.now) n parts.now (held_node n h)) }
{
    match (encoding, dtype) {
        (Encoding::Null, DType::Null) => nulls(parts, n),
        (Encoding::Bool, DType::Bool(nullability)) => {
            bools(alloc, context, parts, *nullability, n)
        }
        (Encoding::Primitive, DType::Primitive(ptype, nullability)) => {
            numbers(alloc, context, parts, *ptype, *nullability, n)
        }
        (Encoding::Decimal, DType::Decimal(decimal, nullability)) => {
            decimals(alloc, context, parts, *decimal, *nullability, n)
        }
        (Encoding::VarBin, DType::Utf8(nullability)) => {
            texts(alloc, context, parts, *nullability, n)
        }
        (Encoding::VarBin, DType::Binary(nullability)) => {
            binaries(alloc, context, parts, *nullability, n)
        }
        (Encoding::List, DType::List(element, nullability)) => {
            lists(alloc, context, parts, element.as_dtype(), *nullability, n)
        }
        (Encoding::FixedSizeList, DType::FixedSizeList(element, size, nullability)) => {
            fixed_lists(
                alloc,
                context,
                parts,
                element.as_dtype(),
                *size,
                *nullability,
                n,
            )
        }
        (Encoding::Struct, DType::Struct(fields, nullability)) => {
            structs(alloc, context, parts, fields, *nullability, n)
        }
        (Encoding::Ext, DType::Extension(ext)) => extension(alloc, context, parts, ext, n),
        (Encoding::Constant, _) => constants(alloc, parts, dtype, n),
        _ => Err(ArrayError::Malformed),
    }
}

/// The mask that the children left are: none, or one under a nullable type.
#[cycle(decode)]
#[tactic(auto, unfolding(vortex_node_rows::specs::RowsOf::rows_of, vortex_node_rows::specs::RowsOf::mask_in))]
pub(crate) fn validity(
    alloc: Global,
    context: &ArrayContext,
    nodes: &[NodeParts],
    nullability: Nullability,
    n: usize,
) -> Result<Option<Mask>, ArrayError>
    requires bytes { AreByteNodes (nodes_from nodes.now) }
    requires few { n ≤ most_rows }
    ensures rows { Answers (λ v. v) result
        (validity_of (encoding_in context.now) (nodes_from nodes.now) (is_nullable nullability) n) }
    ensures mask { IfOk result (λ v. IsMask n (is_nullable nullability) v) }
{
    match nodes {
        [] => Ok(None),
        [mask, others @ ..] => {
            if !bool::from(nullability) {
                return Err(ArrayError::Malformed);
            }
            if !others.is_empty() {
                return Err(ArrayError::Malformed);
            }
            let array = decode(
                alloc,
                context,
                mask,
                &DType::Bool(Nullability::NonNullable),
                n,
            )?;
            Ok(Some(array.into_mask()))
        }
    }
}

#[cycle(decode)]
#[tactic(auto, unfolding(vortex_node_rows::specs::RowsOf::masked_rows))]
fn bools(
    alloc: Global,
    context: &ArrayContext,
    parts: &NodeParts,
    nullability: Nullability,
    n: usize,
) -> Result<Held, ArrayError>
    requires bytes { IsByteNode parts.now }
    requires few { n ≤ most_rows }
    ensures rows { let nl = is_nullable nullability in
        Answers (held_rows (boolean nl) n) result
        (masked_rows (truths_of n (node_buffers parts.now))
        (validity_of (encoding_in context.now) (node_children parts.now) nl n)) }
    ensures shape { IfOk result (λ h.
        IsShaped h.content (boolean (is_nullable nullability)) n) }
    ensures mask { IfOk result (λ h. IsMask n (is_nullable nullability) h.validity) }
    ensures node { IfOk result (λ h. HeldAgrees (encoding_in context.now) Encoding.Bool
        (boolean (is_nullable nullability)) n parts.now (held_node n h)) }
{
    let content = Content::Truths(truths(parts, n)?);
    let validity = validity(alloc, context, parts.children(), nullability, n)?;
    Ok(Held { content, validity })
}

#[cycle(decode)]
#[tactic(auto, unfolding(vortex_node_rows::specs::RowsOf::masked_rows))]
fn numbers(
    alloc: Global,
    context: &ArrayContext,
    parts: &NodeParts,
    ptype: PType,
    nullability: Nullability,
    n: usize,
) -> Result<Held, ArrayError>
    requires bytes { IsByteNode parts.now }
    requires few { n ≤ most_rows }
    ensures rows { let nl = is_nullable nullability in
        Answers (held_rows (primitive (whole_kind ptype) nl) n) result
        (masked_rows (numbers_of (format_of ptype) n (node_buffers parts.now))
        (validity_of (encoding_in context.now) (node_children parts.now) nl n)) }
    ensures shape { IfOk result (λ h.
        IsShaped h.content (primitive (whole_kind ptype) (is_nullable nullability)) n) }
    ensures mask { IfOk result (λ h. IsMask n (is_nullable nullability) h.validity) }
    ensures node { IfOk result (λ h. HeldAgrees (encoding_in context.now) Encoding.Primitive
        (primitive (whole_kind ptype) (is_nullable nullability)) n parts.now (held_node n h)) }
{
    let content = Content::Numbers(Numbers::read(parts, ptype, n)?);
    let validity = validity(alloc, context, parts.children(), nullability, n)?;
    Ok(Held { content, validity })
}

#[cycle(decode)]
#[tactic(auto, unfolding(vortex_node_rows::specs::RowsOf::masked_rows))]
fn decimals(
    alloc: Global,
    context: &ArrayContext,
    parts: &NodeParts,
    dtype: DecimalDType,
    nullability: Nullability,
    n: usize,
) -> Result<Held, ArrayError>
    requires bytes { IsByteNode parts.now }
    requires few { n ≤ most_rows }
    ensures rows { let nl = is_nullable nullability in
        Answers (held_rows (decimal dtype.precision dtype.scale nl) n) result
        (masked_rows (decimals_of (node_metadata parts.now) n (node_buffers parts.now))
        (validity_of (encoding_in context.now) (node_children parts.now) nl n)) }
    ensures shape { IfOk result (λ h.
        IsShaped h.content (decimal dtype.precision dtype.scale (is_nullable nullability)) n) }
    ensures mask { IfOk result (λ h. IsMask n (is_nullable nullability) h.validity) }
    ensures node { IfOk result (λ h. HeldAgrees (encoding_in context.now) Encoding.Decimal
        (decimal dtype.precision dtype.scale (is_nullable nullability)) n parts.now (held_node n h)) }
{
    let content = Content::Decimals(Decimals::read(parts, n)?);
    let validity = validity(alloc, context, parts.children(), nullability, n)?;
    Ok(Held { content, validity })
}

#[cycle(decode)]
#[tactic(auto, unfolding(vortex_node_rows::specs::RowsOf::masked_rows))]
fn binaries(
    alloc: Global,
    context: &ArrayContext,
    parts: &NodeParts,
    nullability: Nullability,
    n: usize,
) -> Result<Held, ArrayError>
    requires bytes { IsByteNode parts.now }
    requires few { n ≤ most_rows }
    ensures rows { let nl = is_nullable nullability in
        Answers (held_rows (binary nl) n) result
        (masked_rows (option_map (map bytes_row) (pieces_of n (node_buffers parts.now)))
        (validity_of (encoding_in context.now) (node_children parts.now) nl n)) }
    ensures shape { IfOk result (λ h.
        IsShaped h.content (binary (is_nullable nullability)) n) }
    ensures mask { IfOk result (λ h. IsMask n (is_nullable nullability) h.validity) }
    ensures node { IfOk result (λ h. HeldAgrees (encoding_in context.now) Encoding.VarBin
        (binary (is_nullable nullability)) n parts.now (held_node n h)) }
{
    let content = Content::Texts(Texts::read(parts, n)?);
    let validity = validity(alloc, context, parts.children(), nullability, n)?;
    Ok(Held { content, validity })
}

#[cycle(decode)]
#[tactic(auto, unfolding(vortex_node_rows::specs::RowsOf::text_rows))]
fn texts(
    alloc: Global,
    context: &ArrayContext,
    parts: &NodeParts,
    nullability: Nullability,
    n: usize,
) -> Result<Held, ArrayError>
    requires bytes { IsByteNode parts.now }
    requires few { n ≤ most_rows }
    ensures rows { let nl = is_nullable nullability in
        Answers (held_rows (utf8 nl) n) result (text_rows (pieces_of n (node_buffers parts.now))
        (validity_of (encoding_in context.now) (node_children parts.now) nl n)) }
    ensures shape { IfOk result (λ h.
        IsShaped h.content (utf8 (is_nullable nullability)) n) }
    ensures mask { IfOk result (λ h. IsMask n (is_nullable nullability) h.validity) }
    ensures node { IfOk result (λ h. HeldAgrees (encoding_in context.now) Encoding.VarBin
        (utf8 (is_nullable nullability)) n parts.now (held_node n h)) }
{
    let texts = Texts::read(parts, n)?;
    let validity = validity(alloc, context, parts.children(), nullability, n)?;
    if !texts.are_texts(validity.as_ref()) {
        return Err(ArrayError::Malformed);
    }
    let content = Content::Texts(texts);
    Ok(Held { content, validity })
}

/// The nulls of a node without buffers and children.
#[tactic(auto, unfolding(vortex_node_rows::specs::RowsOf::null_rows))]
fn nulls(parts: &NodeParts, n: usize) -> Result<Held, ArrayError>
    ensures rows { Answers (held_rows null n) result
        (null_rows n (node_buffers parts.now) (has_none (node_children parts.now))) }
    ensures shape { IfOk result (λ h. IsShaped h.content null n) }
    ensures mask { IfOk result (λ h. IsMask n true h.validity) }
    ensures node { IfOk result (λ h. held_node n h ≡ array_node Encoding.Null n no_array_nodes) }
{
    if parts.buffer_count() != 0 {
        return Err(ArrayError::Malformed);
    }
    if !parts.children().is_empty() {
        return Err(ArrayError::Malformed);
    }
    Ok(Held {
        content: Content::Nulls,
        validity: None,
    })
}

/// The truth values that the one buffer is.
#[tactic(auto, unfolding(vortex_node_rows::specs::Leaves::truths_of))]
fn truths(parts: &NodeParts, n: usize) -> Result<Mask, ArrayError>
    ensures rows { Answers (λ m. map truth_row m) result (truths_of n (node_buffers parts.now)) }
    ensures count { IfOk result (λ m. length m ≡ n) }
{
    let Some(bytes) = one_buffer(parts) else {
        return Err(ArrayError::Malformed);
    };
    let bytes = bytes.clone()?;
    match Mask::from_bits(bytes, n) {
        Some(mask) => Ok(mask),
        None => Err(ArrayError::Malformed),
    }
}

/// One value for all rows, where there are no children.
fn constants(alloc: Global, parts: &NodeParts, dtype: &DType, n: usize) -> Result<Held, ArrayError>
    ensures rows { let t = term_of dtype.now in Answers (held_rows t n) result
        (if has_none (node_children parts.now) then constant_rows t n (node_buffers parts.now)
        else None) }
    ensures shape { IfOk result (λ h. IsShaped h.content (term_of dtype.now) n) }
    ensures mask { IfOk result (λ h. IsMask n (is_maskable (term_of dtype.now)) h.validity) }
    ensures node { IfOk result (λ h.
        held_node n h ≡ array_node Encoding.Constant n no_array_nodes) }
{
    if !parts.children().is_empty() {
        return Err(ArrayError::Malformed);
    }
    constants_are_copies();
    let value = constant(alloc, parts, dtype.type_ref())?;
    Ok(Held {
        content: Content::Constant(value),
        validity: None,
    })
}
