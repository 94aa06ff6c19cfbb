//! Streams of the form that is built so far, read from bytes in hand. Whatever has not that form is
//! `Outside`.

ghost use Rattle.std.specs.Prelude.{Some};
ghost use Rattle.std.specs.Option.{option_map};
ghost use Rattle.vortex_flat.specs.Answers.{Answers};
ghost use Rattle.vortex_stream.specs.Header.{message_table_of};
ghost use Rattle.vortex_select.specs.Column.{column_type_of, i64_column};
ghost use Rattle.vortex_select.specs.inner.Decoding.{prefix_of, length_prefixed_of, type_size_of, after_type_of};
ghost use Rattle.vortex_select.specs.inner.Views.{message_view, pair_view};

use crate::schema::{
    DTYPE_INNER, DTYPE_KIND, NEVER_NULL, PRIMITIVE, PRIMITIVE_NULLABLE, PRIMITIVE_PTYPE, PTYPE_I64,
};
use vortex_flat::{FlatError, Table, root, u32_at};
use vortex_stream::schema::{
    DTYPE, MESSAGE_BODY_SIZE, MESSAGE_INNER, MESSAGE_KIND, MESSAGE_VERSION, VERSION,
};

/// What table `Message` of a header says.
#[derive(Drop)]
pub(crate) struct FoundMessage<'a> {
    pub(crate) kind: u8,
    pub(crate) inner: Table<'a>,
    pub(crate) body_size: u64,
}

/// The first `count` bytes, and those after them.
pub(crate) fn prefix(count: u64, bytes: &[u8]) -> Result<(&[u8], &[u8]), FlatError>
    ensures { Answers pair_view result (prefix_of count bytes.now) }
{
    match usize::try_from(count) {
        Ok(count) if count <= bytes.len() => Ok(bytes.split_at(count)),
        _ => Err(FlatError::Outside),
    }
}

/// The bytes behind their length in four bytes, and those after them.
#[tactic(auto, using(vortex_flat::proofs::NumbersLemmas::number_within), unfolding(crate::specs::inner::Decoding::length_prefixed_of))]
pub(crate) fn length_prefixed(bytes: &[u8]) -> Result<(&[u8], &[u8]), FlatError>
    ensures { Answers pair_view result (length_prefixed_of bytes.now) }
{
    let len = u32_at(bytes, 0)?;
    prefix(u64::from(len), &bytes[4..])
}

/// What the table of a header says, where its version is 0.
#[tactic(auto, unfolding(vortex_stream::specs::Header::message_table_of))]
pub(crate) fn message_table(header: &[u8]) -> Result<FoundMessage<'_>, FlatError>
    ensures { Answers message_view result
        (option_map (λ m. (header.now, m)) (message_table_of header.now)) }
{
    let message = root(header)?;
    let version = message.field_u8(MESSAGE_VERSION)?.unwrap_or(0);
    let kind = message.field_u8(MESSAGE_KIND)?.unwrap_or(0);
    let Some(inner) = message.field_table(MESSAGE_INNER)? else {
        return Err(FlatError::Outside);
    };
    let body_size = message.field_u64(MESSAGE_BODY_SIZE)?.unwrap_or(0);
    if version != VERSION {
        return Err(FlatError::Outside);
    }
    Ok(FoundMessage {
        kind,
        inner,
        body_size,
    })
}

/// The size of the body that the header of a type message tells.
#[tactic(auto, unfolding(crate::specs::inner::Decoding::type_size_of))]
fn type_size(header: &[u8]) -> Result<u64, FlatError>
    ensures { Answers (λ x. x) result (type_size_of header.now) }
{
    let message = message_table(header)?;
    if message.kind != DTYPE {
        return Err(FlatError::Outside);
    }
    Ok(message.body_size)
}

/// Nothing, where the body of a type message stands for the column type.
#[tactic(auto, unfolding(crate::specs::Column::column_type_of))]
fn column_type(body: &[u8]) -> Result<(), FlatError>
    ensures { Answers (λ _. i64_column) result (column_type_of body.now) }
{
    let dtype = root(body)?;
    let kind = dtype.field_u8(DTYPE_KIND)?.unwrap_or(0);
    let Some(primitive) = dtype.field_table(DTYPE_INNER)? else {
        return Err(FlatError::Outside);
    };
    let ptype = primitive.field_u8(PRIMITIVE_PTYPE)?.unwrap_or(0);
    let nullable = primitive.field_u8(PRIMITIVE_NULLABLE)?.unwrap_or(0);
    if kind == PRIMITIVE && ptype == PTYPE_I64 && nullable == NEVER_NULL {
        Ok(())
    } else {
        Err(FlatError::Outside)
    }
}

/// What follows a message of the column type.
#[tactic(auto, unfolding(crate::specs::inner::Decoding::after_type_of))]
pub(crate) fn after_type(bytes: &[u8]) -> Result<&[u8], FlatError>
    ensures { Answers (λ rest. rest.now) result (after_type_of bytes.now) }
{
    let (header, rest) = length_prefixed(bytes)?;
    let size = type_size(header)?;
    let (body, rest) = prefix(size, rest)?;
    column_type(body)?;
    Ok(rest)
}
