//! A type as a message, whose parts are left where they stand.

ghost use Rattle.std.specs.Prelude.{◌≡◌, Some};
ghost use Rattle.std.specs.Option.{option_map};
ghost use Rattle.vortex_number.specs.WholeKind.{whole_kind};
ghost use Rattle.vortex_wire.specs.Finds.{Finds, FindsInMemory};
ghost use Rattle.vortex_proto.specs.Reading.{binary_in, body_in, boolean_in, decimal_in};
ghost use Rattle.vortex_proto.specs.Reading.{extension_in, fixed_size_list_in, list_in, node_in};
ghost use Rattle.vortex_proto.specs.Reading.{null_in, primitive_in, ptype_from, structure_in};
ghost use Rattle.vortex_proto.specs.Reading.{utf8_in};
ghost use Rattle.vortex_proto.specs.TypeMessage.{kind_and_body};
ghost use Rattle.vortex_proto.specs.Views.{node_of};

use crate::schema::*;
use std::alloc::Global;
use vortex_number::PType;
use vortex_wire::{
    WireError, WireValue, bytes_fields, flag, is_message, message_field, only_field,
    optional_bytes, singular_i32, singular_text, singular_u32, texts,
};

/// A type as a message, whose parts are left where they stand and not looked into. A `bool` says
/// whether a row may be null.
#[derive(Drop)]
pub enum TypeMessage<'a> {
    Null,
    Bool(bool),
    Primitive(PType, bool),
    /// Precision and scale, which may not go together.
    Decimal(u32, i32, bool),
    Utf8(bool),
    Binary(bool),
    /// Names, and the messages of the types.
    Struct(Vec<&'a str>, Vec<&'a [u8]>, bool),
    List(&'a [u8], bool),
    /// Id, the message of the storage, and maybe metadata.
    Extension(&'a str, &'a [u8], Option<&'a [u8]>),
    FixedSizeList(&'a [u8], u32, bool),
}

impl<'a> TypeMessage<'a> {
    /// The type of a message. Its parts are not looked into.
    #[tactic(auto, unfolding(crate::specs::Reading::node_in))]
    pub fn read(alloc: Global, b: &'a [u8]) -> Result<TypeMessage<'a>, WireError>
        ensures { FindsInMemory node_of result (node_in b.now) }
    {
        let (number, body) = kind_and_body(b)?;
        read_body(alloc, number, body)
    }
}

/// The number of the kind of type, and the message of the kind.
#[tactic(auto, unfolding(crate::specs::TypeMessage::kind_and_body))]
fn kind_and_body(b: &[u8]) -> Result<(u32, &[u8]), WireError>
    ensures { Finds (λ x. (x.0, x.1.now)) result (kind_and_body b.now) }
{
    match only_field(b, FIRST_KIND, LAST_KIND)? {
        Some(field) => match field.value {
            WireValue::Bytes(body) => Ok((field.number, body)),
            _ => Err(WireError::Malformed),
        },
        None => Err(WireError::Malformed),
    }
}

/// The type of the kind with this number.
#[tactic(auto, unfolding(crate::specs::Reading::body_in))]
fn read_body(alloc: Global, number: u32, body: &[u8]) -> Result<TypeMessage<'_>, WireError>
    ensures { FindsInMemory node_of result (body_in number body.now) }
{
    match number {
        1 => read_null(body),
        2 => read_boolean(body),
        3 => read_primitive(body),
        4 => read_decimal(body),
        5 => read_utf8(body),
        6 => read_binary(body),
        7 => read_structure(alloc, body),
        8 => read_list(body),
        9 => read_extension(body),
        10 => read_fixed_size_list(body),
        _ => Err(WireError::Malformed),
    }
}

#[tactic(auto, unfolding(crate::specs::Reading::null_in))]
fn read_null(body: &[u8]) -> Result<TypeMessage<'_>, WireError>
    ensures { Finds node_of result (null_in body.now) }
{
    if !is_message(body) {
        return Err(WireError::Malformed);
    }
    Ok(TypeMessage::Null)
}

#[tactic(auto, unfolding(crate::specs::Reading::boolean_in))]
fn read_boolean(body: &[u8]) -> Result<TypeMessage<'_>, WireError>
    ensures { Finds node_of result (boolean_in body.now) }
{
    let nullable = flag(body, PLAIN_NULLABLE)?;
    Ok(TypeMessage::Bool(nullable))
}

/// The kind of whole numbers with this number, where there is one.
fn ptype_from(number: u32) -> Option<PType>
    ensures { option_map whole_kind result ≡ ptype_from number }
{
    match number {
        0 => Some(PType::U8),
        1 => Some(PType::U16),
        2 => Some(PType::U32),
        3 => Some(PType::U64),
        4 => Some(PType::I8),
        5 => Some(PType::I16),
        6 => Some(PType::I32),
        7 => Some(PType::I64),
        _ => None,
    }
}

#[tactic(auto, unfolding(crate::specs::Reading::primitive_in))]
fn read_primitive(body: &[u8]) -> Result<TypeMessage<'_>, WireError>
    ensures { Finds node_of result (primitive_in body.now) }
{
    let number = singular_u32(body, PRIMITIVE_PTYPE)?;
    let ptype = ptype_from(number).ok_or(WireError::Malformed)?;
    let nullable = flag(body, PRIMITIVE_NULLABLE)?;
    Ok(TypeMessage::Primitive(ptype, nullable))
}

#[tactic(auto, unfolding(crate::specs::Reading::decimal_in))]
fn read_decimal(body: &[u8]) -> Result<TypeMessage<'_>, WireError>
    ensures { Finds node_of result (decimal_in body.now) }
{
    let precision = singular_u32(body, DECIMAL_PRECISION)?;
    let scale = singular_i32(body, DECIMAL_SCALE)?;
    let nullable = flag(body, DECIMAL_NULLABLE)?;
    Ok(TypeMessage::Decimal(precision, scale, nullable))
}

#[tactic(auto, unfolding(crate::specs::Reading::utf8_in))]
fn read_utf8(body: &[u8]) -> Result<TypeMessage<'_>, WireError>
    ensures { Finds node_of result (utf8_in body.now) }
{
    let nullable = flag(body, PLAIN_NULLABLE)?;
    Ok(TypeMessage::Utf8(nullable))
}

#[tactic(auto, unfolding(crate::specs::Reading::binary_in))]
fn read_binary(body: &[u8]) -> Result<TypeMessage<'_>, WireError>
    ensures { Finds node_of result (binary_in body.now) }
{
    let nullable = flag(body, PLAIN_NULLABLE)?;
    Ok(TypeMessage::Binary(nullable))
}

#[tactic(auto, unfolding(crate::specs::Reading::structure_in))]
fn read_structure(alloc: Global, body: &[u8]) -> Result<TypeMessage<'_>, WireError>
    ensures { FindsInMemory node_of result (structure_in body.now) }
{
    let names = texts(alloc, body, STRUCT_NAMES)?;
    let parts = bytes_fields(alloc, body, STRUCT_DTYPES)?;
    let nullable = flag(body, STRUCT_NULLABLE)?;
    Ok(TypeMessage::Struct(names, parts, nullable))
}

#[tactic(auto, unfolding(crate::specs::Reading::list_in))]
fn read_list(body: &[u8]) -> Result<TypeMessage<'_>, WireError>
    ensures { Finds node_of result (list_in body.now) }
{
    let element = message_field(body, LIST_ELEMENT)?;
    let nullable = flag(body, LIST_NULLABLE)?;
    Ok(TypeMessage::List(element, nullable))
}

#[tactic(auto, unfolding(crate::specs::Reading::extension_in))]
fn read_extension(body: &[u8]) -> Result<TypeMessage<'_>, WireError>
    ensures { Finds node_of result (extension_in body.now) }
{
    let id = singular_text(body, EXTENSION_ID)?;
    let storage = message_field(body, EXTENSION_STORAGE)?;
    let metadata = optional_bytes(body, EXTENSION_METADATA)?;
    Ok(TypeMessage::Extension(id, storage, metadata))
}

#[tactic(auto, unfolding(crate::specs::Reading::fixed_size_list_in))]
fn read_fixed_size_list(body: &[u8]) -> Result<TypeMessage<'_>, WireError>
    ensures { Finds node_of result (fixed_size_list_in body.now) }
{
    let element = message_field(body, FIXED_ELEMENT)?;
    let size = singular_u32(body, FIXED_SIZE)?;
    let nullable = flag(body, FIXED_NULLABLE)?;
    Ok(TypeMessage::FixedSizeList(element, size, nullable))
}
