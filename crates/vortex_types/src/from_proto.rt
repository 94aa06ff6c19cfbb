//! Types read from Protocol Buffers messages.

ghost use Rattle.std.specs.Prelude.{◌≡◌, length, IfOk, IsOkUnless};
ghost use Rattle.std.specs.Option.{option_copied};
ghost use Rattle.vortex_terms.specs.Tests.{is_decimal};
ghost use Rattle.vortex_terms.specs.Types.{fields_from};
ghost use Rattle.vortex_wire.specs.Finds.{all_bytes_of};
ghost use Rattle.vortex_proto.specs.Reading.{decimal_of, extension_of, fixed_size_list_of, list_of};
ghost use Rattle.vortex_proto.specs.Reading.{node_in, structure_of, term_in, type_in, types_in};
ghost use Rattle.vortex_proto.specs.Views.{node_of};
ghost use Rattle.vortex_types.specs.DTypes.{term_of};
ghost use Rattle.vortex_types.specs.Standing.{IsBoundedMessage, IsFoundAs, IsReadAs};

use crate::dtype::DType;
use crate::element::Element;
use crate::field_dtype::FieldDType;
use crate::reading::{are_bytes, extension_type, nullability};
use crate::room::is_within;
use crate::struct_fields::StructFields;
use std::alloc::Global;
use vortex_names::{DTypeError, DecimalDType, FieldNames};
use vortex_proto::TypeMessage;
use vortex_wire::WireError;

/// How deep a type nests at most.
const MOST_LEVELS: usize = 64;

impl DType {
    /// The type of a Protocol Buffers message. Malformed where the bytes are a message of no type
    /// within the limits.
    #[tactic(auto, using(crate::proofs::ReadMessages::bounded_read, crate::proofs::ReadMessages::none_told, crate::proofs::ReadMessages::outside_told))]
    pub fn from_proto(alloc: Global, bytes: &[u8]) -> Result<DType, DTypeError>
        ensures { IsReadAs term_of result (IsBoundedMessage bytes.now) }
    {
        are_bytes(bytes);
        let dtype = match read_message(alloc, bytes, MOST_LEVELS) {
            Ok(dtype) => dtype,
            Err(error) => return Err(error),
        };
        if !is_within(dtype.type_ref()) {
            return Err(DTypeError::Malformed);
        }
        Ok(dtype)
    }
}

/// The type of a message, of so many levels at most.
#[cycle(message_reading)]
#[tactic(auto, using(crate::proofs::ReadMessages::no_level, crate::proofs::ReadMessages::one_level))]
fn read_message(alloc: Global, bytes: &[u8], levels: usize) -> Result<DType, DTypeError>
    ensures { IsFoundAs term_of result (type_in levels bytes.now) }
{
    if levels == 0 {
        return Err(DTypeError::Malformed);
    }
    match message_node(alloc, bytes) {
        Ok(node) => read_node(alloc, node, levels - 1),
        Err(error) => Err(error),
    }
}

/// The type of a message, whose parts are not looked into.
fn message_node(alloc: Global, bytes: &[u8]) -> Result<TypeMessage<'_>, DTypeError>
    ensures { IsFoundAs node_of result (node_in bytes.now) }
{
    match TypeMessage::read(alloc, bytes) {
        Ok(node) => Ok(node),
        Err(WireError::OutOfMemory) => Err(DTypeError::OutOfMemory),
        Err(WireError::Malformed) => Err(DTypeError::Malformed),
    }
}

/// The type of a node, whose parts are of so many levels at most.
#[cycle(message_reading)]
fn read_node(alloc: Global, node: TypeMessage<'_>, levels: usize) -> Result<DType, DTypeError>
    ensures { IsFoundAs term_of result (term_in (type_in levels) (node_of node.entry)) }
{
    match node {
        TypeMessage::Null => Ok(DType::Null),
        TypeMessage::Bool(n) => Ok(DType::Bool(nullability(n))),
        TypeMessage::Primitive(ptype, n) => Ok(DType::Primitive(ptype, nullability(n))),
        TypeMessage::Decimal(precision, scale, n) => read_decimal(precision, scale, n),
        TypeMessage::Utf8(n) => Ok(DType::Utf8(nullability(n))),
        TypeMessage::Binary(n) => Ok(DType::Binary(nullability(n))),
        TypeMessage::Struct(names, parts, n) => read_struct(alloc, &names, &parts, n, levels),
        TypeMessage::List(part, n) => read_list(alloc, part, n, levels),
        TypeMessage::Extension(id, part, metadata) => {
            read_extension(alloc, id, part, metadata, levels)
        }
        TypeMessage::FixedSizeList(part, size, n) => read_fixed(alloc, part, size, n, levels),
    }
}

/// Whether there are decimals of this precision and scale.
fn is_decimal(precision: u32, scale: i32) -> bool
    ensures { result ≡ is_decimal precision scale }
{
    1 <= precision && precision <= 76 && -128 <= scale && i64::from(scale) <= i64::from(precision)
}

fn read_decimal(precision: u32, scale: i32, nullable: bool) -> Result<DType, DTypeError>
    ensures { IsFoundAs term_of result (decimal_of precision scale nullable) }
{
    if !is_decimal(precision, scale) {
        return Err(DTypeError::Malformed);
    }
    let decimal = DecimalDType::new(precision as u8, scale as i8);
    Ok(DType::Decimal(decimal, nullability(nullable)))
}

#[cycle(message_reading)]
#[tactic(auto, unfolding(vortex_proto::specs::Reading::list_of))]
fn read_list(alloc: Global, part: &[u8], nullable: bool, levels: usize) -> Result<DType, DTypeError>
    ensures { IsFoundAs term_of result (list_of (type_in levels) part.now nullable) }
{
    let element = Element::new(alloc, read_message(alloc, part, levels)?)?;
    Ok(DType::List(element, nullability(nullable)))
}

#[cycle(message_reading)]
#[tactic(auto, unfolding(vortex_proto::specs::Reading::fixed_size_list_of))]
fn read_fixed(
    alloc: Global,
    part: &[u8],
    size: u32,
    nullable: bool,
    levels: usize,
) -> Result<DType, DTypeError>
    ensures { IsFoundAs term_of result (fixed_size_list_of (type_in levels) part.now size nullable) }
{
    let element = Element::new(alloc, read_message(alloc, part, levels)?)?;
    Ok(DType::FixedSizeList(element, size, nullability(nullable)))
}

#[cycle(message_reading)]
#[tactic(auto, unfolding(vortex_proto::specs::Reading::extension_of))]
fn read_extension(
    alloc: Global,
    id: &str,
    part: &[u8],
    metadata: Option<&[u8]>,
    levels: usize,
) -> Result<DType, DTypeError>
    ensures { IsFoundAs term_of result
        (extension_of (type_in levels) id.now part.now (option_copied metadata.entry)) }
{
    let storage = read_message(alloc, part, levels)?;
    if storage.is_extension() {
        return Err(DTypeError::Malformed);
    }
    extension_type(alloc, id, storage, metadata)
}

#[cycle(message_reading)]
#[tactic(auto, unfolding(vortex_proto::specs::Reading::structure_of))]
fn read_struct(
    alloc: Global,
    names: &[&str],
    parts: &[&[u8]],
    nullable: bool,
    levels: usize,
) -> Result<DType, DTypeError>
    ensures { IsFoundAs term_of result
        (structure_of (type_in levels) (all_bytes_of names.now) (all_bytes_of parts.now) nullable) }
{
    let dtypes = read_types(alloc, parts, levels)?;
    if names.len() != dtypes.len() {
        return Err(DTypeError::Malformed);
    }
    let fields = named_fields(alloc, names, dtypes)?;
    Ok(DType::Struct(fields, nullability(nullable)))
}

/// The types of these messages, of so many levels at most.
#[cycle(message_reading)]
fn read_types(alloc: Global, parts: &[&[u8]], levels: usize) -> Result<Vec<FieldDType>, DTypeError>
    ensures { IsFoundAs (λ v. v.items) result
        (types_in (type_in levels) (all_bytes_of parts.now)) }
{
    let mut dtypes = Vec::new(alloc);
    for i in 0..parts.len() {
        match read_message(alloc, parts[i], levels) {
            Ok(dtype) => dtypes.push(FieldDType::from_dtype(dtype))?,
            Err(error) => return Err(error),
        }
    }
    Ok(dtypes)
}

/// The fields of these names and types.
fn named_fields(
    alloc: Global,
    names: &[&str],
    dtypes: Vec<FieldDType>,
) -> Result<StructFields, DTypeError>
    requires { length names.now ≡ length dtypes.items }
    ensures fields { IfOk result (λ s. s ≡ fields_from (all_bytes_of names.now) dtypes.items) }
    ensures memory { IsOkUnless result DTypeError.OutOfMemory }
{
    let names = FieldNames::from_texts(alloc, names)?;
    StructFields::from_fields(alloc, names, dtypes)
}
