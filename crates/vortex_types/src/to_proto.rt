//! Types written as Protocol Buffers messages.

ghost use Rattle.std.specs.Prelude.{◌≡◌, ◌<◌, ◌^◌, ◌++◌, IfOk, IsOkUnless};
ghost use Rattle.std.specs.Option.{option_copied};
ghost use Rattle.vortex_terms.specs.TermCode.{kind_number};
ghost use Rattle.vortex_terms.specs.Types.{names_of};
ghost use Rattle.vortex_names.specs.Nullable.{is_nullable};
ghost use Rattle.vortex_number.specs.WholeKind.{whole_kind};
ghost use Rattle.vortex_wire.specs.Field.{bytes_field};
ghost use Rattle.vortex_wire.specs.Message.{singular_field};
ghost use Rattle.vortex_wire.specs.Inside.{flag_field, optional_bytes_field, repeated_field};
ghost use Rattle.vortex_wire.specs.Inside.{signed_field};
ghost use Rattle.vortex_proto.specs.TypeBytes.{body_bytes, field_types, type_bytes};
ghost use Rattle.vortex_proto.specs.TypeMessage.{IsTypeMessage};
ghost use Rattle.vortex_types.specs.DTypes.{term_of};
ghost use Rattle.vortex_types.specs.TypeRefs.{fields_term, ref_term};
ghost use Rattle.vortex_types.specs.Writing.{WritesMessage};

use crate::dtype::DType;
use crate::room::{field_name, field_type, is_within};
use crate::shape::{FieldsRef, Shape};
use crate::type_ref::TypeRef;
use std::alloc::Global;
use vortex_names::{DTypeError, DecimalDType, Nullability};
use vortex_number::PType;
use vortex_proto::schema::{
    DECIMAL_NULLABLE, DECIMAL_PRECISION, DECIMAL_SCALE, EXTENSION_ID, EXTENSION_METADATA,
    EXTENSION_STORAGE, FIXED_ELEMENT, FIXED_NULLABLE, FIXED_SIZE, LIST_ELEMENT, LIST_NULLABLE,
    PLAIN_NULLABLE, PRIMITIVE_NULLABLE, PRIMITIVE_PTYPE, STRUCT_DTYPES, STRUCT_NAMES,
    STRUCT_NULLABLE,
};
use vortex_wire::{Backward, WireError};

impl DType {
    /// The bytes of a Protocol Buffers message that stands for the type. TooLarge where the type
    /// is outside the limits.
    #[tactic(auto, using(crate::proofs::Written::not_bounded, crate::proofs::Written::is_bounded))]
    pub fn to_proto(&self, alloc: Global) -> Result<Vec<u8>, DTypeError>
        ensures written { WritesMessage result (term_of self.now) }
        ensures read { IfOk result (λ v. IsTypeMessage v.items (term_of self.now)) }
    {
        self.law();
        let of = self.type_ref();
        if !is_within(of) {
            return Err(DTypeError::TooLarge);
        }
        match with_type(Backward::new(alloc), of) {
            Ok(message) => Ok(message.finish()),
            Err(WireError::OutOfMemory) => Err(DTypeError::OutOfMemory),
            Err(WireError::Malformed) => unreachable!(),
        }
    }
}

/// The message of a type before what is written.
#[cycle(message)]
fn with_type(after: Backward, of: TypeRef<'_>) -> Result<Backward, WireError>
    ensures written { IfOk result (λ b. b ≡ type_bytes (ref_term of.entry) ++ after) }
    ensures memory { IsOkUnless result WireError.OutOfMemory }
{
    let before = after.len();
    let body = with_body(after, of)?;
    body.with_header(u32::from(of.kind()), before)
}

/// A field that holds the message of a type before what is written.
#[cycle(message)]
fn with_part(after: Backward, number: u32, of: TypeRef<'_>) -> Result<Backward, WireError>
    requires some { 0 < number }
    requires most { number < 2 ^ 29 }
    ensures written { IfOk result (λ b.
        b ≡ bytes_field number (type_bytes (ref_term of.entry)) ++ after) }
    ensures memory { IsOkUnless result WireError.OutOfMemory }
{
    let before = after.len();
    let message = with_type(after, of)?;
    message.with_header(number, before)
}

/// The message of a type's kind before what is written.
#[cycle(message)]
fn with_body(after: Backward, of: TypeRef<'_>) -> Result<Backward, WireError>
    ensures written { IfOk result (λ b. b ≡ body_bytes (ref_term of.entry) ++ after) }
    ensures memory { IsOkUnless result WireError.OutOfMemory }
{
    match of.shape() {
        Shape::Null => Ok(after),
        Shape::Bool(n) | Shape::Utf8(n) | Shape::Binary(n) => {
            after.with_flag_field(PLAIN_NULLABLE, bool::from(n))
        }
        Shape::Primitive(ptype, n) => with_primitive(after, ptype, n),
        Shape::Decimal(decimal, n) => with_decimal(after, decimal, n),
        Shape::Struct(fields, n) => {
            let flag = after.with_flag_field(STRUCT_NULLABLE, bool::from(n))?;
            let dtypes = with_field_types(flag, fields)?;
            with_names(dtypes, fields)
        }
        Shape::List(element, n) => {
            let flag = after.with_flag_field(LIST_NULLABLE, bool::from(n))?;
            with_part(flag, LIST_ELEMENT, element)
        }
        Shape::Extension(id, storage, metadata) => {
            let metadata = with_metadata(after, metadata)?;
            let storage = with_part(metadata, EXTENSION_STORAGE, storage)?;
            storage.with_text_field(EXTENSION_ID, id)
        }
        Shape::FixedSizeList(element, size, n) => {
            let size = with_size(after, size, n)?;
            with_part(size, FIXED_ELEMENT, element)
        }
    }
}

/// The message of whole numbers before what is written.
#[tactic(auto, using(crate::proofs::Written::ptype_kind))]
fn with_primitive(
    after: Backward,
    ptype: PType,
    nullability: Nullability,
) -> Result<Backward, WireError>
    ensures written { IfOk result (λ b.
        b ≡ (singular_field PRIMITIVE_PTYPE (kind_number (whole_kind ptype))
        ++ flag_field PRIMITIVE_NULLABLE (is_nullable nullability)) ++ after) }
    ensures memory { IsOkUnless result WireError.OutOfMemory }
{
    let flag = after.with_flag_field(PRIMITIVE_NULLABLE, bool::from(nullability))?;
    flag.with_singular_field(PRIMITIVE_PTYPE, u64::from(ptype.number()))
}

/// The message of decimals before what is written.
fn with_decimal(
    after: Backward,
    decimal: DecimalDType,
    nullability: Nullability,
) -> Result<Backward, WireError>
    ensures written { IfOk result (λ b.
        b ≡ (singular_field DECIMAL_PRECISION decimal.precision
        ++ signed_field DECIMAL_SCALE decimal.scale
        ++ flag_field DECIMAL_NULLABLE (is_nullable nullability)) ++ after) }
    ensures memory { IsOkUnless result WireError.OutOfMemory }
{
    let flag = after.with_flag_field(DECIMAL_NULLABLE, bool::from(nullability))?;
    let scale = flag.with_signed_field(DECIMAL_SCALE, i64::from(decimal.scale()))?;
    scale.with_singular_field(DECIMAL_PRECISION, u64::from(decimal.precision()))
}

/// The size and the flag of lists of one length before what is written.
fn with_size(after: Backward, size: u32, nullability: Nullability) -> Result<Backward, WireError>
    ensures written { IfOk result (λ b. b ≡ (singular_field FIXED_SIZE size
        ++ flag_field FIXED_NULLABLE (is_nullable nullability)) ++ after) }
    ensures memory { IsOkUnless result WireError.OutOfMemory }
{
    let flag = after.with_flag_field(FIXED_NULLABLE, bool::from(nullability))?;
    flag.with_singular_field(FIXED_SIZE, u64::from(size))
}

/// The metadata of an extension before what is written.
fn with_metadata(after: Backward, metadata: Option<&[u8]>) -> Result<Backward, WireError>
    ensures written { IfOk result (λ b.
        b ≡ optional_bytes_field EXTENSION_METADATA (option_copied metadata.entry) ++ after) }
    ensures memory { IsOkUnless result WireError.OutOfMemory }
{
    match metadata {
        Some(metadata) => after.with_bytes_field(EXTENSION_METADATA, metadata),
        None => Ok(after),
    }
}

/// The names of fields before what is written.
fn with_names(after: Backward, fields: FieldsRef<'_>) -> Result<Backward, WireError>
    ensures written { IfOk result (λ b.
        b ≡ repeated_field STRUCT_NAMES (names_of (fields_term fields.entry)) ++ after) }
    ensures memory { IsOkUnless result WireError.OutOfMemory }
{
    let mut names = after;
    let mut left = fields.len();
    while left > 0 {
        left -= 1;
        names = names.with_bytes_field(STRUCT_NAMES, field_name(fields, left).as_bytes())?;
    }
    Ok(names)
}

/// The types of fields before what is written.
#[cycle(message)]
fn with_field_types(after: Backward, fields: FieldsRef<'_>) -> Result<Backward, WireError>
    ensures written { IfOk result (λ b. b ≡ field_types (fields_term fields.entry) ++ after) }
    ensures memory { IsOkUnless result WireError.OutOfMemory }
{
    let mut dtypes = after;
    let mut left = fields.len();
    while left > 0 {
        left -= 1;
        dtypes = with_part(dtypes, STRUCT_DTYPES, field_type(fields, left))?;
    }
    Ok(dtypes)
}
