//! Types read from flat buffers.

ghost use Rattle.std.specs.Prelude.{◌≡◌, false, length, IfErr, IfOk, IsOkUnless, IsSome, OnOk};
ghost use Rattle.std.specs.Prelude.{unwrap_or};
ghost use Rattle.std.specs.Option.{option_copied};
ghost use Rattle.vortex_terms.specs.Term.{Term, extension, null};
ghost use Rattle.vortex_terms.specs.Types.{IsBytes, fields_from, is_extension};
ghost use Rattle.vortex_names.specs.Nullable.{is_nullable};
ghost use Rattle.vortex_schema.specs.Reading.{bounded_type_at};
ghost use Rattle.vortex_schema.specs.Views.{fields_of, term_at};
ghost use Rattle.vortex_types.specs.DTypes.{term_of};
ghost use Rattle.vortex_types.specs.Standing.{IsReadAs, StandsAt};

use crate::dtype::DType;
use crate::element::Element;
use crate::extension::ExtDType;
use crate::field_dtype::FieldDType;
use crate::struct_fields::StructFields;
use std::alloc::Global;
use std::rc::Rc;
use vortex_buffer::ByteBuffer;
use vortex_names::{
    DTypeError, DecimalDType, ExtID, ExtMetadata, FieldName, FieldNames, Nullability,
};
use vortex_schema::{FieldsAt, TypeAt, TypeNode};

impl DType {
    /// The type that stands at `place` of the buffer. It is checked whole before memory is taken.
    #[tactic(auto, using(crate::proofs::ReadTypes::read_as))]
    pub fn try_from_view(
        alloc: Global,
        buffer: ByteBuffer,
        place: usize,
    ) -> Result<DType, DTypeError>
        ensures { IsReadAs term_of result (StandsAt buffer.bytes place) }
    {
        let bytes = buffer.as_slice();
        match check_type(bytes, place) {
            Ok(()) => read_known(alloc, bytes, place),
            Err(error) => Err(error),
        }
    }
}

/// Whether a type within the limits stands at `place`. It takes no memory.
#[tactic(auto, using(crate::proofs::ReadTypes::there, crate::proofs::ReadTypes::stands, crate::proofs::ReadTypes::none_stands))]
pub fn check_type(bytes: &[u8], place: usize) -> Result<(), DTypeError>
    ensures known { OnOk result (IsSome (bounded_type_at bytes.now place)) }
    ensures stands { let found = unwrap_or (bounded_type_at bytes.now place) null in
        OnOk result (StandsAt bytes.now place found) }
    ensures refused { IfErr result (λ e.
        (e ≡ DTypeError.Malformed) × ((t : Term) → StandsAt bytes.now place t → ⊥)) }
{
    are_bytes(bytes);
    match TypeAt::at(bytes, place) {
        Ok(_) => Ok(()),
        Err(_) => Err(DTypeError::Malformed),
    }
}

/// Each number is a byte. It does nothing when the program runs.
pub(crate) fn are_bytes(bytes: &[u8])
    ensures { IsBytes bytes.now }
{
    let _ = bytes.len();
}

/// The type at `place`, where one is known to stand.
#[tactic(auto, using(crate::proofs::ReadTypes::known_term))]
fn read_known(alloc: Global, bytes: &[u8], place: usize) -> Result<DType, DTypeError>
    requires { IsSome (bounded_type_at bytes.now place) }
    ensures term { let known = unwrap_or (bounded_type_at bytes.now place) null in
        IfOk result (λ t. term_of t ≡ known) }
    ensures memory { IsOkUnless result DTypeError.OutOfMemory }
{
    read_type(alloc, TypeAt::known(bytes, place))
}

/// Whether a row may be null.
pub(crate) fn nullability(nullable: bool) -> Nullability
    ensures { is_nullable result ≡ nullable }
{
    if nullable {
        Nullability::Nullable
    } else {
        Nullability::NonNullable
    }
}

/// The type at a place where one stands.
#[cycle(reading)]
pub fn read_type(alloc: Global, at: TypeAt<'_>) -> Result<DType, DTypeError>
    ensures term { IfOk result (λ t. term_of t ≡ term_at at.entry) }
    ensures memory { IsOkUnless result DTypeError.OutOfMemory }
{
    at.law();
    match at.node() {
        TypeNode::Null => Ok(DType::Null),
        TypeNode::Bool(n) => Ok(DType::Bool(nullability(n))),
        TypeNode::Primitive(ptype, n) => Ok(DType::Primitive(ptype, nullability(n))),
        TypeNode::Decimal(precision, scale, n) => {
            let decimal = DecimalDType::new(precision, scale);
            Ok(DType::Decimal(decimal, nullability(n)))
        }
        TypeNode::Utf8(n) => Ok(DType::Utf8(nullability(n))),
        TypeNode::Binary(n) => Ok(DType::Binary(nullability(n))),
        TypeNode::Struct(fields, n) => {
            let fields = read_fields(alloc, &fields)?;
            Ok(DType::Struct(fields, nullability(n)))
        }
        TypeNode::List(element, n) => {
            let element = Element::new(alloc, read_type(alloc, element)?)?;
            Ok(DType::List(element, nullability(n)))
        }
        TypeNode::Extension(id, storage, metadata) => {
            let storage = read_type(alloc, storage)?;
            extension_type(alloc, id, storage, metadata)
        }
        TypeNode::FixedSizeList(element, size, n) => {
            let element = Element::new(alloc, read_type(alloc, element)?)?;
            Ok(DType::FixedSizeList(element, size, nullability(n)))
        }
    }
}

/// The fields at a place where they stand.
#[cycle(reading)]
fn read_fields(alloc: Global, fields: &FieldsAt<'_>) -> Result<StructFields, DTypeError>
    ensures fields { IfOk result (λ s. s ≡ fields_of fields.now) }
    ensures memory { IsOkUnless result DTypeError.OutOfMemory }
{
    let mut names = Vec::new(alloc);
    let mut dtypes = Vec::new(alloc);
    for i in 0..fields.len() {
        names.push(FieldName::from_text(alloc, fields.name(i))?)?;
        let dtype = read_type(alloc, fields.dtype(i))?;
        dtypes.push(FieldDType::from_dtype(dtype))?;
    }
    struct_fields(alloc, names, dtypes)
}

/// The fields of these names and types.
fn struct_fields(
    alloc: Global,
    names: Vec<FieldName>,
    dtypes: Vec<FieldDType>,
) -> Result<StructFields, DTypeError>
    requires { length names.items ≡ length dtypes.items }
    ensures fields { IfOk result (λ s. s ≡ fields_from names.items dtypes.items) }
    ensures memory { IsOkUnless result DTypeError.OutOfMemory }
{
    let names = FieldNames::from_names(alloc, names)?;
    StructFields::from_fields(alloc, names, dtypes)
}

/// The extension type of these parts.
pub(crate) fn extension_type(
    alloc: Global,
    id: &str,
    storage: DType,
    metadata: Option<&[u8]>,
) -> Result<DType, DTypeError>
    requires { is_extension (term_of storage) ≡ false }
    ensures term { IfOk result (λ t.
        term_of t ≡ extension id.now (term_of storage) (option_copied metadata.entry)) }
    ensures memory { IsOkUnless result DTypeError.OutOfMemory }
{
    let id = ExtID::from_text(alloc, id)?;
    let metadata = match metadata {
        Some(metadata) => Some(ExtMetadata::from_slice(alloc, metadata)?),
        None => None,
    };
    let ext = ExtDType::new(alloc, id, storage, metadata)?;
    Ok(DType::Extension(Rc::new(alloc, ext)?))
}
