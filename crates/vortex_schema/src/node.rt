//! A type whose parts are left where they stand.

ghost use Rattle.std.specs.Prelude.{◌≡◌, IsSome, Some};
ghost use Rattle.std.specs.Option.{option_map};
ghost use Rattle.vortex_flat.specs.Answers.{Answers};
ghost use Rattle.vortex_number.specs.WholeKind.{whole_kind};
ghost use Rattle.vortex_schema.specs.Reading.{bounded_type_at, body_at, decimal_at, dtype_at, extension_at, fixed_at, list_at, primitive_at, ptype_from, struct_at, whole};
ghost use Rattle.vortex_schema.specs.Views.{node_term, term_at};
ghost use Rattle.vortex_schema.specs.inner.InPlace.{found_in, in_place, inside};

use crate::fields::FieldsAt;
use crate::kind::TypeKind;
use crate::place::TypeAt;
use crate::schema::*;
use crate::tables::{flag, kind_of, offsets, table, text};
use vortex_flat::{FlatError, Table};
use vortex_number::PType;

/// A type whose parts are left where they stand. A `bool` says whether a row may be null.
#[derive(Drop)]
pub enum TypeNode<'a> {
    Null,
    Bool(bool),
    Primitive(PType, bool),
    /// Precision and scale.
    Decimal(u8, i8, bool),
    Utf8(bool),
    Binary(bool),
    Struct(FieldsAt<'a>, bool),
    List(TypeAt<'a>, bool),
    /// Id, storage, and maybe metadata.
    Extension(&'a str, TypeAt<'a>, Option<&'a [u8]>),
    FixedSizeList(TypeAt<'a>, u32, bool),
}

/// The type at `place`, which is known to stand there.
#[tactic(auto, using(crate::proofs::InPlace::known_dtype, crate::proofs::InPlace::known_type))]
pub(crate) fn node_at<'a>(bytes: &'a [u8], place: usize) -> TypeNode<'a>
    requires { IsSome (bounded_type_at bytes.now place) }
    ensures { bounded_type_at bytes.now place ≡ Some (node_term result) }
{
    match dtype_node(bytes, &table_of(bytes, place)) {
        Ok(node) => node,
        Err(_) => unreachable!(),
    }
}

/// The table at `place`, where a type is known to stand.
#[tactic(auto, using(crate::proofs::InPlace::known_table, crate::proofs::InPlace::same_place))]
fn table_of<'a>(bytes: &'a [u8], place: usize) -> Table<'a>
    requires { IsSome (bounded_type_at bytes.now place) }
    ensures buffer { result.buffer ≡ bytes.now }
    ensures place { result.place ≡ place }
{
    match Table::at(bytes, place) {
        Ok(table) => table,
        Err(_) => unreachable!(),
    }
}

/// The type of a DType, which is known to stand there.
#[tactic(auto, unfolding(crate::specs::Reading::dtype_at))]
fn dtype_node<'a>(bytes: &'a [u8], dtype: &Table<'a>) -> Result<TypeNode<'a>, FlatError>
    requires buffer { dtype.now.buffer ≡ bytes.now }
    requires stands { IsSome (dtype_at bytes.now (in_place bytes.now) whole dtype.now.place) }
    ensures { Answers node_term result
        (found_in (dtype_at bytes.now (in_place bytes.now) whole dtype.now.place)) }
{
    let kind = kind_of(dtype)?;
    let body = table(dtype, DTYPE_TABLE)?;
    body_node(bytes, &body, kind)
}

fn body_node<'a>(
    bytes: &'a [u8],
    body: &Table<'a>,
    kind: TypeKind,
) -> Result<TypeNode<'a>, FlatError>
    requires buffer { body.now.buffer ≡ bytes.now }
    requires stands { IsSome (body_at bytes.now (in_place bytes.now) kind inside body.now.place) }
    ensures { Answers node_term result
        (found_in (body_at bytes.now (in_place bytes.now) kind inside body.now.place)) }
{
    match kind {
        TypeKind::Null => Ok(TypeNode::Null),
        TypeKind::Bool => Ok(TypeNode::Bool(flag(body, PLAIN_NULLABLE)?)),
        TypeKind::Primitive => primitive_node(body),
        TypeKind::Decimal => decimal_node(body),
        TypeKind::Utf8 => Ok(TypeNode::Utf8(flag(body, PLAIN_NULLABLE)?)),
        TypeKind::Binary => Ok(TypeNode::Binary(flag(body, PLAIN_NULLABLE)?)),
        TypeKind::Struct => struct_node(bytes, body),
        TypeKind::List => list_node(bytes, body),
        TypeKind::Extension => extension_node(bytes, body),
        TypeKind::FixedSizeList => fixed_node(bytes, body),
    }
}

#[tactic(auto, unfolding(crate::specs::Reading::primitive_at))]
fn primitive_node<'a>(body: &Table<'a>) -> Result<TypeNode<'a>, FlatError>
    ensures { Answers node_term result (primitive_at body.now.buffer body.now.place) }
{
    let number = body.field_u8(PRIMITIVE_PTYPE)?.unwrap_or(0);
    let ptype = ptype_from(number).ok_or(FlatError::Outside)?;
    Ok(TypeNode::Primitive(ptype, flag(body, PRIMITIVE_NULLABLE)?))
}

/// The kind of whole numbers with this number, where there is one.
fn ptype_from(number: u8) -> Option<PType>
    ensures { option_map whole_kind result ≡ ptype_from number }
{
    match number {
        0 => Some(PType::U8),
        1 => Some(PType::U16),
        2 => Some(PType::U32),
        3 => Some(PType::U64),
        4 => Some(PType::I8),
        5 => Some(PType::I16),
        6 => Some(PType::I32),
        7 => Some(PType::I64),
        _ => None,
    }
}

/// The decimals of a type that is known to be legal.
#[tactic(auto, unfolding(crate::specs::Reading::decimal_at))]
fn decimal_node<'a>(body: &Table<'a>) -> Result<TypeNode<'a>, FlatError>
    requires { IsSome (decimal_at body.now.buffer body.now.place) }
    ensures { Answers node_term result (decimal_at body.now.buffer body.now.place) }
{
    let precision = body.field_u8(DECIMAL_PRECISION)?.unwrap_or(0);
    let scale = body.field_i8(DECIMAL_SCALE)?.unwrap_or(0);
    Ok(TypeNode::Decimal(precision, scale, flag(body, DECIMAL_NULLABLE)?))
}

#[tactic(auto, unfolding(crate::specs::Reading::struct_at))]
fn struct_node<'a>(bytes: &'a [u8], body: &Table<'a>) -> Result<TypeNode<'a>, FlatError>
    requires buffer { body.now.buffer ≡ bytes.now }
    requires stands { IsSome (struct_at bytes.now (in_place bytes.now) inside body.now.place) }
    ensures { Answers node_term result
        (found_in (struct_at bytes.now (in_place bytes.now) inside body.now.place)) }
{
    let names = offsets(body, STRUCT_NAMES)?;
    let dtypes = offsets(body, STRUCT_DTYPES)?;
    let nullable = flag(body, STRUCT_NULLABLE)?;
    let fields = FieldsAt {
        bytes,
        names,
        dtypes,
    };
    Ok(TypeNode::Struct(fields, nullable))
}

/// The type of this DType, which is known to stand there.
fn part<'a>(bytes: &'a [u8], dtype: &Table<'a>) -> TypeAt<'a>
    requires buffer { dtype.now.buffer ≡ bytes.now }
    requires stands { IsSome (bounded_type_at bytes.now dtype.now.place) }
    ensures { bounded_type_at bytes.now dtype.now.place ≡ Some (term_at result) }
{
    TypeAt::known(bytes, dtype.place())
}

#[tactic(auto, unfolding(crate::specs::Reading::list_at))]
fn list_node<'a>(bytes: &'a [u8], body: &Table<'a>) -> Result<TypeNode<'a>, FlatError>
    requires buffer { body.now.buffer ≡ bytes.now }
    requires stands { IsSome (list_at bytes.now (in_place bytes.now) inside body.now.place) }
    ensures { Answers node_term result
        (found_in (list_at bytes.now (in_place bytes.now) inside body.now.place)) }
{
    let element = table(body, LIST_ELEMENT)?;
    let nullable = flag(body, LIST_NULLABLE)?;
    Ok(TypeNode::List(part(bytes, &element), nullable))
}

#[tactic(auto, unfolding(crate::specs::Reading::extension_at))]
fn extension_node<'a>(bytes: &'a [u8], body: &Table<'a>) -> Result<TypeNode<'a>, FlatError>
    requires buffer { body.now.buffer ≡ bytes.now }
    requires stands { IsSome (extension_at bytes.now (in_place bytes.now) inside body.now.place) }
    ensures { Answers node_term result
        (found_in (extension_at bytes.now (in_place bytes.now) inside body.now.place)) }
{
    let id = text(body, EXTENSION_ID)?;
    let metadata = body.field_bytes(EXTENSION_METADATA)?;
    let storage = table(body, EXTENSION_STORAGE)?;
    Ok(TypeNode::Extension(id, part(bytes, &storage), metadata))
}

#[tactic(auto, unfolding(crate::specs::Reading::fixed_at))]
fn fixed_node<'a>(bytes: &'a [u8], body: &Table<'a>) -> Result<TypeNode<'a>, FlatError>
    requires buffer { body.now.buffer ≡ bytes.now }
    requires stands { IsSome (fixed_at bytes.now (in_place bytes.now) inside body.now.place) }
    ensures { Answers node_term result
        (found_in (fixed_at bytes.now (in_place bytes.now) inside body.now.place)) }
{
    let element = table(body, FIXED_ELEMENT)?;
    let size = body.field_u32(FIXED_SIZE)?.unwrap_or(0);
    let nullable = flag(body, FIXED_NULLABLE)?;
    Ok(TypeNode::FixedSizeList(part(bytes, &element), size, nullable))
}
