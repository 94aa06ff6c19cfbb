//! A type at a place, met type by type. No memory is taken.

ghost use Rattle.std.specs.Prelude.{◌≡◌, ◌<◌, is_some};
ghost use Rattle.std.specs.Option.{option_map};
ghost use Rattle.vortex_flat.specs.Answers.{Answers};
ghost use Rattle.vortex_flat.specs.Targets.{table_view};
ghost use Rattle.vortex_terms.specs.Tests.{is_decimal};
ghost use Rattle.vortex_schema.specs.Reading.{body_at, decimal_at, dtype_at, extension_at, fields_at, fixed_at, leaf, left_of, list_at, named_type_at, primitive_at, ptype_from, storage_at, struct_at, type_at};

use crate::budget::Budget;
use crate::kind::TypeKind;
use crate::schema::*;
use crate::tables::{flag, kind_of, offsets, table, text};
use vortex_flat::{FlatError, Table, Vector};

/// Whether there is a kind of whole numbers with this number.
pub(crate) fn is_ptype(number: u8) -> bool
    ensures { result ≡ is_some (ptype_from number) }
{
    matches!(number, 0 | 1 | 2 | 3 | 4 | 5 | 6 | 7)
}

/// Whether there are decimals of this precision and scale.
pub(crate) fn is_decimal(precision: u8, scale: i8) -> bool
    ensures { result ≡ is_decimal precision scale }
{
    1 <= precision && precision <= 76 && i16::from(scale) <= i16::from(precision)
}

#[tactic(auto, unfolding(crate::specs::Reading::primitive_at))]
fn walk_primitive(table: &Table<'_>, left: Budget) -> Result<Budget, FlatError>
    ensures { Answers (λ x. x) result
        (left_of (leaf left (primitive_at table.now.buffer table.now.place))) }
{
    if !is_ptype(table.field_u8(PRIMITIVE_PTYPE)?.unwrap_or(0)) {
        return Err(FlatError::Outside);
    }
    flag(table, PRIMITIVE_NULLABLE)?;
    Ok(left)
}

#[tactic(auto, unfolding(crate::specs::Reading::decimal_at))]
fn walk_decimal(table: &Table<'_>, left: Budget) -> Result<Budget, FlatError>
    ensures { Answers (λ x. x) result
        (left_of (leaf left (decimal_at table.now.buffer table.now.place))) }
{
    let precision = table.field_u8(DECIMAL_PRECISION)?.unwrap_or(0);
    let scale = table.field_i8(DECIMAL_SCALE)?.unwrap_or(0);
    flag(table, DECIMAL_NULLABLE)?;
    if !is_decimal(precision, scale) {
        return Err(FlatError::Outside);
    }
    Ok(left)
}

/// The storage of an extension, which is none itself.
#[tactic(auto, unfolding(crate::specs::Reading::storage_at))]
pub(crate) fn storage<'a>(extension: &Table<'a>) -> Result<Table<'a>, FlatError>
    ensures { Answers (λ x. x) result (option_map (table_view extension.now.buffer)
        (storage_at extension.now.buffer extension.now.place)) }
{
    let storage = table(extension, EXTENSION_STORAGE)?;
    match kind_of(&storage)? {
        TypeKind::Extension => Err(FlatError::Outside),
        _ => Ok(storage),
    }
}

/// What is left after the type of this DType, of so many levels at most.
#[cycle(walk)]
#[tactic(auto, using(crate::proofs::Walking::no_level, crate::proofs::Walking::one_level))]
pub(crate) fn walk(dtype: &Table<'_>, levels: usize, left: Budget) -> Result<Budget, FlatError>
    ensures { Answers (λ x. x) result
        (left_of (type_at dtype.now.buffer levels left dtype.now.place)) }
{
    if levels == 0 {
        return Err(FlatError::Outside);
    }
    walk_dtype(dtype, levels - 1, left)
}

/// What is left after the type of this DType, whose parts are of so many levels at most.
#[cycle(walk)]
#[tactic(auto, unfolding(crate::specs::Reading::dtype_at))]
fn walk_dtype(dtype: &Table<'_>, levels: usize, left: Budget) -> Result<Budget, FlatError>
    ensures { Answers (λ x. x) result
        (left_of (dtype_at dtype.now.buffer (type_at dtype.now.buffer levels)
        left dtype.now.place)) }
{
    let kind = kind_of(dtype)?;
    let body = table(dtype, DTYPE_TABLE)?;
    let left = left.after_node()?;
    walk_body(&body, kind, levels, left)
}

#[cycle(walk)]
fn walk_body(
    body: &Table<'_>,
    kind: TypeKind,
    levels: usize,
    left: Budget,
) -> Result<Budget, FlatError>
    ensures { Answers (λ x. x) result
        (left_of (body_at body.now.buffer (type_at body.now.buffer levels)
        kind left body.now.place)) }
{
    match kind {
        TypeKind::Null => Ok(left),
        TypeKind::Bool | TypeKind::Utf8 | TypeKind::Binary => {
            flag(body, PLAIN_NULLABLE)?;
            Ok(left)
        }
        TypeKind::Primitive => walk_primitive(body, left),
        TypeKind::Decimal => walk_decimal(body, left),
        TypeKind::Struct => walk_struct(body, levels, left),
        TypeKind::List => walk_list(body, levels, left),
        TypeKind::Extension => walk_extension(body, levels, left),
        TypeKind::FixedSizeList => walk_fixed(body, levels, left),
    }
}

#[cycle(walk)]
#[tactic(auto, unfolding(crate::specs::Reading::struct_at))]
fn walk_struct(body: &Table<'_>, levels: usize, left: Budget) -> Result<Budget, FlatError>
    ensures { Answers (λ x. x) result
        (left_of (struct_at body.now.buffer (type_at body.now.buffer levels) left body.now.place)) }
{
    let names = offsets(body, STRUCT_NAMES)?;
    let dtypes = offsets(body, STRUCT_DTYPES)?;
    flag(body, STRUCT_NULLABLE)?;
    if names.len() != dtypes.len() {
        return Err(FlatError::Outside);
    }
    walk_fields(&names, &dtypes, levels, left)
}

#[cycle(walk)]
fn walk_fields(
    names: &Vector<'_>,
    dtypes: &Vector<'_>,
    levels: usize,
    left: Budget,
) -> Result<Budget, FlatError>
    requires one_buffer { dtypes.now.buffer ≡ names.now.buffer }
    requires names_width { names.now.shape.width ≡ 4 }
    requires dtypes_width { dtypes.now.shape.width ≡ 4 }
    requires counts { dtypes.now.shape.count ≡ names.now.shape.count }
    ensures { Answers (λ x. x) result
        (left_of (fields_at names.now.buffer (type_at names.now.buffer levels)
        names.now.shape dtypes.now.shape names.now.shape.count 0 left)) }
{
    let mut left = left;
    for i in 0..names.len() {
        left = walk_field(names, dtypes, i, levels, left)?;
    }
    Ok(left)
}

#[cycle(walk)]
#[tactic(auto, unfolding(crate::specs::Reading::named_type_at))]
fn walk_field(
    names: &Vector<'_>,
    dtypes: &Vector<'_>,
    i: usize,
    levels: usize,
    left: Budget,
) -> Result<Budget, FlatError>
    requires one_buffer { dtypes.now.buffer ≡ names.now.buffer }
    requires names_width { names.now.shape.width ≡ 4 }
    requires dtypes_width { dtypes.now.shape.width ≡ 4 }
    requires names_index { i < names.now.shape.count }
    requires dtypes_index { i < dtypes.now.shape.count }
    ensures { Answers (λ x. x) result
        (left_of (named_type_at names.now.buffer (type_at names.now.buffer levels)
        names.now.shape dtypes.now.shape i left)) }
{
    let name = names.str(i)?;
    let left = left.after_text(name.len())?;
    let dtype = dtypes.table(i)?;
    walk(&dtype, levels, left)
}

#[cycle(walk)]
#[tactic(auto, unfolding(crate::specs::Reading::list_at))]
fn walk_list(body: &Table<'_>, levels: usize, left: Budget) -> Result<Budget, FlatError>
    ensures { Answers (λ x. x) result
        (left_of (list_at body.now.buffer (type_at body.now.buffer levels) left body.now.place)) }
{
    let element = table(body, LIST_ELEMENT)?;
    flag(body, LIST_NULLABLE)?;
    walk(&element, levels, left)
}

#[cycle(walk)]
#[tactic(auto, unfolding(crate::specs::Reading::extension_at))]
fn walk_extension(body: &Table<'_>, levels: usize, left: Budget) -> Result<Budget, FlatError>
    ensures { Answers (λ x. x) result
        (left_of (extension_at body.now.buffer (type_at body.now.buffer levels)
        left body.now.place)) }
{
    let id = text(body, EXTENSION_ID)?;
    let metadata = match body.field_bytes(EXTENSION_METADATA)? {
        Some(bytes) => bytes.len(),
        None => 0,
    };
    let left = left.after_text(id.len() + metadata)?;
    let storage = storage(body)?;
    walk(&storage, levels, left)
}

#[cycle(walk)]
#[tactic(auto, unfolding(crate::specs::Reading::fixed_at))]
fn walk_fixed(body: &Table<'_>, levels: usize, left: Budget) -> Result<Budget, FlatError>
    ensures { Answers (λ x. x) result
        (left_of (fixed_at body.now.buffer (type_at body.now.buffer levels) left body.now.place)) }
{
    let element = table(body, FIXED_ELEMENT)?;
    body.field_u32(FIXED_SIZE)?;
    flag(body, FIXED_NULLABLE)?;
    walk(&element, levels, left)
}
