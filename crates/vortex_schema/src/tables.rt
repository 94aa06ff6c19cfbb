//! The tables of the kinds, read.

ghost use Rattle.std.specs.Prelude.{◌≡◌, IfOk};
ghost use Rattle.std.specs.Option.{option_flatten, option_map};
ghost use Rattle.vortex_flat.specs.Answers.{Answers};
ghost use Rattle.vortex_flat.specs.Targets.{table_field, table_view, text_field, vector_field, vector_view};
ghost use Rattle.vortex_schema.specs.Reading.{kind_at};
ghost use Rattle.vortex_schema.specs.Schema.{flag};

use crate::kind::TypeKind;
use crate::schema::*;
use vortex_flat::{FlatError, Table, Vector};

/// The flag that field `k` is.
pub(crate) fn flag(table: &Table<'_>, k: u16) -> Result<bool, FlatError>
    ensures { Answers (λ x. x) result (flag table.now.buffer table.now.place k) }
{
    Ok(table.field_u8(k)?.unwrap_or(0) != 0)
}

/// The table that field `k` leads to, which must be there.
pub(crate) fn table<'a>(table: &Table<'a>, k: u16) -> Result<Table<'a>, FlatError>
    ensures { Answers (λ x. x) result (option_map (table_view table.now.buffer)
        (option_flatten (table_field table.now.buffer table.now.place k))) }
{
    let Some(target) = table.field_table(k)? else {
        return Err(FlatError::Outside);
    };
    Ok(target)
}

/// The vector of offsets that field `k` leads to, which must be there.
pub(crate) fn offsets<'a>(table: &Table<'a>, k: u16) -> Result<Vector<'a>, FlatError>
    ensures found { Answers (λ x. x) result (option_map (vector_view table.now.buffer)
        (option_flatten (vector_field table.now.buffer table.now.place k 4))) }
    ensures width { IfOk result (λ vector. vector.shape.width ≡ 4) }
{
    let Some(vector) = table.field_vector(k, 4)? else {
        return Err(FlatError::Outside);
    };
    Ok(vector)
}

/// The text that field `k` leads to, which must be there.
pub(crate) fn text<'a>(table: &Table<'a>, k: u16) -> Result<&'a str, FlatError>
    ensures { Answers (λ x. x.now) result
        (option_flatten (text_field table.now.buffer table.now.place k)) }
{
    let Some(text) = table.field_str(k)? else {
        return Err(FlatError::Outside);
    };
    Ok(text)
}

/// The kind of a DType.
#[tactic(auto, unfolding(crate::specs::Reading::kind_at))]
pub(crate) fn kind_of(dtype: &Table<'_>) -> Result<TypeKind, FlatError>
    ensures { Answers (λ x. x) result (kind_at dtype.now.buffer dtype.now.place) }
{
    let number = dtype.field_u8(DTYPE_KIND)?.unwrap_or(0);
    TypeKind::from_number(number).ok_or(FlatError::Outside)
}
