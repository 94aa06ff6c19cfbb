//! Casts of values that hold no values.

ghost use Rattle.std.specs.Prelude.{◌≡◌, if◌then◌else◌, Ok, Err, ok_or};
ghost use Rattle.std.specs.Option.{option_map};
ghost use Rattle.vortex_terms.specs.Row.{null_row, whole_row};
ghost use Rattle.vortex_terms.specs.Types.{nullable};
ghost use Rattle.vortex_types.specs.TypeRefs.{ref_term};
ghost use Rattle.vortex_value_rows.specs.RowOf.{row_of};
ghost use Rattle.vortex_cast.specs.Cast.{whole_cast, decimal_cast};
ghost use Rattle.vortex_cast.specs.Answers.{IsCast};
ghost use Rattle.vortex_cast.specs.inner.Steps.{IsShared, IsNumber, pvalue_term, decimal_term};

use std::alloc::Global;
use vortex_arithmetic::{rescale, to_whole, value_in};
use vortex_scalar_value::{ScalarError, ScalarValue};
use vortex_types::{Shape, TypeRef};
use vortex_value::{DecimalValue, PValue};

/// Null, where the type is nullable.
pub(crate) fn cast_null(to: TypeRef<'_>) -> Result<ScalarValue, ScalarError>
    ensures { let u = ref_term to.entry in IsCast (row_of u) result
        (if nullable u then Ok null_row else Err ScalarError.CastNull) }
{
    if bool::from(to.nullability()) {
        Ok(ScalarValue::null())
    } else {
        Err(ScalarError::CastNull)
    }
}

/// The same value, where the kinds are alike.
pub(crate) fn share(
    alloc: Global,
    value: &ScalarValue,
    alike: bool,
) -> Result<ScalarValue, ScalarError>
    ensures { IsShared alike value.now result }
{
    if alike {
        value.try_clone(alloc)
    } else {
        Err(ScalarError::CastKind)
    }
}

/// A whole number as one of another kind.
pub(crate) fn cast_whole(number: i128, to: TypeRef<'_>) -> Result<ScalarValue, ScalarError>
    ensures { let u = ref_term to.entry in
        IsCast (row_of u) result (whole_cast (whole_row number) u) }
{
    match to.shape() {
        Shape::Primitive(ptype, _) => whole_value(value_in(ptype, number)),
        _ => Err(ScalarError::CastKind),
    }
}

/// A decimal of this number and scale at another scale, or as a whole number. At its own scale the
/// value is shared.
pub(crate) fn cast_decimal(
    alloc: Global,
    value: &ScalarValue,
    number: i128,
    scale: i8,
    to: TypeRef<'_>,
) -> Result<ScalarValue, ScalarError>
    requires { IsNumber value.now number }
    ensures { let u = ref_term to.entry in
        IsCast (row_of u) result (decimal_cast scale (whole_row number) u) }
{
    match to.shape() {
        Shape::Decimal(target, _) => {
            if target.scale() == scale {
                value.try_clone(alloc)
            } else {
                decimal_value(rescale(number, scale, target.scale()))
            }
        }
        Shape::Primitive(ptype, _) => whole_value(to_whole(number, scale, ptype)),
        _ => Err(ScalarError::CastKind),
    }
}

/// The number, where there is one in range.
fn whole_value(found: Option<PValue>) -> Result<ScalarValue, ScalarError>
    ensures { result ≡ ok_or (option_map pvalue_term found) ScalarError.CastRange }
{
    match found {
        Some(number) => Ok(ScalarValue::from_pvalue(number)),
        None => Err(ScalarError::CastRange),
    }
}

/// The same of a decimal.
fn decimal_value(found: Option<i128>) -> Result<ScalarValue, ScalarError>
    ensures { result ≡ ok_or (option_map decimal_term found) ScalarError.CastRange }
{
    match found {
        Some(number) => Ok(ScalarValue::from_decimal(DecimalValue::I128(number))),
        None => Err(ScalarError::CastRange),
    }
}
