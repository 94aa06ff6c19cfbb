//! Arrays of truth values and numbers, from their rows.

ghost use Rattle.std.specs.Prelude.{◌≡◌, ◌≤◌, length, map, MatchResult, Ok};
ghost use Rattle.vortex_number.specs.WholeKind.{whole_kind};
ghost use Rattle.vortex_terms.specs.Term.{boolean, decimal, primitive};
ghost use Rattle.vortex_terms.specs.Row.{truth_row, whole_row};
ghost use Rattle.vortex_names.specs.Nullable.{is_nullable};
ghost use Rattle.vortex_node_rows.specs.RowsOf.{most_rows};
ghost use Rattle.vortex_array_data.specs.Content.{IsMask};
ghost use Rattle.vortex_array_make.specs.MadeLeaves.{leaf_column, leaf_refusal};
ghost use Rattle.vortex_array_data.specs.Makes.{Makes};

use std::alloc::Global;
use std::marker::Model;
use vortex_array_data::{Array, ArrayError, Content, Held, MOST_ROWS, fitting_mask};
use vortex_leaves::{Decimals, Numbers};
use vortex_mask::{Mask, MaskBuilder};
use vortex_names::{DecimalDType, Nullability};
use vortex_node_rows::Encoding;
use vortex_types::DType;
use vortex_value::{NativeDecimalType, NativePType};

/// Truth values, as an array. Contracts see it as that array.
#[derive(Drop)]
pub struct BoolArray {
    array: Array,
}

impl Model for BoolArray {
    ghost use Rattle.vortex_array_data.specs.Column.{Column, coded_column};

    ghost Value = { Column };

    ghost coded = { coded_column };

    ghost view = { λ a. a.array };
}

/// Whole numbers of a kind, as an array. Contracts see it as that array.
#[derive(Drop)]
pub struct PrimitiveArray {
    array: Array,
}

impl Model for PrimitiveArray {
    ghost use Rattle.vortex_array_data.specs.Column.{Column, coded_column};

    ghost Value = { Column };

    ghost coded = { coded_column };

    ghost view = { λ a. a.array };
}

/// Decimals, as an array. Contracts see it as that array.
#[derive(Drop)]
pub struct DecimalArray {
    array: Array,
}

impl Model for DecimalArray {
    ghost use Rattle.vortex_array_data.specs.Column.{Column, coded_column};

    ghost Value = { Column };

    ghost coded = { coded_column };

    ghost view = { λ a. a.array };
}

impl BoolArray {
    /// The truth values, null where the mask is false. They are copied as bits. It is refused as
    /// TooLarge above 4,294,967,295 rows, as LengthMismatch where the mask has another length, and
    /// as TypeMismatch where the mask is false under a type that is not nullable, in this order.
    pub fn try_new(
        alloc: Global,
        values: &[bool],
        nullability: Nullability,
        validity: Option<Mask>,
    ) -> Result<BoolArray, ArrayError>
        ensures { let nl = is_nullable nullability in
            Makes result (leaf_refusal (length values.now) nl validity)
            (leaf_column (boolean nl) Encoding.Bool validity (map truth_row values.now)) }
    {
        if values.len() > MOST_ROWS {
            return Err(ArrayError::TooLarge);
        }
        let validity = fitting_mask(values.len(), nullability.into(), validity)?;
        let array = bools(alloc, values, nullability, validity)?;
        Ok(BoolArray { array })
    }

    /// The array. It takes no memory.
    pub fn into_array(self, _alloc: Global) -> Result<Array, ArrayError>
        ensures { result ≡ Ok self }
    {
        Ok(self.array)
    }
}

impl PrimitiveArray {
    /// The numbers of the type's kind, null where the mask is false. They are copied. It is refused
    /// as TooLarge above 4,294,967,295 rows, as LengthMismatch where the mask has another length,
    /// and as TypeMismatch where it is false under a type that is not nullable, in this order.
    pub fn try_new<T: NativePType>(
        alloc: Global,
        values: &[T],
        nullability: Nullability,
        validity: Option<Mask>,
    ) -> Result<PrimitiveArray, ArrayError>
        ensures { let nl = is_nullable nullability in
            Makes result (leaf_refusal (length values.now) nl validity)
            (leaf_column (primitive (whole_kind T.PTYPE) nl) Encoding.Primitive validity
            (map (λ x. whole_row (T.number x)) values.now)) }
    {
        if values.len() > MOST_ROWS {
            return Err(ArrayError::TooLarge);
        }
        let validity = fitting_mask(values.len(), nullability.into(), validity)?;
        let array = primitives(alloc, values, nullability, validity)?;
        Ok(PrimitiveArray { array })
    }

    /// The array. It takes no memory.
    pub fn into_array(self, _alloc: Global) -> Result<Array, ArrayError>
        ensures { result ≡ Ok self }
    {
        Ok(self.array)
    }
}

impl DecimalArray {
    /// The decimals of these digits, null where the mask is false. They are copied, in the width of
    /// `T`; that they are within the precision is not asked. It is refused as TooLarge above
    /// 4,294,967,295 rows, as LengthMismatch where the mask has another length, and as TypeMismatch
    /// where the mask is false under a type that is not nullable, in this order.
    pub fn try_new<T: NativeDecimalType>(
        alloc: Global,
        values: &[T],
        dtype: DecimalDType,
        nullability: Nullability,
        validity: Option<Mask>,
    ) -> Result<DecimalArray, ArrayError>
        ensures { let nl = is_nullable nullability in
            Makes result (leaf_refusal (length values.now) nl validity)
            (leaf_column (decimal dtype.precision dtype.scale nl) Encoding.Decimal validity
            (map (λ x. whole_row (T.number x)) values.now)) }
    {
        if values.len() > MOST_ROWS {
            return Err(ArrayError::TooLarge);
        }
        let validity = fitting_mask(values.len(), nullability.into(), validity)?;
        let array = decimals(alloc, values, dtype, nullability, validity)?;
        Ok(DecimalArray { array })
    }

    /// The array. It takes no memory.
    pub fn into_array(self, _alloc: Global) -> Result<Array, ArrayError>
        ensures { result ≡ Ok self }
    {
        Ok(self.array)
    }
}

/// The truth values as a mask.
fn truths(alloc: Global, values: &[bool]) -> Result<Mask, ArrayError>
    ensures { MatchResult result (λ m. m ≡ values.now) (λ e. e ≡ ArrayError.OutOfMemory) }
{
    let Ok(mut mask) = MaskBuilder::with_capacity(alloc, values.len()) else {
        return Err(ArrayError::OutOfMemory);
    };
    for value in values {
        match mask.push(*value) {
            Ok(()) => {}
            Err(_) => return Err(ArrayError::OutOfMemory),
        }
    }
    match mask.finish() {
        Ok(mask) => Ok(mask),
        Err(_) => Err(ArrayError::OutOfMemory),
    }
}

/// The array of the truth values under a mask that goes with them.
fn bools(
    alloc: Global,
    values: &[bool],
    nullability: Nullability,
    validity: Option<Mask>,
) -> Result<Array, ArrayError>
    requires few { length values.now ≤ most_rows }
    requires mask { IsMask (length values.now) (is_nullable nullability) validity }
    ensures { MatchResult result
        (λ a. a ≡ leaf_column (boolean (is_nullable nullability)) Encoding.Bool validity
        (map truth_row values.now))
        (λ e. e ≡ ArrayError.OutOfMemory) }
{
    let content = Content::Truths(truths(alloc, values)?);
    let held = Held { content, validity };
    Ok(Array::made(DType::Bool(nullability), values.len(), held))
}

/// The array of the numbers under a mask that goes with them.
fn primitives<T: NativePType>(
    alloc: Global,
    values: &[T],
    nullability: Nullability,
    validity: Option<Mask>,
) -> Result<Array, ArrayError>
    requires few { length values.now ≤ most_rows }
    requires mask { IsMask (length values.now) (is_nullable nullability) validity }
    ensures { MatchResult result
        (λ a. a ≡ leaf_column (primitive (whole_kind T.PTYPE) (is_nullable nullability))
        Encoding.Primitive validity (map (λ x. whole_row (T.number x)) values.now))
        (λ e. e ≡ ArrayError.OutOfMemory) }
{
    let content = Content::Numbers(Numbers::from_values(alloc, values)?);
    let held = Held { content, validity };
    let dtype = DType::Primitive(T::PTYPE, nullability);
    Ok(Array::made(dtype, values.len(), held))
}

/// The array of the decimals under a mask that goes with them.
fn decimals<T: NativeDecimalType>(
    alloc: Global,
    values: &[T],
    dtype: DecimalDType,
    nullability: Nullability,
    validity: Option<Mask>,
) -> Result<Array, ArrayError>
    requires few { length values.now ≤ most_rows }
    requires mask { IsMask (length values.now) (is_nullable nullability) validity }
    ensures { MatchResult result
        (λ a. a ≡ leaf_column (decimal dtype.precision dtype.scale (is_nullable nullability))
        Encoding.Decimal validity (map (λ x. whole_row (T.number x)) values.now))
        (λ e. e ≡ ArrayError.OutOfMemory) }
{
    let content = Content::Decimals(Decimals::from_values(alloc, values)?);
    let held = Held { content, validity };
    Ok(Array::made(DType::Decimal(dtype, nullability), values.len(), held))
}
