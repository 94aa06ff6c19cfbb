//! Rows compared with a scalar.

ghost use Rattle.std.specs.Prelude.{◌≡◌, ◌+◌, ◌≤◌, ◌<◌, length, map, true, false, IfErr, IfOk, IsOkUnless, IsTrue, Some};
ghost use Rattle.std.specs.Option.{IsSome};
ghost use Rattle.std.specs.List.{list_all, list_any};
ghost use Rattle.vortex_names.specs.Nullable.{is_nullable};
ghost use Rattle.vortex_terms.specs.Equality.{is_same};
ghost use Rattle.vortex_terms.specs.FromColumns.{masked};
ghost use Rattle.vortex_terms.specs.Row.{truth_row, is_null};
ghost use Rattle.vortex_terms.specs.Term.{boolean};
ghost use Rattle.vortex_node_rows.specs.RowsOf.{most_rows};
ghost use Rattle.vortex_value_rows.specs.RowOf.{row_of, row_under};
ghost use Rattle.vortex_array_data.specs.Column.{Column};
ghost use Rattle.vortex_array_compare.specs.Compared.{has_true, refusal_of, IsCompared};
ghost use Rattle.vortex_array_data.specs.inner.Masks.{IsTaken};
ghost use Rattle.vortex_array_compare.specs.inner.ComparedRows.{known_rows, row_in, row_truth, row_truths};

use crate::compare_numbers::number_truths;
use crate::compare_rows::row_order;
use crate::compare_texts::text_truths;
use crate::uniform::is_uniform;
use std::alloc::Global;
use std::sync::ledger::Ledger;
use vortex_array_data::{Array, ArrayError, Content, Held};
use vortex_mask::{Mask, MaskBuilder};
use vortex_names::Nullability;
use vortex_scalar::Scalar;
use vortex_scalar_value::ScalarValue;
use vortex_steps::Steps;
use vortex_types::DType;
use vortex_value::Operator;
use vortex_value_rows::{RowRef, row_ref};

/// The mask that is kept of one that is true everywhere under a type that is not nullable.
fn kept_mask(len: usize, nullability: Nullability, known: Mask) -> Option<Mask>
    requires long { length known ≡ len }
    requires bare { is_nullable nullability ≡ false → list_all (λ b. b) known ≡ true }
    ensures { IsTaken len (is_nullable nullability) (Some known) result }
{
    let _ = len;
    match nullability {
        Nullability::Nullable => Some(known),
        Nullability::NonNullable => None,
    }
}

/// Truth values, null where the second mask is false.
fn held_truths(nullability: Nullability, truths: Mask, known: Mask) -> Array
    requires few { length truths ≤ most_rows }
    requires long { length known ≡ length truths }
    requires bare { is_nullable nullability ≡ false → list_all (λ b. b) known ≡ true }
    ensures dtype { result.dtype ≡ boolean (is_nullable nullability) }
    ensures rows { result.rows ≡ masked (Some known) (map truth_row truths) }
{
    let len = truths.len();
    let validity = kept_mask(len, nullability, known);
    let content = Content::Truths(truths);
    Array::made(DType::Bool(nullability), len, Held { content, validity })
}

/// Whether row `i` is not null and the relation holds of it and the value, which is not null.
/// It is a step where the row is not null.
fn row_truth<L: Ledger>(
    array: &Array,
    i: usize,
    value: &ScalarValue,
    operator: Operator,
    steps: &mut Steps<L>,
) -> bool
    requires place { i < length array.now.rows }
    requires row { IsSome (row_of array.now.dtype value.now) }
    requires known { is_null (row_under array.now.dtype value.now) ≡ false }
    ensures truth { result ≡ row_truth operator (row_under array.now.dtype value.now)
        (row_in array.now.rows i) }
    ensures rise { steps.old ≤ steps.new }
    ensures most { steps.new ≤ steps.old + 1 }
    ensures least { IsTrue result → steps.old < steps.new }
{
    if !array.is_valid(i) {
        return false;
    }
    operator.holds(row_order(array, i, value), steps)
}

/// The same of each row.
fn single_truths<L: Ledger>(
    alloc: Global,
    array: &Array,
    value: &ScalarValue,
    operator: Operator,
    steps: &mut Steps<L>,
) -> Result<Mask, ArrayError>
    requires row { IsSome (row_of array.now.dtype value.now) }
    requires known { is_null (row_under array.now.dtype value.now) ≡ false }
    ensures truths { IfOk result (λ m. m
        ≡ row_truths operator (row_under array.now.dtype value.now) array.now.rows) }
    ensures memory { IsOkUnless result ArrayError.OutOfMemory }
    ensures rise { steps.old ≤ steps.new }
    ensures most { steps.new ≤ steps.old + length array.now.rows }
    ensures least { IfOk result (λ m. IsTrue (list_any (λ b. b) m) → steps.old < steps.new) }
{
    let Ok(mut truths) = MaskBuilder::with_capacity(alloc, array.len) else {
        return Err(ArrayError::OutOfMemory);
    };
    for i in 0..array.len {
        let Ok(()) = truths.push(row_truth(array, i, value, operator, steps)) else {
            return Err(ArrayError::OutOfMemory);
        };
    }
    match truths.finish() {
        Ok(truths) => Ok(truths),
        Err(_) => Err(ArrayError::OutOfMemory),
    }
}

/// The same of each row, where numbers and texts are compared by loops of their own.
fn row_truths<L: Ledger>(
    alloc: Global,
    array: &Array,
    value: &ScalarValue,
    operator: Operator,
    steps: &mut Steps<L>,
) -> Result<Mask, ArrayError>
    requires row { IsSome (row_of array.now.dtype value.now) }
    requires known { is_null (row_under array.now.dtype value.now) ≡ false }
    ensures truths { IfOk result (λ m. m
        ≡ row_truths operator (row_under array.now.dtype value.now) array.now.rows) }
    ensures memory { IsOkUnless result ArrayError.OutOfMemory }
    ensures rise { steps.old ≤ steps.new }
    ensures most { steps.new ≤ steps.old + length array.now.rows }
    ensures least { IfOk result (λ m. IsTrue (list_any (λ b. b) m) → steps.old < steps.new) }
{
    let other = row_ref(array.dtype.type_ref(), value);
    if let Content::Numbers(numbers) = &array.held.content {
        if let RowRef::Whole(number) = other {
            let validity = &array.held.validity;
            return number_truths(alloc, numbers, validity, number, operator, steps);
        }
    }
    if let Content::Texts(texts) = &array.held.content {
        if let RowRef::Bytes(bytes) = other {
            let validity = &array.held.validity;
            return text_truths(alloc, texts, validity, bytes, operator, steps);
        }
    }
    single_truths(alloc, array, value, operator, steps)
}

/// For each row whether neither it nor the scalar is null.
fn known(alloc: Global, array: &Array, scalar: &Scalar) -> Result<Mask, ArrayError>
    ensures known { IfOk result (λ m. m ≡ known_rows scalar.now.row array.now.rows) }
    ensures memory { IsOkUnless result ArrayError.OutOfMemory }
{
    if scalar.is_null() {
        return Ok(Mask::new_false(array.len));
    }
    array.validity_mask(alloc)
}

/// For each row whether neither it nor the scalar is null and the relation holds of them. One
/// step is taken where all rows are known to be one row, and else one for each row that is not
/// null.
fn truths<L: Ledger>(
    alloc: Global,
    array: &Array,
    scalar: &Scalar,
    operator: Operator,
    steps: &mut Steps<L>,
) -> Result<Mask, ArrayError>
    requires { IsTrue (is_same array.now.dtype scalar.now.dtype) }
    ensures truths { IfOk result (λ m. m
        ≡ row_truths operator scalar.now.row array.now.rows) }
    ensures memory { IsOkUnless result ArrayError.OutOfMemory }
    ensures rise { steps.old ≤ steps.new }
    ensures most { steps.new ≤ steps.old + length array.now.rows }
    ensures least { IfOk result (λ m. IsTrue (list_any (λ b. b) m) → steps.old < steps.new) }
{
    if scalar.is_null() {
        return Ok(Mask::new_false(array.len));
    }
    let value = scalar.value();
    if array.len > 0 {
        if is_uniform(array) {
            if row_truth(array, 0, value, operator, steps) {
                return Ok(Mask::new_true(array.len));
            }
            return Ok(Mask::new_false(array.len));
        }
    }
    row_truths(alloc, array, value, operator, steps)
}

/// The truth values that comparing the rows answers.
fn compared<L: Ledger>(
    alloc: Global,
    array: &Array,
    scalar: &Scalar,
    operator: Operator,
    steps: &mut Steps<L>,
) -> Result<Array, ArrayError>
    ensures rows { IfOk result (IsCompared operator array.now scalar.now) }
    ensures same { IfOk result (λ _. is_same array.now.dtype scalar.now.dtype ≡ true) }
    ensures refusal { IfErr result (λ e. e ≡ refusal_of array.now.dtype scalar.now.dtype) }
    ensures mismatch { is_same array.now.dtype scalar.now.dtype ≡ false
        → steps.new ≡ steps.old }
    ensures rise { steps.old ≤ steps.new }
    ensures most { steps.new ≤ steps.old + length array.now.rows }
    ensures least { IfOk result (λ a. IsTrue (has_true a.rows) → steps.old < steps.new) }
{
    if !array.dtype.eq_ignore_nullability(scalar.dtype()) {
        return Err(ArrayError::TypeMismatch);
    }
    array.law();
    scalar.law();
    let known = known(alloc, array, scalar)?;
    let truths = truths(alloc, array, scalar, operator, steps)?;
    let nullability = array.dtype.nullability() | scalar.dtype().nullability();
    Ok(held_truths(nullability, truths, known))
}

/// What is seen as a column and whose rows are compared.
pub trait Compare {
    ghost column: { Self → Column };

    /// For each row whether it stands in the relation to the scalar, null where one of them is, as
    /// truth values that are nullable where the array's or the scalar's type is. Rows compare as
    /// scalars do: null first, false before true, numbers by value, bytes and lists as slices. It
    /// is refused as TypeMismatch exactly where the types differ apart from nullability.
    ///
    /// A step is taken for each row at most. Where all rows are known to be one row, as in a
    /// constant, it is one step in all, and takes no memory.
    fn compare<L: Ledger>(
        &self,
        alloc: Global,
        scalar: &Scalar,
        operator: Operator,
        steps: &mut Steps<L>,
    ) -> Result<Array, ArrayError>
        ensures rows { IfOk result (IsCompared operator (column self.now) scalar.now) }
        ensures same { IfOk result (λ _. is_same (column self.now).dtype scalar.now.dtype ≡ true) }
        ensures refusal { IfErr result (λ e. e ≡ refusal_of (column self.now).dtype scalar.now.dtype) }
        ensures mismatch { is_same (column self.now).dtype scalar.now.dtype ≡ false
            → steps.new ≡ steps.old }
        ensures rise { steps.old ≤ steps.new }
        ensures most { steps.new ≤ steps.old + length (column self.now).rows }
        ensures least { IfOk result (λ a. IsTrue (has_true a.rows) → steps.old < steps.new) };
}

impl Compare for Array {
    ghost column = { λ a. a };

    fn compare<L: Ledger>(
        &self,
        alloc: Global,
        scalar: &Scalar,
        operator: Operator,
        steps: &mut Steps<L>,
    ) -> Result<Array, ArrayError> {
        compared(alloc, self, scalar, operator, steps)
    }
}
