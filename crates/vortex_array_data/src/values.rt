//! The values of single rows.

ghost use Rattle.std.specs.Prelude.{◌≡◌, ◌≤◌, ◌<◌, length, slice_get, slice_range, IfOk, IsOkUnless};
ghost use Rattle.std.specs.List.{AllByRecursion};
ghost use Rattle.std.specs.Str.{IsUtf8};
ghost use Rattle.vortex_number.specs.WholeKind.{whole_kind};
ghost use Rattle.vortex_value.specs.PValue.{number_of};
ghost use Rattle.vortex_terms.specs.Fits.{InRange};
ghost use Rattle.vortex_value_rows.specs.RowOf.{fitting_row, row_of};
ghost use Rattle.vortex_scalar_value.specs.Value.{bytes_value, list_value, text_value, values_from};
ghost use Rattle.vortex_array_data.specs.ValuesAt.{AreValuesAt, AreValuesOf};

use crate::access::is_unmasked;
use crate::error::ArrayError;
use crate::held::{Array, Content};
use crate::pick_array::same_value;
use std::alloc::Global;
use vortex_arithmetic::value_in;
use vortex_number::PType;
use vortex_scalar_value::ScalarValue;
use vortex_types::DType;
use vortex_value::{DecimalValue, PValue};

/// The number as one of the kind.
fn number_value(ptype: PType, number: i128) -> PValue
    requires { InRange (whole_kind ptype) number }
    ensures { number_of result ≡ number }
{
    match value_in(ptype, number) {
        Some(value) => value,
        None => unreachable!(),
    }
}

/// The list of these values.
fn listed(alloc: Global, values: Vec<ScalarValue>) -> Result<ScalarValue, ArrayError>
    ensures value { IfOk result (λ v. v ≡ list_value (values_from values.items)) }
    ensures memory { IsOkUnless result ArrayError.OutOfMemory }
{
    match ScalarValue::from_list(alloc, values) {
        Ok(value) => Ok(value),
        Err(_) => Err(ArrayError::OutOfMemory),
    }
}

/// The bytes as a value, copied.
fn bytes_value(alloc: Global, bytes: &[u8]) -> Result<ScalarValue, ArrayError>
    ensures value { IfOk result (λ v. v ≡ bytes_value bytes.now) }
    ensures memory { IsOkUnless result ArrayError.OutOfMemory }
{
    match ScalarValue::from_bytes(alloc, bytes) {
        Ok(value) => Ok(value),
        Err(_) => Err(ArrayError::OutOfMemory),
    }
}

/// The text as a value, copied.
fn text_value(alloc: Global, bytes: &[u8]) -> Result<ScalarValue, ArrayError>
    requires { IsUtf8 bytes.now }
    ensures value { IfOk result (λ v. v ≡ text_value bytes.now) }
    ensures memory { IsOkUnless result ArrayError.OutOfMemory }
{
    let Ok(text) = str::from_utf8(bytes) else {
        unreachable!();
    };
    match ScalarValue::from_text(alloc, text) {
        Ok(value) => Ok(value),
        Err(_) => Err(ArrayError::OutOfMemory),
    }
}

impl Array {
    /// The value of row `i`.
    #[cycle(valued)]
    fn row_value(&self, alloc: Global, i: usize) -> Result<ScalarValue, ArrayError>
        requires { i < length self.now.rows }
        ensures value { IfOk result (λ v. row_of self.now.dtype v ≡ slice_get self.now.rows i) }
        ensures memory { IsOkUnless result ArrayError.OutOfMemory }
    {
        if !is_unmasked(&self.held.validity, i) {
            return Ok(ScalarValue::null());
        }
        match &self.held.content {
            Content::Nulls => Ok(ScalarValue::null()),
            Content::Truths(mask) => Ok(ScalarValue::from_bool(mask.value(i))),
            Content::Numbers(numbers) => {
                let DType::Primitive(ptype, _) = &self.dtype else {
                    unreachable!();
                };
                let number = number_value(*ptype, numbers.number(i));
                Ok(ScalarValue::from_pvalue(number))
            }
            Content::Decimals(decimals) => {
                let number = DecimalValue::I128(decimals.number(i));
                Ok(ScalarValue::from_decimal(number))
            }
            Content::Texts(texts) => match &self.dtype {
                DType::Utf8(_) => text_value(alloc, texts.piece(i)),
                _ => bytes_value(alloc, texts.piece(i)),
            },
            Content::Lists(offsets, elements) => {
                let (from, to) = offsets.bounds(i);
                let values = elements.values_between(alloc, from as usize, to as usize)?;
                listed(alloc, values)
            }
            Content::FixedLists(size, elements) => {
                let size = *size as usize;
                let values = elements.values_between(alloc, i * size, i * size + size)?;
                listed(alloc, values)
            }
            Content::Structs(fields) => {
                let values = Array::field_values(alloc, fields, i)?;
                listed(alloc, values)
            }
            Content::Storage(storage) => storage.row_value(alloc, i),
            Content::Constant(value) => same_value(alloc, value),
        }
    }

    /// The values of the rows from one place to another.
    #[cycle(valued)]
    fn values_between(
        &self,
        alloc: Global,
        from: usize,
        to: usize,
    ) -> Result<Vec<ScalarValue>, ArrayError>
        requires rise { from ≤ to }
        requires within { to ≤ length self.now.rows }
        ensures values { IfOk result (λ vs.
            AreValuesOf self.now.dtype vs.items (slice_range self.now.rows from to)) }
        ensures memory { IsOkUnless result ArrayError.OutOfMemory }
    {
        let mut values = Vec::with_capacity(alloc, to - from)?;
        for i in from..to {
            values.push(self.row_value(alloc, i)?)?;
        }
        Ok(values)
    }

    /// The values that the fields have in one row.
    #[cycle(valued)]
    fn field_values(
        alloc: Global,
        fields: &[Array],
        i: usize,
    ) -> Result<Vec<ScalarValue>, ArrayError>
        requires { AllByRecursion (λ f. i < length f.rows) fields.now }
        ensures values { IfOk result (λ vs. AreValuesAt i fields.now vs.items) }
        ensures memory { IsOkUnless result ArrayError.OutOfMemory }
    {
        let mut values = Vec::with_capacity(alloc, fields.len())?;
        for field in fields {
            values.push(field.row_value(alloc, i)?)?;
        }
        Ok(values)
    }

    /// The value of row `i`. What it costs goes by the size of the value.
    pub fn value_at(&self, alloc: Global, i: usize) -> Result<ScalarValue, ArrayError>
        requires { i < length self.now.rows }
        ensures value { IfOk result (λ v. fitting_row self.now.dtype v
            ≡ slice_get self.now.rows i) }
        ensures memory { IsOkUnless result ArrayError.OutOfMemory }
    {
        self.law();
        self.row_value(alloc, i)
    }
}
