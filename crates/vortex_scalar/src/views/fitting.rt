//! A type and a value that fits it, both lent.

ghost use Rattle.std.specs.Prelude.{IsTrue, ◌≡◌, ok_or, fold, Some, IfOk, IsOkUnless};
ghost use Rattle.std.specs.Option.{IsSome, option_copied, option_map};
ghost use Rattle.vortex_terms.specs.Types.{Legal, field_at};
ghost use Rattle.vortex_terms.specs.Row.{is_null, bytes_row};
ghost use Rattle.vortex_terms.specs.Fits.{Fits};
ghost use Rattle.vortex_types.specs.DTypes.{term_of};
ghost use Rattle.vortex_types.specs.Predicates.{is_utf8};
ghost use Rattle.vortex_scalar.specs.ViewRows.{or_null};
ghost use Rattle.vortex_scalar.specs.LargeViews.{holds_bytes};
ghost use Rattle.vortex_value_rows.specs.RowOf.{row_of, fitting_row};
ghost use Rattle.vortex_scalar.specs.Made.{scalar_of, typed};
ghost use Rattle.vortex_scalar.specs.Compare.{scalar_eq, scalar_cmp};
ghost use Rattle.vortex_scalar.specs.HashInput.{scalar_writes};
ghost use Rattle.vortex_scalar.specs.LargeViews.{part_type, part_scalar, part_scalars};
ghost use Rattle.vortex_scalar.specs.LargeViews.{count_within};
ghost use Rattle.vortex_scalar.specs.inner.Parts.{values_within, value_within};

use super::content::{buffer_in, bytes_in, string_in, text_in};
use crate::impls::{compare_values, equal_values, hash_value};
use crate::scalar::Scalar;
use std::alloc::Global;
use std::cmp::Ordering;
use std::hash::Hasher;
use std::marker::Model;
use vortex_buffer::{BufferString, ByteBuffer};
use vortex_scalar_value::{ScalarError, ScalarValue, ValueRef};
use vortex_types::{DType, StructFields};
use vortex_value_rows::fits;

/// A type and a value that fits it, both lent. Contracts see it as its type and its row.
#[derive(Drop)]
pub(crate) struct Fitting<'a> {
    dtype: &'a DType,
    value: &'a ScalarValue,
}

impl<'a> Model for Fitting<'a> {
    ghost use Rattle.std.specs.Option.{IsSome};
    ghost use Rattle.vortex_types.specs.DTypes.{term_of};
    ghost use Rattle.vortex_value_rows.specs.RowOf.{fitting_row};
    ghost use Rattle.vortex_scalar.specs.ScalarTerm.{ScalarTerm, coded_scalar};
    ghost use Rattle.vortex_scalar.specs.Made.{scalar_of};

    ghost Value = { ScalarTerm };

    ghost coded = { coded_scalar };

    ghost view = { λ s. scalar_of (term_of s.dtype.now) s.value.now };

    ghost invariant = { λ s. IsSome (fitting_row (term_of s.dtype.now) s.value.now) };
}

impl Scalar {
    /// The scalar, lent.
    pub(crate) fn fitting(&self) -> Fitting<'_>
        ensures { result ≡ self.now }
    {
        let (dtype, value) = self.parts();
        Fitting { dtype, value }
    }
}

impl<'a> Fitting<'a> {
    /// A type and a value that fits it.
    pub(super) fn new(dtype: &'a DType, value: &'a ScalarValue) -> Fitting<'a>
        requires { IsSome (fitting_row (term_of dtype.now) value.now) }
        ensures { result ≡ scalar_of (term_of dtype.now) value.now }
    {
        Fitting { dtype, value }
    }

    /// A type and a value, where it fits the type.
    pub(super) fn try_new(
        dtype: &'a DType,
        value: &'a ScalarValue,
    ) -> Result<Fitting<'a>, ScalarError>
        ensures dtype { IfOk result (λ s. s.dtype ≡ term_of dtype.now) }
        ensures scalar { result
            ≡ ok_or (option_map (typed (term_of dtype.now)) (fitting_row (term_of dtype.now) value.now))
            ScalarError.DoesNotFit }
    {
        if fits(dtype.type_ref(), value) {
            Ok(Fitting { dtype, value })
        } else {
            Err(ScalarError::DoesNotFit)
        }
    }

    /// The type.
    pub(crate) fn dtype(&self) -> &'a DType
        ensures { term_of result.now ≡ self.now.dtype }
    {
        self.dtype
    }

    /// The value.
    pub(crate) fn value(&self) -> &'a ScalarValue
        ensures { row_of self.now.dtype result.now ≡ Some self.now.row }
    {
        self.value
    }

    /// Whether it is null.
    pub(crate) fn is_null(&self) -> bool
        ensures { result ≡ is_null self.now.row }
    {
        self.value.is_null()
    }

    /// How many parts a list or a struct has, 0 where it is null.
    pub(crate) fn len(&self) -> usize
        ensures { result ≡ count_within self.now.row }
    {
        match inside(self.value) {
            Some(values) => values.len(),
            None => 0,
        }
    }

    /// What stands at an index inside a list or a struct.
    pub(crate) fn part(&self, alloc: Global, index: usize) -> Result<Option<Scalar>, ScalarError>
        ensures part { IfOk result (λ o. o ≡ part_scalar self.now index) }
        ensures memory { IsOkUnless result ScalarError.OutOfMemory }
    {
        let value = match value_inside(self.value, index) {
            Some(value) => value,
            None => return Ok(None),
        };
        match dtype_inside(alloc, self.dtype, index)? {
            Some(dtype) => Ok(Some(Scalar::new(dtype, value.try_clone(alloc)?))),
            None => Ok(None),
        }
    }

    /// All that stands inside a list or a struct, in order; there is nothing where it is null.
    pub(crate) fn parts(&self, alloc: Global) -> Result<Option<Vec<Scalar>>, ScalarError>
        ensures parts { IfOk result (λ o. option_map (λ v. v.items) o ≡ part_scalars self.now) }
        ensures memory { IsOkUnless result ScalarError.OutOfMemory }
    {
        match inside(self.value) {
            Some(_) => {}
            None => return Ok(None),
        }
        let mut parts = Vec::new(alloc);
        while let Some(part) = self.part(alloc, parts.len())? {
            parts.push(part)?;
        }
        Ok(Some(parts))
    }

    /// The bytes of a text or of bytes, if it is not null.
    pub(super) fn bytes(&self) -> Option<&'a [u8]>
        requires { IsTrue (holds_bytes self.now.dtype) }
        ensures { or_null bytes_row (option_copied result) ≡ self.now.row }
    {
        bytes_in(self.value)
    }

    /// The bytes of a text or of bytes, shared, if it is not null.
    pub(super) fn buffer(&self, alloc: Global) -> Result<Option<ByteBuffer>, ScalarError>
        requires { IsTrue (holds_bytes self.now.dtype) }
        ensures bytes { IfOk result (λ o. or_null (λ b. bytes_row b.bytes) o ≡ self.now.row) }
        ensures memory { IsOkUnless result ScalarError.OutOfMemory }
    {
        buffer_in(alloc, self.value)
    }

    /// The text, if it is not null.
    pub(super) fn text(&self) -> Option<&'a str>
        requires { IsTrue (is_utf8 self.now.dtype) }
        ensures { or_null bytes_row (option_copied result) ≡ self.now.row }
    {
        text_in(self.value)
    }

    /// The text, shared, if it is not null.
    pub(super) fn string(&self, alloc: Global) -> Result<Option<BufferString>, ScalarError>
        requires { IsTrue (is_utf8 self.now.dtype) }
        ensures text { IfOk result (λ o. or_null (λ b. bytes_row b.bytes) o ≡ self.now.row) }
        ensures memory { IsOkUnless result ScalarError.OutOfMemory }
    {
        string_in(alloc, self.value)
    }

    /// Whether the types are the same apart from nullability, and the rows are equal.
    pub(super) fn equals(&self, other: &Fitting<'_>) -> bool
        ensures { result ≡ scalar_eq self.now other.now }
    {
        equal_values(self.dtype, self.value, other.dtype, other.value)
    }

    /// How the rows compare, where the types are the same apart from nullability.
    pub(super) fn compare(&self, other: &Fitting<'_>) -> Option<Ordering>
        ensures { result ≡ scalar_cmp self.now other.now }
    {
        compare_values(self.dtype, self.value, other.dtype, other.value)
    }

    /// Feeds the scalar.
    pub(super) fn feed<H: Hasher>(&self, state: &mut H)
        ensures { state.new ≡ fold H.write state.old (scalar_writes self.now) }
    {
        hash_value(self.dtype, self.value, state);
    }

    /// The type is legal, and the row fits it. It does nothing when the program runs.
    pub(crate) fn law(&self)
        ensures legal { Legal self.now.dtype }
        ensures fits { Fits self.now.dtype self.now.row }
    {
        self.dtype.law();
    }
}

/// The values inside a list or a struct.
pub(crate) fn inside(value: &ScalarValue) -> Option<&[ScalarValue]>
    ensures { option_copied result ≡ values_within value.now }
{
    match value.value_ref() {
        ValueRef::List(values) => Some(values),
        _ => None,
    }
}

/// The value at an index inside a list or a struct.
fn value_inside(value: &ScalarValue, index: usize) -> Option<&ScalarValue>
    ensures { option_copied result ≡ value_within value.now index }
{
    inside(value)?.get(index)
}

/// The type at an index inside a list or a struct.
fn dtype_inside(alloc: Global, dtype: &DType, index: usize) -> Result<Option<DType>, ScalarError>
    ensures part { IfOk result (λ o. option_map term_of o ≡ part_type (term_of dtype.now) index) }
    ensures memory { IsOkUnless result ScalarError.OutOfMemory }
{
    match dtype {
        DType::List(element, _) | DType::FixedSizeList(element, _, _) => {
            Ok(Some(shared_dtype(alloc, element.as_dtype())?))
        }
        DType::Struct(fields, _) => field_dtype(alloc, fields, index),
        _ => Ok(None),
    }
}

/// The type of the field at an index.
fn field_dtype(
    alloc: Global,
    fields: &StructFields,
    index: usize,
) -> Result<Option<DType>, ScalarError>
    ensures field { IfOk result (λ o. option_map term_of o ≡ field_at fields.now index) }
    ensures memory { IsOkUnless result ScalarError.OutOfMemory }
{
    match fields.field_by_index(alloc, index) {
        Ok(dtype) => Ok(dtype),
        Err(_) => Err(ScalarError::OutOfMemory),
    }
}

/// The same type, shared.
pub(crate) fn shared_dtype(alloc: Global, dtype: &DType) -> Result<DType, ScalarError>
    ensures term { IfOk result (λ t. term_of t ≡ term_of dtype.now) }
    ensures memory { IsOkUnless result ScalarError.OutOfMemory }
{
    match dtype.try_clone(alloc) {
        Ok(dtype) => Ok(dtype),
        Err(_) => Err(ScalarError::OutOfMemory),
    }
}
