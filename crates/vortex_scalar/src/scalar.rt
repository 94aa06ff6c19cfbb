//! Scalars.

ghost use Rattle.std.specs.Prelude.{◌≡◌, Some, not, IfOk, IsOkUnless};
ghost use Rattle.std.specs.Option.{IsSome};
ghost use Rattle.vortex_terms.specs.Types.{Legal};
ghost use Rattle.vortex_terms.specs.Row.{is_null};
ghost use Rattle.vortex_terms.specs.Fits.{Fits};
ghost use Rattle.vortex_types.specs.DTypes.{term_of};
ghost use Rattle.vortex_value_rows.specs.RowOf.{row_of, fitting_row};
ghost use Rattle.vortex_scalar.specs.Made.{scalar_of, IsScalarOf};

use std::alloc::Global;
use std::marker::Model;
use vortex_scalar_value::{ScalarError, ScalarValue};
use vortex_types::DType;
use vortex_value_rows::fits;

/// A type and a value that fits it. Contracts see it as its type and its row.
#[derive(Drop)]
pub struct Scalar {
    dtype: DType,
    value: ScalarValue,
}

impl Model for Scalar {
    ghost use Rattle.std.specs.Option.{IsSome};
    ghost use Rattle.vortex_types.specs.DTypes.{term_of};
    ghost use Rattle.vortex_value_rows.specs.RowOf.{fitting_row};
    ghost use Rattle.vortex_scalar.specs.ScalarTerm.{ScalarTerm, coded_scalar};
    ghost use Rattle.vortex_scalar.specs.Made.{scalar_of};

    ghost Value = { ScalarTerm };

    ghost coded = { coded_scalar };

    ghost view = { λ s. scalar_of (term_of s.dtype) s.value };

    ghost invariant = { λ s. IsSome (fitting_row (term_of s.dtype) s.value) };
}

impl Scalar {
    /// The scalar of a type and a value that fits it.
    pub fn new(dtype: DType, value: ScalarValue) -> Scalar
        requires { IsSome (fitting_row (term_of dtype) value) }
        ensures { result ≡ scalar_of (term_of dtype) value }
    {
        Scalar { dtype, value }
    }

    /// The scalar of a type and a value, where it fits the type.
    pub fn try_new(dtype: DType, value: ScalarValue) -> Result<Scalar, ScalarError>
        ensures { IsScalarOf (term_of dtype) value result }
    {
        if fits(dtype.type_ref(), &value) {
            Ok(Scalar::new(dtype, value))
        } else {
            Err(ScalarError::DoesNotFit)
        }
    }

    /// The type.
    pub fn dtype(&self) -> &DType
        ensures { term_of result.now ≡ self.now.dtype }
    {
        &self.dtype
    }

    /// The value. In which form a row is kept is free: a number may be of another kind, and a text bytes.
    pub fn value(&self) -> &ScalarValue
        ensures { row_of self.now.dtype result.now ≡ Some self.now.row }
    {
        &self.value
    }

    // The type and the value.
    pub(crate) fn parts(&self) -> (&DType, &ScalarValue)
        ensures scalar { scalar_of (term_of result.0.now) result.1.now ≡ self.now }
        ensures fits { IsSome (fitting_row (term_of result.0.now) result.1.now) }
    {
        (&self.dtype, &self.value)
    }

    /// The type and the value, whose form is free.
    pub fn into_parts(self) -> (DType, ScalarValue)
        ensures dtype { term_of result.0 ≡ self.dtype }
        ensures value { row_of self.dtype result.1 ≡ Some self.row }
    {
        (self.dtype, self.value)
    }

    /// The type.
    pub fn into_dtype(self) -> DType
        ensures { term_of result ≡ self.dtype }
    {
        self.dtype
    }

    /// The value, whose form is free.
    pub fn into_value(self) -> ScalarValue
        ensures { row_of self.dtype result ≡ Some self.row }
    {
        self.value
    }

    /// Whether it is not null.
    pub fn is_valid(&self) -> bool
        ensures { result ≡ not (is_null self.now.row) }
    {
        !self.value.is_null()
    }

    /// Whether it is null.
    pub fn is_null(&self) -> bool
        ensures { result ≡ is_null self.now.row }
    {
        self.value.is_null()
    }

    /// The same scalar, shared.
    pub fn try_clone(&self, alloc: Global) -> Result<Scalar, ScalarError>
        ensures scalar { IfOk result (λ s. s ≡ self.now) }
        ensures memory { IsOkUnless result ScalarError.OutOfMemory }
    {
        let dtype = match self.dtype.try_clone(alloc) {
            Ok(dtype) => dtype,
            Err(_) => return Err(ScalarError::OutOfMemory),
        };
        let value = self.value.try_clone(alloc)?;
        Ok(Scalar { dtype, value })
    }

    /// The type is legal, and the row fits it. It does nothing when the program runs.
    pub fn law(&self)
        ensures legal { Legal self.now.dtype }
        ensures fits { Fits self.now.dtype self.now.row }
    {
        self.dtype.law();
    }
}
