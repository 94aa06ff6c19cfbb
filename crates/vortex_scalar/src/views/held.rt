//! A type and a value that fits it, the value being lent or owned.

ghost use Rattle.std.specs.Prelude.{◌≡◌, ok_or, IfOk, IsTrue, IsOkUnless};
ghost use Rattle.std.specs.Option.{IsSome, option_map};
ghost use Rattle.vortex_terms.specs.Row.{bytes_row};
ghost use Rattle.vortex_types.specs.DTypes.{term_of};
ghost use Rattle.vortex_types.specs.Predicates.{is_utf8, is_binary};
ghost use Rattle.vortex_value_rows.specs.RowOf.{fitting_row};
ghost use Rattle.vortex_scalar.specs.Made.{scalar_of, typed};

use super::fitting::Fitting;
use crate::build::bytes_law;
use crate::scalar::Scalar;
use std::alloc::Global;
use std::marker::Model;
use vortex_scalar_value::{ScalarError, ScalarValue};
use vortex_types::DType;
use vortex_value_rows::fits;

/// A type and a value that fits it. Contracts see it as its type and its row.
#[derive(Drop)]
pub(crate) struct Held<'a> {
    dtype: &'a DType,
    value: HeldValue<'a>,
}

/// A value that is lent or owned.
#[derive(Drop)]
pub(crate) enum HeldValue<'a> {
    Lent(&'a ScalarValue),
    Owned(ScalarValue),
}

impl<'a> Model for Held<'a> {
    ghost use Rattle.std.specs.Option.{IsSome};
    ghost use Rattle.vortex_types.specs.DTypes.{term_of};
    ghost use Rattle.vortex_value_rows.specs.RowOf.{fitting_row};
    ghost use Rattle.vortex_scalar.specs.ScalarTerm.{ScalarTerm, coded_scalar};
    ghost use Rattle.vortex_scalar.specs.Made.{scalar_of};

    ghost Value = { ScalarTerm };

    ghost coded = { coded_scalar };

    ghost use Rattle.vortex_scalar.specs.inner.HeldValues.{held_value};

    ghost view = { λ s. scalar_of (term_of s.dtype.now) (held_value s.value) };

    ghost invariant = { λ s. IsSome (fitting_row (term_of s.dtype.now) (held_value s.value)) };
}

impl<'a> HeldValue<'a> {
    ghost use Rattle.vortex_scalar.specs.inner.HeldValues.{held_value};

    /// The value.
    fn value(&self) -> &ScalarValue
        ensures { result.now ≡ held_value self.now }
    {
        match self {
            HeldValue::Lent(value) => value,
            HeldValue::Owned(value) => value,
        }
    }
}

impl Scalar {
    /// The scalar, lent.
    pub(crate) fn held(&self) -> Held<'_>
        ensures { result ≡ self.now }
    {
        let (dtype, value) = self.parts();
        Held {
            dtype,
            value: HeldValue::Lent(value),
        }
    }
}

impl<'a> Held<'a> {
    /// A type and a value, where it fits the type.
    pub(super) fn try_new(dtype: &'a DType, value: ScalarValue) -> Result<Held<'a>, ScalarError>
        ensures dtype { IfOk result (λ s. s.dtype ≡ term_of dtype.now) }
        ensures scalar { result ≡ ok_or (option_map (typed (term_of dtype.now))
            (fitting_row (term_of dtype.now) value)) ScalarError.DoesNotFit }
    {
        if fits(dtype.type_ref(), &value) {
            let value = HeldValue::Owned(value);
            Ok(Held { dtype, value })
        } else {
            Err(ScalarError::DoesNotFit)
        }
    }

    /// A text under a type of texts, copied.
    pub(super) fn text(alloc: Global, dtype: &'a DType, text: &str) -> Result<Held<'a>, ScalarError>
        requires { IsTrue (is_utf8 (term_of dtype.now)) }
        ensures scalar { IfOk result (λ s. s ≡ typed (term_of dtype.now) (bytes_row text.now)) }
        ensures memory { IsOkUnless result ScalarError.OutOfMemory }
    {
        let value = ScalarValue::from_text(alloc, text)?;
        let value = HeldValue::Owned(value);
        Ok(Held { dtype, value })
    }

    /// Bytes under a type of bytes, copied.
    pub(super) fn bytes(
        alloc: Global,
        dtype: &'a DType,
        bytes: &[u8],
    ) -> Result<Held<'a>, ScalarError>
        requires { IsTrue (is_binary (term_of dtype.now)) }
        ensures scalar { IfOk result (λ s. s ≡ typed (term_of dtype.now) (bytes_row bytes.now)) }
        ensures memory { IsOkUnless result ScalarError.OutOfMemory }
    {
        bytes_law(bytes);
        let value = ScalarValue::from_bytes(alloc, bytes)?;
        let value = HeldValue::Owned(value);
        Ok(Held { dtype, value })
    }

    /// The type.
    pub(super) fn dtype(&self) -> &'a DType
        ensures { term_of result.now ≡ self.now.dtype }
    {
        self.dtype
    }

    /// The same, lent.
    pub(super) fn fitting(&self) -> Fitting<'_>
        ensures { result ≡ self.now }
    {
        Fitting::new(self.dtype, self.value.value())
    }
}
