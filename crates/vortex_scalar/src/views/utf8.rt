//! Views of texts.

ghost use Rattle.std.specs.Prelude.{IsTrue};
ghost use Rattle.vortex_types.specs.Predicates.{is_utf8};

use super::held::Held;
use crate::scalar::Scalar;
use std::alloc::Global;
use vortex_buffer::BufferString;
use vortex_scalar_value::{ScalarError, ScalarValue};
use vortex_types::DType;

/// A text or null, and its type. Contracts see it as its type and its row, by
/// `utf8_term`.
#[derive(Drop)]
pub struct Utf8Scalar<'a> {
    pub(super) held: Held<'a>,
    ghost kind: { IsTrue (is_utf8 held.dtype) },
}

impl Scalar {
    ghost use Rattle.std.specs.Prelude.{◌≡◌};
    ghost use Rattle.std.specs.Option.{option_map};
    ghost use Rattle.vortex_scalar.specs.LargeViews.{kept_if};
    ghost use Rattle.vortex_scalar.specs.TextViews.{utf8_term};

    /// The view of a text, and none of a scalar of another type.
    pub fn as_utf8_opt(&self) -> Option<Utf8Scalar<'_>>
        ensures { option_map utf8_term result ≡ kept_if is_utf8 self.now }
    {
        if self.dtype().is_utf8() {
            Some(self.as_utf8())
        } else {
            None
        }
    }

    /// The view of a text.
    pub fn as_utf8(&self) -> Utf8Scalar<'_>
        requires { IsTrue (is_utf8 self.now.dtype) }
        ensures { utf8_term result ≡ self.now }
    {
        Utf8Scalar { held: self.held() }
    }
}

impl<'a> Utf8Scalar<'a> {
    ghost use Rattle.std.specs.Prelude.{◌≡◌, nat_eq, IfOk, IsOkUnless};
    ghost use Rattle.std.specs.Option.{option_copied};
    ghost use Rattle.vortex_terms.specs.Types.{Legal};
    ghost use Rattle.vortex_terms.specs.Fits.{Fits};
    ghost use Rattle.vortex_terms.specs.Row.{bytes_row};
    ghost use Rattle.vortex_terms.specs.Parts.{byte_count};
    ghost use Rattle.vortex_types.specs.DTypes.{term_of};
    ghost use Rattle.vortex_scalar.specs.ViewRows.{or_null, view_of, Shows};
    ghost use Rattle.vortex_scalar.specs.TextViews.{utf8_term};

    /// The view of a value under a type. A type of another kind is a WrongType, and a value that
    /// does not fit the type is a DoesNotFit.
    pub fn from_scalar_value(
        dtype: &'a DType,
        value: ScalarValue,
    ) -> Result<Utf8Scalar<'a>, ScalarError>
        ensures { Shows utf8_term result (view_of is_utf8 (term_of dtype.now) value) }
    {
        if !dtype.is_utf8() {
            return Err(ScalarError::WrongType);
        }
        match Held::try_new(dtype, value) {
            Ok(held) => Ok(Utf8Scalar { held }),
            Err(e) => Err(e),
        }
    }

    /// The type.
    pub fn dtype(&self) -> &'a DType
        ensures { term_of result.now ≡ (utf8_term self.now).dtype }
    {
        self.held.dtype()
    }

    /// The text, if it is not null.
    pub fn value_ref(&self) -> Option<&str>
        ensures { or_null bytes_row (option_copied result) ≡ (utf8_term self.now).row }
    {
        self.held.fitting().text()
    }

    /// The text, shared, if it is not null.
    pub fn value(&self, alloc: Global) -> Result<Option<BufferString>, ScalarError>
        ensures value { IfOk result (λ o.
            or_null (λ b. bytes_row b.bytes) o ≡ (utf8_term self.now).row) }
        ensures memory { IsOkUnless result ScalarError.OutOfMemory }
    {
        self.held.fitting().string(alloc)
    }

    /// How many bytes there are, 0 for null.
    pub fn len(&self) -> usize
        ensures { result ≡ byte_count (utf8_term self.now).row }
    {
        match self.held.fitting().bytes() {
            Some(bytes) => bytes.len(),
            None => 0,
        }
    }

    /// Whether it has no bytes or is null.
    pub fn is_empty(&self) -> bool
        ensures { result ≡ nat_eq (byte_count (utf8_term self.now).row) 0 }
    {
        self.len() == 0
    }

    /// The type is a legal one of texts, and the row fits it. It does nothing when the program
    /// runs.
    pub fn law(&self)
        ensures kind { IsTrue (is_utf8 (utf8_term self.now).dtype) }
        ensures legal { Legal (utf8_term self.now).dtype }
        ensures fits { Fits (utf8_term self.now).dtype (utf8_term self.now).row }
    {
        self.held.fitting().law();
    }
}
