//! Views of bytes.

ghost use Rattle.std.specs.Prelude.{IsTrue};
ghost use Rattle.vortex_types.specs.Predicates.{is_binary};

use super::held::Held;
use crate::scalar::Scalar;
use std::alloc::Global;
use vortex_buffer::ByteBuffer;
use vortex_scalar_value::{ScalarError, ScalarValue};
use vortex_types::DType;

/// Bytes or null, and its type. Contracts see it as its type and its row, by
/// `binary_term`.
#[derive(Drop)]
pub struct BinaryScalar<'a> {
    pub(super) held: Held<'a>,
    ghost kind: { IsTrue (is_binary held.dtype) },
}

impl Scalar {
    ghost use Rattle.std.specs.Prelude.{◌≡◌};
    ghost use Rattle.std.specs.Option.{option_map};
    ghost use Rattle.vortex_scalar.specs.LargeViews.{kept_if};
    ghost use Rattle.vortex_scalar.specs.TextViews.{binary_term};

    /// The view of bytes, and none of a scalar of another type.
    pub fn as_binary_opt(&self) -> Option<BinaryScalar<'_>>
        ensures { option_map binary_term result ≡ kept_if is_binary self.now }
    {
        if self.dtype().is_binary() {
            Some(self.as_binary())
        } else {
            None
        }
    }

    /// The view of bytes.
    pub fn as_binary(&self) -> BinaryScalar<'_>
        requires { IsTrue (is_binary self.now.dtype) }
        ensures { binary_term result ≡ self.now }
    {
        BinaryScalar { held: self.held() }
    }
}

impl<'a> BinaryScalar<'a> {
    ghost use Rattle.std.specs.Prelude.{◌≡◌, nat_eq, IfOk, IsOkUnless};
    ghost use Rattle.std.specs.Option.{option_copied};
    ghost use Rattle.vortex_terms.specs.Types.{Legal};
    ghost use Rattle.vortex_terms.specs.Fits.{Fits};
    ghost use Rattle.vortex_terms.specs.Row.{bytes_row};
    ghost use Rattle.vortex_terms.specs.Parts.{byte_count};
    ghost use Rattle.vortex_types.specs.DTypes.{term_of};
    ghost use Rattle.vortex_scalar.specs.ViewRows.{or_null, view_of, Shows};
    ghost use Rattle.vortex_scalar.specs.TextViews.{binary_term};

    /// The view of a value under a type. A type of another kind is a WrongType, and a value that
    /// does not fit the type is a DoesNotFit.
    pub fn from_scalar_value(
        dtype: &'a DType,
        value: ScalarValue,
    ) -> Result<BinaryScalar<'a>, ScalarError>
        ensures { Shows binary_term result (view_of is_binary (term_of dtype.now) value) }
    {
        if !dtype.is_binary() {
            return Err(ScalarError::WrongType);
        }
        match Held::try_new(dtype, value) {
            Ok(held) => Ok(BinaryScalar { held }),
            Err(e) => Err(e),
        }
    }

    /// The type.
    pub fn dtype(&self) -> &'a DType
        ensures { term_of result.now ≡ (binary_term self.now).dtype }
    {
        self.held.dtype()
    }

    /// The bytes, if it is not null.
    pub fn value_ref(&self) -> Option<&[u8]>
        ensures { or_null bytes_row (option_copied result) ≡ (binary_term self.now).row }
    {
        self.held.fitting().bytes()
    }

    /// The bytes, shared, if it is not null.
    pub fn value(&self, alloc: Global) -> Result<Option<ByteBuffer>, ScalarError>
        ensures value { IfOk result (λ o.
            or_null (λ b. bytes_row b.bytes) o ≡ (binary_term self.now).row) }
        ensures memory { IsOkUnless result ScalarError.OutOfMemory }
    {
        self.held.fitting().buffer(alloc)
    }

    /// How many bytes there are, 0 for null.
    pub fn len(&self) -> usize
        ensures { result ≡ byte_count (binary_term self.now).row }
    {
        match self.held.fitting().bytes() {
            Some(bytes) => bytes.len(),
            None => 0,
        }
    }

    /// Whether it has no bytes or is null.
    pub fn is_empty(&self) -> bool
        ensures { result ≡ nat_eq (byte_count (binary_term self.now).row) 0 }
    {
        self.len() == 0
    }

    /// The type is a legal one of bytes, and the row fits it. It does nothing when the program
    /// runs.
    pub fn law(&self)
        ensures kind { IsTrue (is_binary (binary_term self.now).dtype) }
        ensures legal { Legal (binary_term self.now).dtype }
        ensures fits { Fits (binary_term self.now).dtype (binary_term self.now).row }
    {
        self.held.fitting().law();
    }
}
