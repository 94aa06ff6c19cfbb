//! Truth values, texts and bytes as rows.

ghost use Rattle.std.specs.Prelude.{◌≡◌, false, refl};
ghost use Rattle.std.specs.String.{string_bytes};
ghost use Rattle.vortex_terms.specs.Term.{utf8};
ghost use Rattle.vortex_terms.specs.Row.{truth_row, bytes_row};
ghost use Rattle.vortex_types.specs.Predicates.{is_boolean, is_utf8, is_binary};
ghost use Rattle.vortex_scalar.specs.Made.{typed};
ghost use Rattle.vortex_convert.specs.Conversions.{truth_in, text_in, bytes_in, row_in};
ghost use Rattle.vortex_convert.specs.Refused.{truth_refused, text_refused, bytes_refused};
ghost use Rattle.vortex_convert.specs.Kept.{boolean_taken, text_taken, bytes_taken};
ghost use Rattle.vortex_convert.specs.Kept.{truth_either, text_either, bytes_either};

use crate::native_scalar::NativeScalar;
use crate::plain::to_bool;
use crate::scalars::{from_bool, from_text};
use crate::texts::{to_buffer_string, to_bytes, to_text};
use std::alloc::Global;
use vortex_buffer::{BufferString, ByteBuffer};
use vortex_names::Nullability;
use vortex_scalar::{Scalar, ScalarError, ScalarValue};
use vortex_types::DType;

/// The scalar of a text, shared.
fn shared_text_scalar(text: BufferString) -> Scalar
    ensures { result ≡ typed (utf8 false) (bytes_row text.bytes) }
{
    let _ = text.as_str();
    let value = ScalarValue::from_buffer_string(text);
    Scalar::new(DType::Utf8(Nullability::NonNullable), value)
}

impl NativeScalar for bool {
    ghost row_of = { truth_row };

    ghost takes = { is_boolean };

    ghost reads = { row_in truth_row truth_in };

    fn takes(dtype: &DType) -> bool {
        dtype.is_boolean()
    }

    fn into_scalar(self, _alloc: Global) -> Result<Scalar, ScalarError> {
        Ok(from_bool(self))
    }

    fn from_scalar(_alloc: Global, scalar: &Scalar) -> Result<bool, ScalarError> {
        to_bool(scalar)
    }

    ghost refused = { truth_refused };

    ghost own_taken = { refl };

    ghost either_taken = { boolean_taken };

    ghost either = { truth_either };

    ghost kept = { λ _. refl };
}

impl NativeScalar for String {
    ghost row_of = { λ s. bytes_row (string_bytes s) };

    ghost takes = { is_utf8 };

    ghost reads = { row_in bytes_row text_in };

    fn takes(dtype: &DType) -> bool {
        dtype.is_utf8()
    }

    fn into_scalar(self, alloc: Global) -> Result<Scalar, ScalarError> {
        from_text(alloc, self.as_str())
    }

    fn from_scalar(alloc: Global, scalar: &Scalar) -> Result<String, ScalarError> {
        to_text(alloc, scalar)
    }

    ghost refused = { text_refused };

    ghost own_taken = { refl };

    ghost either_taken = { text_taken };

    ghost either = { text_either };

    ghost kept = { λ _. refl };
}

impl NativeScalar for BufferString {
    ghost row_of = { λ s. bytes_row s.bytes };

    ghost takes = { is_utf8 };

    ghost reads = { row_in bytes_row text_in };

    fn takes(dtype: &DType) -> bool {
        dtype.is_utf8()
    }

    fn into_scalar(self, _alloc: Global) -> Result<Scalar, ScalarError> {
        Ok(shared_text_scalar(self))
    }

    fn from_scalar(alloc: Global, scalar: &Scalar) -> Result<BufferString, ScalarError> {
        to_buffer_string(alloc, scalar)
    }

    ghost refused = { text_refused };

    ghost own_taken = { refl };

    ghost either_taken = { text_taken };

    ghost either = { text_either };

    ghost kept = { λ _. refl };
}

impl NativeScalar for ByteBuffer {
    ghost row_of = { λ b. bytes_row b.bytes };

    ghost takes = { is_binary };

    ghost reads = { row_in bytes_row bytes_in };

    fn takes(dtype: &DType) -> bool {
        dtype.is_binary()
    }

    fn into_scalar(self, _alloc: Global) -> Result<Scalar, ScalarError> {
        Ok(Scalar::binary(self, Nullability::NonNullable))
    }

    fn from_scalar(alloc: Global, scalar: &Scalar) -> Result<ByteBuffer, ScalarError> {
        to_bytes(alloc, scalar)
    }

    ghost refused = { bytes_refused };

    ghost own_taken = { refl };

    ghost either_taken = { bytes_taken };

    ghost either = { bytes_either };

    ghost kept = { λ _. refl };
}
