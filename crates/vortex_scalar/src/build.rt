//! Scalars of one value.

ghost use Rattle.std.specs.Prelude.{◌≡◌, IsTrue, IfOk, IsOkUnless};
ghost use Rattle.vortex_terms.specs.Term.{boolean, primitive, decimal, utf8, binary};
ghost use Rattle.vortex_terms.specs.Types.{IsBytes, nullable};
ghost use Rattle.vortex_terms.specs.Row.{null_row, truth_row, whole_row, bytes_row};
ghost use Rattle.vortex_terms.specs.Fits.{InRange};
ghost use Rattle.vortex_names.specs.Nullable.{is_nullable as is_null};
ghost use Rattle.vortex_number.specs.WholeKind.{whole_kind};
ghost use Rattle.vortex_types.specs.DTypes.{term_of};
ghost use Rattle.vortex_value.specs.PValue.{number_of};
ghost use Rattle.vortex_value.specs.DecimalValue.{decimal_number};
ghost use Rattle.vortex_scalar.specs.Answers.{Answers};
ghost use Rattle.vortex_scalar.specs.Made.{typed, text_scalar};

use crate::scalar::Scalar;
use std::alloc::Global;
use std::str;
use vortex_buffer::ByteBuffer;
use vortex_names::{DecimalDType, Nullability};
use vortex_number::PType;
use vortex_scalar_value::{ScalarError, ScalarValue};
use vortex_types::DType;
use vortex_value::{DecimalValue, NativePType, PValue};

impl Scalar {
    /// Null of a nullable type.
    pub fn null(dtype: DType) -> Scalar
        requires { IsTrue (nullable (term_of dtype)) }
        ensures { result ≡ typed (term_of dtype) null_row }
    {
        Scalar::new(dtype, ScalarValue::null())
    }

    /// A truth value.
    pub fn bool(value: bool, nullability: Nullability) -> Scalar
        ensures { result ≡ typed (boolean (is_null nullability)) (truth_row value) }
    {
        Scalar::new(DType::Bool(nullability), ScalarValue::from_bool(value))
    }

    /// A whole number of a native type.
    pub fn primitive<T: NativePType>(value: T, nullability: Nullability) -> Scalar
        ensures { let t = primitive (whole_kind T.PTYPE) (is_null nullability) in
            result ≡ typed t (whole_row (T.number value)) }
    {
        let _number = value.to_i128();
        let dtype = DType::Primitive(T::PTYPE, nullability);
        Scalar::new(dtype, ScalarValue::from_pvalue(value.to_pvalue()))
    }

    /// A whole number in the range of a kind.
    pub fn primitive_value(value: PValue, ptype: PType, nullability: Nullability) -> Scalar
        requires { InRange (whole_kind ptype) (number_of value) }
        ensures { let t = primitive (whole_kind ptype) (is_null nullability) in
            result ≡ typed t (whole_row (number_of value)) }
    {
        let dtype = DType::Primitive(ptype, nullability);
        Scalar::new(dtype, ScalarValue::from_pvalue(value))
    }

    /// A decimal of this precision and scale. Its digits are not counted.
    pub fn decimal(
        value: DecimalValue,
        decimal_dtype: DecimalDType,
        nullability: Nullability,
    ) -> Scalar
        ensures { let t = decimal decimal_dtype.precision decimal_dtype.scale (is_null nullability) in
            result ≡ typed t (whole_row (decimal_number value)) }
    {
        let _number = value.as_i128();
        let dtype = DType::Decimal(decimal_dtype, nullability);
        Scalar::new(dtype, ScalarValue::from_decimal(value))
    }

    /// A text, copied.
    pub fn utf8(alloc: Global, text: &str, nullability: Nullability) -> Result<Scalar, ScalarError>
        ensures scalar { let t = utf8 (is_null nullability) in
            IfOk result (λ s. s ≡ typed t (bytes_row text.now)) }
        ensures memory { IsOkUnless result ScalarError.OutOfMemory }
    {
        let value = ScalarValue::from_text(alloc, text)?;
        Ok(Scalar::new(DType::Utf8(nullability), value))
    }

    /// A text of these bytes, copied. Bytes that are no UTF-8 are a WrongType.
    pub fn try_utf8(
        alloc: Global,
        bytes: &[u8],
        nullability: Nullability,
    ) -> Result<Scalar, ScalarError>
        ensures { Answers (λ s. s) result (text_scalar (is_null nullability) bytes.now) }
    {
        match str::from_utf8(bytes) {
            Ok(text) => Scalar::utf8(alloc, text, nullability),
            Err(_) => Err(ScalarError::WrongType),
        }
    }

    /// Bytes, shared.
    pub fn binary(buffer: ByteBuffer, nullability: Nullability) -> Scalar
        ensures { result ≡ typed (binary (is_null nullability)) (bytes_row buffer.bytes) }
    {
        bytes_law(buffer.as_slice());
        let dtype = DType::Binary(nullability);
        Scalar::new(dtype, ScalarValue::from_buffer(buffer))
    }
}

/// Each byte is below 256. It does nothing when the program runs.
pub(crate) fn bytes_law(bytes: &[u8])
    ensures { IsBytes bytes.now }
{}
