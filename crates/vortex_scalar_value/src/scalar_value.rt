//! Values of scalars without their types.

ghost use Rattle.std.specs.Prelude.{◌≡◌, pos, IfOk, IsOkUnless};
ghost use Rattle.vortex_terms.specs.Term.{unsigned_64};
ghost use Rattle.vortex_number.specs.WholeKind.{whole_kind};
ghost use Rattle.vortex_value.specs.PValue.{kind_of, number_of};
ghost use Rattle.vortex_value.specs.DecimalValue.{width_of, decimal_number};
ghost use Rattle.vortex_scalar_value.specs.Kinds.{ref_value};
ghost use Rattle.vortex_scalar_value.specs.Value.{null_value, truth_value, whole_value};
ghost use Rattle.vortex_scalar_value.specs.Value.{decimal_value, bytes_value, text_value};
ghost use Rattle.vortex_scalar_value.specs.Value.{list_value, values_from, is_null_value};

use crate::error::ScalarError;
use crate::value_ref::ValueRef;
use std::alloc::Global;
use std::marker::Model;
use std::rc::Rc;
use vortex_buffer::{BufferString, ByteBuffer};
use vortex_value::{DecimalValue, PValue};

/// A value without its type. Lists, bytes and texts are shared.
///
/// Contracts see it as a `ValueTerm`.
#[cycle(values)]
#[derive(Drop)]
pub struct ScalarValue {
    inner: InnerScalarValue,
}

/// How a value is kept.
#[cycle(values)]
#[derive(Drop)]
pub(crate) enum InnerScalarValue {
    Null,
    Bool(bool),
    Primitive(PValue),
    Decimal(DecimalValue),
    Buffer(ByteBuffer),
    BufferString(BufferString),
    List(Rc<Vec<ScalarValue>>),
}

impl Model for ScalarValue {
    ghost use Rattle.vortex_scalar_value.specs.Value.{ValueTerm};
    ghost use Rattle.vortex_scalar_value.specs.ValueCode.{coded_value};

    ghost Value = { ValueTerm };

    ghost coded = { coded_value };

    ghost use Rattle.vortex_scalar_value.specs.ValueWeight.{value_weight};
    ghost use Rattle.vortex_scalar_value.specs.Kinds.{value_of};

    ghost view = { λ v. value_of v.inner };

    ghost size = { value_weight };

    ghost use Rattle.vortex_scalar_value.specs.Falls.{inner_falls};

    ghost size_decreases = { λ v h. inner_falls v.inner };
}

impl ScalarValue {
    /// Null.
    pub fn null() -> ScalarValue
        ensures { result ≡ null_value }
    {
        ScalarValue {
            inner: InnerScalarValue::Null,
        }
    }

    /// Whether it is null.
    pub fn is_null(&self) -> bool
        ensures { result ≡ is_null_value self.now }
    {
        matches!(self.inner, InnerScalarValue::Null)
    }

    /// A truth value.
    pub fn from_bool(value: bool) -> ScalarValue
        ensures { result ≡ truth_value value }
    {
        ScalarValue {
            inner: InnerScalarValue::Bool(value),
        }
    }

    /// A whole number.
    pub fn from_pvalue(value: PValue) -> ScalarValue
        ensures { result ≡ whole_value (whole_kind (kind_of value)) (number_of value) }
    {
        ScalarValue {
            inner: InnerScalarValue::Primitive(value),
        }
    }

    /// A decimal.
    pub fn from_decimal(value: DecimalValue) -> ScalarValue
        ensures { result ≡ decimal_value (width_of value) (decimal_number value) }
    {
        ScalarValue {
            inner: InnerScalarValue::Decimal(value),
        }
    }

    /// A length, as a number of 64 bits.
    pub fn from_usize(value: usize) -> ScalarValue
        ensures { result ≡ whole_value unsigned_64 (pos value) }
    {
        ScalarValue::from_pvalue(PValue::U64(value as u64))
    }

    /// Bytes, copied.
    pub fn from_bytes(alloc: Global, bytes: &[u8]) -> Result<ScalarValue, ScalarError>
        ensures value { IfOk result (λ v. v ≡ bytes_value bytes.now) }
        ensures memory { IsOkUnless result ScalarError.OutOfMemory }
    {
        match ByteBuffer::from_slice(alloc, bytes) {
            Ok(buffer) => Ok(ScalarValue::from_buffer(buffer)),
            Err(_) => Err(ScalarError::OutOfMemory),
        }
    }

    /// A text, copied.
    pub fn from_text(alloc: Global, text: &str) -> Result<ScalarValue, ScalarError>
        ensures value { IfOk result (λ v. v ≡ text_value text.now) }
        ensures memory { IsOkUnless result ScalarError.OutOfMemory }
    {
        match BufferString::from_text(alloc, text) {
            Ok(text) => Ok(ScalarValue::from_buffer_string(text)),
            Err(_) => Err(ScalarError::OutOfMemory),
        }
    }

    /// Bytes, shared. Contracts see no alignment.
    pub fn from_buffer(buffer: ByteBuffer) -> ScalarValue
        ensures { result ≡ bytes_value buffer.bytes }
    {
        ScalarValue {
            inner: InnerScalarValue::Buffer(buffer),
        }
    }

    /// A text, shared. Contracts see no alignment.
    pub fn from_buffer_string(text: BufferString) -> ScalarValue
        ensures { result ≡ text_value text.bytes }
    {
        ScalarValue {
            inner: InnerScalarValue::BufferString(text),
        }
    }

    /// A list, or the fields of a struct in order.
    pub fn from_list(alloc: Global, values: Vec<ScalarValue>) -> Result<ScalarValue, ScalarError>
        ensures value { IfOk result (λ v. v ≡ list_value (values_from values.items)) }
        ensures memory { IsOkUnless result ScalarError.OutOfMemory }
    {
        let values = Rc::new(alloc, values)?;
        Ok(ScalarValue {
            inner: InnerScalarValue::List(values),
        })
    }

    /// The same value, shared.
    pub fn try_clone(&self, alloc: Global) -> Result<ScalarValue, ScalarError>
        ensures value { IfOk result (λ v. v ≡ self.now) }
        ensures memory { IsOkUnless result ScalarError.OutOfMemory }
    {
        let inner = match &self.inner {
            InnerScalarValue::Null => InnerScalarValue::Null,
            InnerScalarValue::Bool(value) => InnerScalarValue::Bool(*value),
            InnerScalarValue::Primitive(value) => InnerScalarValue::Primitive(*value),
            InnerScalarValue::Decimal(value) => InnerScalarValue::Decimal(*value),
            InnerScalarValue::Buffer(buffer) => match buffer.try_clone(alloc) {
                Ok(buffer) => InnerScalarValue::Buffer(buffer),
                Err(_) => return Err(ScalarError::OutOfMemory),
            },
            InnerScalarValue::BufferString(text) => match text.try_clone(alloc) {
                Ok(text) => InnerScalarValue::BufferString(text),
                Err(_) => return Err(ScalarError::OutOfMemory),
            },
            InnerScalarValue::List(values) => InnerScalarValue::List(values.clone()?),
        };
        Ok(ScalarValue { inner })
    }

    /// The value taken apart.
    pub fn value_ref(&self) -> ValueRef<'_>
        ensures { ref_value result ≡ self.now }
    {
        match &self.inner {
            InnerScalarValue::Null => ValueRef::Null,
            InnerScalarValue::Bool(value) => ValueRef::Bool(*value),
            InnerScalarValue::Primitive(value) => ValueRef::Primitive(*value),
            InnerScalarValue::Decimal(value) => ValueRef::Decimal(*value),
            InnerScalarValue::Buffer(buffer) => ValueRef::Buffer(buffer),
            InnerScalarValue::BufferString(text) => ValueRef::BufferString(text),
            InnerScalarValue::List(values) => ValueRef::List(values.as_slice()),
        }
    }
}
