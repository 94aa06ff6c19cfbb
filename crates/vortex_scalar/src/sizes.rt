//! Sizes, defaults, and numbers with the same bits.

ghost use Rattle.std.specs.Prelude.{◌≡◌, IsTrue, Ok, IfOk, IsOkUnless};
ghost use Rattle.vortex_terms.specs.Default.{default_row};
ghost use Rattle.vortex_terms.specs.Row.{whole_row};
ghost use Rattle.vortex_terms.specs.Term.{primitive};
ghost use Rattle.vortex_names.specs.Nullable.{is_nullable};
ghost use Rattle.vortex_number.specs.PType.{byte_width_of};
ghost use Rattle.vortex_number.specs.WholeKind.{whole_kind};
ghost use Rattle.vortex_value.specs.PValue.{kind_of, number_of};
ghost use Rattle.vortex_types.specs.DTypes.{term_of};
ghost use Rattle.vortex_types.specs.Predicates.{is_primitive};
ghost use Rattle.vortex_scalar_text.specs.Size.{byte_size, in_usize};
ghost use Rattle.vortex_scalar.specs.Made.{typed};
ghost use Rattle.vortex_scalar.specs.Recast.{kind_in, reinterpreted};

use crate::scalar::Scalar;
use std::alloc::Global;
use vortex_names::Nullability;
use vortex_number::PType;
use vortex_scalar_text::{byte_size, default_value};
use vortex_scalar_value::ScalarError;
use vortex_types::DType;
use vortex_value::PValue;

impl Scalar {
    /// How many bytes the row takes, none where that is no `usize`. A null truth value, number or
    /// decimal takes as many as another, and a null text, list or struct none.
    pub fn nbytes(&self) -> Option<usize>
        ensures { result ≡ in_usize (byte_size self.now.dtype self.now.row) }
    {
        byte_size(self.dtype().type_ref(), self.value())
    }

    /// The default of a type: null where it is nullable. What stands in a fixed-size list is one
    /// default, shared.
    pub fn default_value(alloc: Global, dtype: DType) -> Result<Scalar, ScalarError>
        ensures scalar { let t = term_of dtype in
            IfOk result (λ s. s ≡ typed t (default_row t)) }
        ensures memory { IsOkUnless result ScalarError.OutOfMemory }
    {
        let value = default_value(alloc, dtype.type_ref())?;
        Ok(Scalar::new(dtype, value))
    }

    /// The number of another kind of the same width that has the same bits. Null stays null, and
    /// nothing is refused.
    pub fn reinterpret_cast(&self, _alloc: Global, ptype: PType) -> Result<Scalar, ScalarError>
        requires kind { IsTrue (is_primitive self.now.dtype) }
        requires width { byte_width_of ptype ≡ byte_width_of (kind_in self.now.dtype) }
        ensures { result ≡ Ok (reinterpreted ptype self.now) }
    {
        self.law();
        let nullability = self.dtype().nullability();
        match self.as_primitive().pvalue() {
            Some(value) => Ok(of_value(value.reinterpret_cast(ptype), nullability)),
            None => Ok(Scalar::null(DType::Primitive(ptype, nullability))),
        }
    }
}

/// A whole number under the type of its kind.
fn of_value(value: PValue, nullability: Nullability) -> Scalar
    ensures { let t = primitive (whole_kind (kind_of value)) (is_nullable nullability) in
        result ≡ typed t (whole_row (number_of value)) }
{
    match value {
        PValue::U8(number) => Scalar::primitive(number, nullability),
        PValue::U16(number) => Scalar::primitive(number, nullability),
        PValue::U32(number) => Scalar::primitive(number, nullability),
        PValue::U64(number) => Scalar::primitive(number, nullability),
        PValue::I8(number) => Scalar::primitive(number, nullability),
        PValue::I16(number) => Scalar::primitive(number, nullability),
        PValue::I32(number) => Scalar::primitive(number, nullability),
        PValue::I64(number) => Scalar::primitive(number, nullability),
    }
}
