//! Scalars that are made of scalars.

ghost use Rattle.std.specs.Prelude.{◌≡◌, ◌<◌, ◌^◌, IsTrue, IfOk, IsOkUnless, length, map, true};
ghost use Rattle.std.specs.List.{All};
ghost use Rattle.vortex_terms.specs.Term.{list, fixed_size_list};
ghost use Rattle.vortex_terms.specs.Types.{types_of};
ghost use Rattle.vortex_terms.specs.Row.{list_row, no_rows};
ghost use Rattle.vortex_terms.specs.Nullability.{with_nullability};
ghost use Rattle.vortex_names.specs.Nullable.{is_nullable as is_null};
ghost use Rattle.vortex_types.specs.DTypes.{term_of};
ghost use Rattle.vortex_types.specs.ExtTerm.{ext_type};
ghost use Rattle.vortex_types.specs.Accessors.{fields_of};
ghost use Rattle.vortex_types.specs.Predicates.{is_struct};
ghost use Rattle.vortex_scalar.specs.Made.{typed, rows_inside};
ghost use Rattle.vortex_scalar.specs.inner.Kept.{IsListOf};

use crate::scalar::Scalar;
use std::alloc::Global;
use std::rc::Rc;
use vortex_names::Nullability;
use vortex_scalar_value::{ScalarError, ScalarValue};
use vortex_types::{DType, Element, ExtDType};

impl Scalar {
    /// A list of these elements, each of the element type.
    pub fn list(
        alloc: Global,
        element: DType,
        children: Vec<Scalar>,
        nullability: Nullability,
    ) -> Result<Scalar, ScalarError>
        requires types { All (λ s. s.dtype ≡ term_of element) children.items }
        requires count { length children.items < 2 ^ 32 }
        ensures scalar { let t = list (term_of element) (is_null nullability) in
            IfOk result (λ s. s ≡ typed t (list_row (rows_inside children.items))) }
        ensures memory { IsOkUnless result ScalarError.OutOfMemory }
    {
        let value = list_value(alloc, children)?;
        let dtype = match DType::list(alloc, element, nullability) {
            Ok(dtype) => dtype,
            Err(_) => return Err(ScalarError::OutOfMemory),
        };
        Ok(Scalar::new(dtype, value))
    }

    /// The list of no elements.
    pub fn list_empty(
        alloc: Global,
        element: DType,
        nullability: Nullability,
    ) -> Result<Scalar, ScalarError>
        ensures scalar { let t = list (term_of element) (is_null nullability) in
            IfOk result (λ s. s ≡ typed t (list_row no_rows)) }
        ensures memory { IsOkUnless result ScalarError.OutOfMemory }
    {
        Scalar::list(alloc, element, Vec::new(alloc), nullability)
    }

    /// A list of as many elements as its type says, each of the element type.
    pub fn fixed_size_list(
        alloc: Global,
        element: DType,
        children: Vec<Scalar>,
        nullability: Nullability,
    ) -> Result<Scalar, ScalarError>
        requires types { All (λ s. s.dtype ≡ term_of element) children.items }
        requires count { length children.items < 2 ^ 32 }
        ensures scalar { let k = length children.items in
            let t = fixed_size_list (term_of element) k (is_null nullability) in
            IfOk result (λ s. s ≡ typed t (list_row (rows_inside children.items))) }
        ensures memory { IsOkUnless result ScalarError.OutOfMemory }
    {
        let size = children.len() as u32;
        let value = list_value(alloc, children)?;
        let element = match Element::new(alloc, element) {
            Ok(element) => element,
            Err(_) => return Err(ScalarError::OutOfMemory),
        };
        Ok(Scalar::new(DType::FixedSizeList(element, size, nullability), value))
    }

    /// A struct of these values, each of its field's type.
    pub fn struct_(
        alloc: Global,
        dtype: DType,
        children: Vec<Scalar>,
    ) -> Result<Scalar, ScalarError>
        requires fields { IsTrue (is_struct (term_of dtype)) }
        requires types { map (λ s. s.dtype) children.items ≡ types_of (fields_of (term_of dtype)) }
        requires count { length children.items < 2 ^ 32 }
        ensures scalar { let t = term_of dtype in
            IfOk result (λ s. s ≡ typed t (list_row (rows_inside children.items))) }
        ensures memory { IsOkUnless result ScalarError.OutOfMemory }
    {
        let value = list_value(alloc, children)?;
        Ok(Scalar::new(dtype, value))
    }

    /// A scalar of an extension type, stored as this one.
    pub fn extension(alloc: Global, ext: ExtDType, scalar: Scalar) -> Result<Scalar, ScalarError>
        requires { scalar.dtype ≡ ext.storage }
        ensures scalar { IfOk result (λ s. s ≡ typed (ext_type ext) scalar.row) }
        ensures memory { IsOkUnless result ScalarError.OutOfMemory }
    {
        scalar.law();
        let value = scalar.into_value();
        let ext = Rc::new(alloc, ext)?;
        Ok(Scalar::new(DType::Extension(ext), value))
    }

    /// The same row under the nullable type.
    pub fn into_nullable(self, alloc: Global) -> Result<Scalar, ScalarError>
        ensures scalar { let t = with_nullability self.dtype true in
            IfOk result (λ s. s ≡ typed t self.row) }
        ensures memory { IsOkUnless result ScalarError.OutOfMemory }
    {
        self.law();
        let (dtype, value) = self.into_parts();
        let dtype = match dtype.as_nullable(alloc) {
            Ok(dtype) => dtype,
            Err(_) => return Err(ScalarError::OutOfMemory),
        };
        Ok(Scalar::new(dtype, value))
    }
}

/// A list of the values of scalars.
fn list_value(alloc: Global, children: Vec<Scalar>) -> Result<ScalarValue, ScalarError>
    ensures kept { IfOk result (IsListOf children.items) }
    ensures memory { IsOkUnless result ScalarError.OutOfMemory }
{
    let mut values = Vec::new(alloc);
    for child in children {
        child.law();
        values.push(child.into_value())?;
    }
    ScalarValue::from_list(alloc, values)
}
