//! Lists of scalars.

ghost use Rattle.std.specs.Prelude.{◌≡◌, false, refl, map, IfOk, IsOkUnless};
ghost use Rattle.std.specs.Option.{option_map};
ghost use Rattle.vortex_terms.specs.Term.{list};
ghost use Rattle.vortex_scalar.specs.Answers.{Answers};
ghost use Rattle.vortex_scalar.specs.LargeViews.{is_any_list};
ghost use Rattle.vortex_scalar.specs.Made.{typed};
ghost use Rattle.vortex_convert.specs.Conversions.{each, list_in, list_of, not_null, row_in};
ghost use Rattle.vortex_convert.specs.Refused.{elements_refused};
ghost use Rattle.vortex_convert.specs.Kept.{list_taken, list_either, list_kept};

use crate::native_scalar::NativeScalar;
use std::alloc::Global;
use vortex_names::Nullability;
use vortex_scalar::{Scalar, ScalarError};
use vortex_types::DType;

/// The values of the elements of a scalar of List or FixedSizeList. Another type is a WrongType,
/// null is IsNull, and else the first refusal of an element stands.
pub fn to_list<T: NativeScalar>(alloc: Global, scalar: &Scalar) -> Result<Vec<T>, ScalarError>
    ensures { Answers (λ v. map T.row_of v.items) result (not_null (list_in T.reads scalar.now)) }
{
    match to_list_opt::<T>(alloc, scalar)? {
        Some(values) => Ok(values),
        None => Err(ScalarError::IsNull),
    }
}

/// The values of the elements of a scalar of List or FixedSizeList, none for null. Another type
/// is a WrongType, and else the first refusal of an element stands.
pub fn to_list_opt<T: NativeScalar>(
    alloc: Global,
    scalar: &Scalar,
) -> Result<Option<Vec<T>>, ScalarError>
    ensures { Answers (option_map (λ v. map T.row_of v.items)) result
        (list_in T.reads scalar.now) }
{
    let list = match scalar.as_list_opt() {
        Some(list) => list,
        None => return Err(ScalarError::WrongType),
    };
    match list.elements(alloc)? {
        Some(elements) => Ok(Some(read_each(alloc, elements.as_slice())?)),
        None => Ok(None),
    }
}

/// The values of scalars, in order, or the first refusal.
fn read_each<T: NativeScalar>(alloc: Global, scalars: &[Scalar]) -> Result<Vec<T>, ScalarError>
    ensures { Answers (λ v. map T.row_of v.items) result (each T.reads scalars.now) }
{
    let mut values = Vec::new(alloc);
    for scalar in scalars {
        values.push(T::from_scalar(alloc, scalar)?)?;
    }
    Ok(values)
}

/// The scalar of a list of values, a List of the type of `T`. More than `u32::MAX` values are
/// answered by OutOfMemory.
pub fn from_vec<T: NativeScalar>(alloc: Global, values: Vec<T>) -> Result<Scalar, ScalarError>
    ensures scalar { IfOk result (λ s.
        s ≡ typed (list T.term false) (list_of (map T.row_of values.items))) }
    ensures memory { IsOkUnless result ScalarError.OutOfMemory }
{
    if values.len() > u32::MAX as usize {
        return Err(ScalarError::OutOfMemory);
    }
    let element = T::dtype(alloc)?;
    let scalars = each_scalar(alloc, values)?;
    Scalar::list(alloc, element, scalars, Nullability::NonNullable)
}

/// The scalars of values, in order.
fn each_scalar<T: NativeScalar>(alloc: Global, values: Vec<T>) -> Result<Vec<Scalar>, ScalarError>
    ensures scalars { IfOk result (λ v.
        v.items ≡ map (λ x. typed T.term (T.row_of x)) values.items) }
    ensures memory { IsOkUnless result ScalarError.OutOfMemory }
{
    let mut scalars = Vec::new(alloc);
    for value in values {
        scalars.push(value.into_scalar(alloc)?)?;
    }
    Ok(scalars)
}

impl<T: NativeScalar> NativeScalar for Vec<T> {
    ghost row_of = { λ v. list_of (map T.row_of v.items) };

    ghost takes = { is_any_list };

    ghost reads = { row_in list_of (list_in T.reads) };

    fn takes(dtype: &DType) -> bool {
        matches!(dtype, DType::List(_, _) | DType::FixedSizeList(_, _, _))
    }

    fn into_scalar(self, alloc: Global) -> Result<Scalar, ScalarError> {
        from_vec(alloc, self)
    }

    fn from_scalar(alloc: Global, scalar: &Scalar) -> Result<Vec<T>, ScalarError> {
        to_list(alloc, scalar)
    }

    ghost refused = { elements_refused T.reads };

    ghost own_taken = { refl };

    ghost either_taken = { list_taken };

    ghost either = { list_either T.reads };

    ghost kept = { λ v. list_kept T.reads T.term T.row_of T.kept v.items };
}
