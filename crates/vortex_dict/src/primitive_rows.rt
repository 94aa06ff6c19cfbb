//! Rows of whole numbers in slices.

ghost use Rattle.std.specs.Prelude.{◌≡◌, ◌-◌, ◌<◌, ◌↔◌, length, slice_get, Some, IsSome, IfSome};
ghost use Rattle.std.specs.Prelude.{IsTrue};
ghost use Rattle.std.specs.Option.{option_map};
ghost use Rattle.vortex_dict.specs.Slices.{value_at, value_rows, is_valid, AreValueRows};

use crate::bytes_rows::is_valid;
use crate::native_value::NativeValue;
use std::marker::Model;

/// Rows of values of a type, which are null where the list of validity says so.
#[derive(Drop)]
pub struct PrimitiveRows<'a, T: NativeValue> {
    values: &'a [T],
    valid: Option<&'a [bool]>,
}

impl<'a, T: NativeValue> Model for PrimitiveRows<'a, T> {
    ghost use Rattle.std.specs.Prelude.{List, Option};
    ghost use Rattle.std.specs.Option.{option_map};

    ghost Value = { List (Option T) };

    ghost use Rattle.vortex_dict.specs.Slices.{value_rows, AreValueRows};

    ghost view = { λ r. value_rows r.values.now (option_map (λ v. v.now) r.valid) };

    ghost invariant = { λ r. AreValueRows r.values.now (option_map (λ v. v.now) r.valid) };
}

/// The row at a place.
#[inline(always)]
fn row_at<T: NativeValue>(values: &[T], valid: Option<&[bool]>, i: usize) -> Option<T>
    requires { i < length values.now }
    ensures { result ≡ value_at values.now (option_map (λ v. v.now) valid.entry) i }
{
    if is_valid(valid, i) {
        values.get(i).copied()
    } else {
        None
    }
}

impl<'a, T: NativeValue> PrimitiveRows<'a, T> {
    /// The rows, where as many are valid or not as there are values.
    pub fn try_new(values: &'a [T], valid: Option<&'a [bool]>) -> Option<PrimitiveRows<'a, T>>
        ensures rows { IfSome result (λ r. r ≡ value_rows values.now
            (option_map (λ v. v.now) valid.entry)) }
        ensures exact { IsSome result ↔ AreValueRows values.now
            (option_map (λ v. v.now) valid.entry) }
    {
        let counted = match valid {
            None => true,
            Some(valid) => valid.len() == values.len(),
        };
        if counted {
            Some(PrimitiveRows { values, valid })
        } else {
            None
        }
    }

    pub fn len(&self) -> usize
        ensures { result ≡ length self.now }
    {
        self.values.len()
    }

    pub fn is_empty(&self) -> bool
        ensures { IsTrue result ↔ (length self.now ≡ 0) }
    {
        self.len() == 0
    }

    /// The row at a place, nothing where it is null.
    #[inline(always)]
    pub fn get(&self, i: usize) -> Option<T>
        requires { i < length self.now }
        ensures { slice_get self.now i ≡ Some result }
    {
        row_at(self.values, self.valid, i)
    }
}
