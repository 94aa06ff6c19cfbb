//! Equality, order and hash of scalars.

ghost use Rattle.std.specs.Prelude.{◌≡◌, IsTrue, fold};
ghost use Rattle.std.specs.Option.{IsSome};
ghost use Rattle.std.specs.Cmp.{partial_equiv_from_equiv};
ghost use Rattle.vortex_terms.specs.Equality.{is_same};
ghost use Rattle.vortex_terms.specs.Order.{row_cmp};
ghost use Rattle.vortex_types.specs.DTypes.{term_of};
ghost use Rattle.vortex_value_rows.specs.RowOf.{fitting_row};
ghost use Rattle.vortex_scalar.specs.Made.{scalar_of};
ghost use Rattle.vortex_scalar.specs.Compare.{scalar_eq, scalar_cmp};
ghost use Rattle.vortex_scalar.specs.HashInput.{scalar_writes};
ghost use Rattle.vortex_scalar.specs.EqualLaws.{scalar_equivalence, scalar_order, scalar_alike};

use crate::scalar::Scalar;
use std::cmp::Ordering;
use std::hash::{Hash, Hasher};
use vortex_scalar_value::ScalarValue;
use vortex_types::DType;
use vortex_value_rows::{compare, hash_row};

impl PartialEq for Scalar {
    ghost eq = { scalar_eq };

    ghost laws = { partial_equiv_from_equiv scalar_equivalence };

    /// Whether the types are the same apart from nullability, and the rows are equal.
    fn eq(&self, other: &Scalar) -> bool {
        let (t, a) = self.parts();
        let (u, b) = other.parts();
        equal_values(t, a, u, b)
    }
}

impl Eq for Scalar {
    ghost laws = { scalar_equivalence };
}

impl PartialOrd for Scalar {
    ghost partial_cmp = { scalar_cmp };

    ghost laws = { scalar_order };

    /// The order of the rows, where the types are the same apart from nullability.
    fn partial_cmp(&self, other: &Scalar) -> Option<Ordering> {
        let (t, a) = self.parts();
        let (u, b) = other.parts();
        compare_values(t, a, u, b)
    }
}

impl Hash for Scalar {
    ghost hash_input = { scalar_writes };

    ghost respects_eq = { scalar_alike.fed };

    fn hash<H: Hasher>(&self, state: &mut H) {
        let (dtype, value) = self.parts();
        hash_value(dtype, value, state);
    }
}

/// Whether the scalars of these types and values are equal.
pub(crate) fn equal_values(t: &DType, a: &ScalarValue, u: &DType, b: &ScalarValue) -> bool
    requires left { IsSome (fitting_row (term_of t.now) a.now) }
    requires right { IsSome (fitting_row (term_of u.now) b.now) }
    ensures { let other = scalar_of (term_of u.now) b.now in
        result ≡ scalar_eq (scalar_of (term_of t.now) a.now) other }
{
    t.eq_ignore_nullability(u) && compare_same(t, a, u, b).is_eq()
}

/// How the scalars of these types and values compare.
pub(crate) fn compare_values(
    t: &DType,
    a: &ScalarValue,
    u: &DType,
    b: &ScalarValue,
) -> Option<Ordering>
    requires left { IsSome (fitting_row (term_of t.now) a.now) }
    requires right { IsSome (fitting_row (term_of u.now) b.now) }
    ensures { let other = scalar_of (term_of u.now) b.now in
        result ≡ scalar_cmp (scalar_of (term_of t.now) a.now) other }
{
    if t.eq_ignore_nullability(u) {
        Some(compare_same(t, a, u, b))
    } else {
        None
    }
}

/// How the rows of values compare under types that are the same apart from nullability.
fn compare_same(t: &DType, a: &ScalarValue, u: &DType, b: &ScalarValue) -> Ordering
    requires left { IsSome (fitting_row (term_of t.now) a.now) }
    requires right { IsSome (fitting_row (term_of u.now) b.now) }
    requires same { IsTrue (is_same (term_of t.now) (term_of u.now)) }
    ensures { let other = scalar_of (term_of u.now) b.now in
        result ≡ row_cmp (scalar_of (term_of t.now) a.now).row other.row }
{
    compare(t.type_ref(), a, b)
}

/// Feeds the scalar of this type and value.
pub(crate) fn hash_value<H: Hasher>(dtype: &DType, value: &ScalarValue, state: &mut H)
    requires { IsSome (fitting_row (term_of dtype.now) value.now) }
    ensures { let s = scalar_of (term_of dtype.now) value.now in
        state.new ≡ fold H.write state.old (scalar_writes s) }
{
    dtype.type_ref().kind().hash(state);
    hash_row(dtype.type_ref(), value, state);
}
