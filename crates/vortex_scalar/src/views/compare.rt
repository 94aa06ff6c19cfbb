//! Equality, order and hash of views.

ghost use Rattle.std.specs.Ordering.{on};
ghost use Rattle.std.specs.Cmp.{partial_equiv_from_equiv, on_equiv, on_po};
ghost use Rattle.std.specs.Hash.{on_Alike};
ghost use Rattle.vortex_terms.specs.Order.{row_cmp};
ghost use Rattle.vortex_scalar.specs.Compare.{scalar_eq, scalar_cmp};
ghost use Rattle.vortex_scalar.specs.BoolLaws.{bool_row, bool_total, bools_compare, bools_equal};
ghost use Rattle.vortex_scalar.specs.HashInput.{scalar_writes};
ghost use Rattle.vortex_scalar.specs.EqualLaws.{scalar_equivalence, scalar_order, scalar_alike};
ghost use Rattle.vortex_scalar.specs.Views.{bool_term, primitive_term, decimal_term};

use super::bool::BoolScalar;
use super::decimal::DecimalScalar;
use super::numbers::{compare_numbers, equal_numbers, hash_number};
use super::primitive::PrimitiveScalar;
use super::truths::{compare_truths, hash_truth};
use std::cmp::Ordering;
use std::hash::{Hash, Hasher};

impl<'a> PartialEq for BoolScalar<'a> {
    ghost eq = { on bool_term scalar_eq };

    ghost laws = { partial_equiv_from_equiv (on_equiv bool_term scalar_equivalence) };

    fn eq(&self, other: &BoolScalar<'a>) -> bool {
        self.cmp(other).is_eq()
    }
}

impl<'a> Eq for BoolScalar<'a> {
    ghost laws = { on_equiv bool_term scalar_equivalence };
}

impl<'a> PartialOrd for BoolScalar<'a> {
    ghost partial_cmp = { on bool_term scalar_cmp };

    ghost laws = { on_po bool_term scalar_order };

    fn partial_cmp(&self, other: &BoolScalar<'a>) -> Option<Ordering> {
        Some(self.cmp(other))
    }
}

impl<'a> Ord for BoolScalar<'a> {
    ghost cmp = { on bool_row row_cmp };

    ghost total = { bool_total };

    ghost matches_partial_cmp = { bools_compare };

    ghost matches_eq = { bools_equal };

    fn cmp(&self, other: &BoolScalar<'a>) -> Ordering {
        compare_truths(self.value(), other.value())
    }
}

impl<'a> Hash for BoolScalar<'a> {
    ghost hash_input = { λ s. scalar_writes (bool_term s) };

    ghost respects_eq = { (on_Alike bool_term scalar_alike).fed };

    fn hash<H: Hasher>(&self, state: &mut H) {
        self.dtype().type_ref().kind().hash(state);
        hash_truth(self.value(), state);
    }
}

impl<'a> PartialEq for PrimitiveScalar<'a> {
    ghost eq = { on primitive_term scalar_eq };

    ghost laws = { partial_equiv_from_equiv (on_equiv primitive_term scalar_equivalence) };

    fn eq(&self, other: &PrimitiveScalar<'a>) -> bool {
        self.dtype().eq_ignore_nullability(other.dtype())
            && equal_numbers(self.number(), other.number())
    }
}

impl<'a> Eq for PrimitiveScalar<'a> {
    ghost laws = { on_equiv primitive_term scalar_equivalence };
}

impl<'a> PartialOrd for PrimitiveScalar<'a> {
    ghost partial_cmp = { on primitive_term scalar_cmp };

    ghost laws = { on_po primitive_term scalar_order };

    fn partial_cmp(&self, other: &PrimitiveScalar<'a>) -> Option<Ordering> {
        if !self.dtype().eq_ignore_nullability(other.dtype()) {
            return None;
        }
        Some(compare_numbers(self.number(), other.number()))
    }
}

impl<'a> Hash for PrimitiveScalar<'a> {
    ghost hash_input = { λ s. scalar_writes (primitive_term s) };

    ghost respects_eq = { (on_Alike primitive_term scalar_alike).fed };

    fn hash<H: Hasher>(&self, state: &mut H) {
        self.dtype().type_ref().kind().hash(state);
        hash_number(self.number(), state);
    }
}

impl<'a> PartialEq for DecimalScalar<'a> {
    ghost eq = { on decimal_term scalar_eq };

    ghost laws = { partial_equiv_from_equiv (on_equiv decimal_term scalar_equivalence) };

    fn eq(&self, other: &DecimalScalar<'a>) -> bool {
        self.dtype().eq_ignore_nullability(other.dtype())
            && equal_numbers(self.number(), other.number())
    }
}

impl<'a> Eq for DecimalScalar<'a> {
    ghost laws = { on_equiv decimal_term scalar_equivalence };
}

impl<'a> PartialOrd for DecimalScalar<'a> {
    ghost partial_cmp = { on decimal_term scalar_cmp };

    ghost laws = { on_po decimal_term scalar_order };

    fn partial_cmp(&self, other: &DecimalScalar<'a>) -> Option<Ordering> {
        if !self.dtype().eq_ignore_nullability(other.dtype()) {
            return None;
        }
        Some(compare_numbers(self.number(), other.number()))
    }
}

impl<'a> Hash for DecimalScalar<'a> {
    ghost hash_input = { λ s. scalar_writes (decimal_term s) };

    ghost respects_eq = { (on_Alike decimal_term scalar_alike).fed };

    fn hash<H: Hasher>(&self, state: &mut H) {
        self.dtype().type_ref().kind().hash(state);
        hash_number(self.number(), state);
    }
}
