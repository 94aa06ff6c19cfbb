//! Equality, order and hash of views of texts and bytes.

ghost use Rattle.std.specs.Ordering.{on};
ghost use Rattle.std.specs.Cmp.{partial_equiv_from_equiv, on_equiv, on_po};
ghost use Rattle.std.specs.Hash.{on_Alike};
ghost use Rattle.vortex_terms.specs.Order.{row_cmp};
ghost use Rattle.vortex_scalar.specs.Compare.{scalar_eq, scalar_cmp};
ghost use Rattle.vortex_scalar.specs.HashInput.{scalar_writes};
ghost use Rattle.vortex_scalar.specs.EqualLaws.{scalar_equivalence, scalar_order, scalar_alike};
ghost use Rattle.vortex_scalar.specs.TextViews.{utf8_term, binary_term};
ghost use Rattle.vortex_scalar.specs.TextLaws.{utf8_row, utf8_total, texts_compare, texts_equal};
ghost use Rattle.vortex_scalar.specs.TextLaws.{binary_row, binary_total, binaries_compare};
ghost use Rattle.vortex_scalar.specs.TextLaws.{binaries_equal};

use super::binary::BinaryScalar;
use super::content::compare_bytes;
use super::utf8::Utf8Scalar;
use std::cmp::Ordering;
use std::hash::{Hash, Hasher};

impl<'a> PartialEq for Utf8Scalar<'a> {
    ghost eq = { on utf8_term scalar_eq };

    ghost laws = { partial_equiv_from_equiv (on_equiv utf8_term scalar_equivalence) };

    fn eq(&self, other: &Utf8Scalar<'a>) -> bool {
        self.held.fitting().equals(&other.held.fitting())
    }
}

impl<'a> Eq for Utf8Scalar<'a> {
    ghost laws = { on_equiv utf8_term scalar_equivalence };
}

impl<'a> PartialOrd for Utf8Scalar<'a> {
    ghost partial_cmp = { on utf8_term scalar_cmp };

    ghost laws = { on_po utf8_term scalar_order };

    fn partial_cmp(&self, other: &Utf8Scalar<'a>) -> Option<Ordering> {
        self.held.fitting().compare(&other.held.fitting())
    }
}

impl<'a> Ord for Utf8Scalar<'a> {
    ghost cmp = { on utf8_row row_cmp };

    ghost total = { utf8_total };

    ghost matches_partial_cmp = { texts_compare };

    ghost matches_eq = { texts_equal };

    fn cmp(&self, other: &Utf8Scalar<'a>) -> Ordering {
        compare_bytes(self.held.fitting().bytes(), other.held.fitting().bytes())
    }
}

impl<'a> Hash for Utf8Scalar<'a> {
    ghost hash_input = { λ s. scalar_writes (utf8_term s) };

    ghost respects_eq = { (on_Alike utf8_term scalar_alike).fed };

    fn hash<H: Hasher>(&self, state: &mut H) {
        self.held.fitting().feed(state);
    }
}

impl<'a> PartialEq for BinaryScalar<'a> {
    ghost eq = { on binary_term scalar_eq };

    ghost laws = { partial_equiv_from_equiv (on_equiv binary_term scalar_equivalence) };

    fn eq(&self, other: &BinaryScalar<'a>) -> bool {
        self.held.fitting().equals(&other.held.fitting())
    }
}

impl<'a> Eq for BinaryScalar<'a> {
    ghost laws = { on_equiv binary_term scalar_equivalence };
}

impl<'a> PartialOrd for BinaryScalar<'a> {
    ghost partial_cmp = { on binary_term scalar_cmp };

    ghost laws = { on_po binary_term scalar_order };

    fn partial_cmp(&self, other: &BinaryScalar<'a>) -> Option<Ordering> {
        self.held.fitting().compare(&other.held.fitting())
    }
}

impl<'a> Ord for BinaryScalar<'a> {
    ghost cmp = { on binary_row row_cmp };

    ghost total = { binary_total };

    ghost matches_partial_cmp = { binaries_compare };

    ghost matches_eq = { binaries_equal };

    fn cmp(&self, other: &BinaryScalar<'a>) -> Ordering {
        compare_bytes(self.held.fitting().bytes(), other.held.fitting().bytes())
    }
}

impl<'a> Hash for BinaryScalar<'a> {
    ghost hash_input = { λ s. scalar_writes (binary_term s) };

    ghost respects_eq = { (on_Alike binary_term scalar_alike).fed };

    fn hash<H: Hasher>(&self, state: &mut H) {
        self.held.fitting().feed(state);
    }
}
