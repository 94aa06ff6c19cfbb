//! Laws of arithmetic and of bounds. Each is a function that does nothing when the program runs.

ghost use Rattle.std.specs.Prelude.{◌≡◌, ℕ, ◌∷◌, [], Some, None, IsTrue, pos, neg_ℤ, true, false};
ghost use Rattle.std.specs.Prelude.{Ok, Err};
ghost use Rattle.vortex_bounds.specs.Bytes.{byte_lower_bound, byte_upper_bound};
ghost use Rattle.vortex_bounds.specs.Texts.{text_lower_bound, text_upper_bound};
ghost use Rattle.vortex_value.specs.declared.numeric_operator.NumericOperator.TheVariants as op;
ghost use Rattle.vortex_number.specs.declared.ptype.PType.TheVariants as kind;
ghost use Rattle.vortex_terms.specs.Term.{Term, primitive, utf8, binary, extension};
ghost use Rattle.vortex_terms.specs.Term.{unsigned_8, unsigned_64, signed_8, signed_16, signed_64};
ghost use Rattle.vortex_terms.specs.Row.{null_row, whole_row, bytes_row};
ghost use Rattle.vortex_terms.specs.Fits.{Fits};
ghost use Rattle.vortex_types.specs.Predicates.{is_utf8};
ghost use Rattle.vortex_scalar.specs.ScalarTerm.{ScalarTerm};
ghost use Rattle.vortex_scalar.specs.Made.{typed};
ghost use Rattle.vortex_scalar.specs.Arithmetic.{combined};
ghost use Rattle.vortex_scalar.specs.Cast.{cast_scalar};
ghost use Rattle.vortex_scalar.specs.Recast.{reinterpreted};
ghost use Rattle.vortex_scalar.specs.Bounds.{lower_scalar, upper_scalar};
ghost use Rattle.vortex_scalar.specs.Bounds.{IsLowerBound, IsUpperBound};

use vortex_bounds::{bounds_of_bytes, bounds_of_texts};
use vortex_scalar_value::ScalarError;

/// The bounds of scalars of texts and of bytes are of their type, lie below and above them, and are
/// no longer than they may be.
pub fn bounds_of_scalars()
    ensures lower_text { (n : ℕ) (s : ScalarTerm) → IsTrue (is_utf8 s.dtype) → Fits s.dtype s.row
        → IsLowerBound n s (lower_scalar (text_lower_bound n) s) }
    ensures upper_text { (n : ℕ) (s b : ScalarTerm) → IsTrue (is_utf8 s.dtype)
        → Fits s.dtype s.row → upper_scalar (text_upper_bound n) s ≡ Some b
        → IsUpperBound n s b }
    ensures lower_bytes { (n : ℕ) (s : ScalarTerm)
        → IsLowerBound n s (lower_scalar (byte_lower_bound n) s) }
    ensures upper_bytes { (n : ℕ) (s b : ScalarTerm) → upper_scalar (byte_upper_bound n) s ≡ Some b
        → IsUpperBound n s b }
{
    bounds_of_texts();
    bounds_of_bytes();
}

/// Worked results of operators on scalars.
pub fn arithmetic_is_worked()
    ensures sum { combined op.Add (typed (primitive signed_8 false) (whole_row (pos 1)))
        (typed (primitive signed_8 true) (whole_row (pos 2)))
        ≡ Some (typed (primitive signed_8 true) (whole_row (pos 3))) }
    ensures null_right { combined op.Add (typed (primitive signed_8 false) (whole_row (pos 1)))
        (typed (primitive signed_8 true) null_row)
        ≡ Some (typed (primitive signed_8 true) null_row) }
    ensures null_left { combined op.Div (typed (primitive signed_8 true) null_row)
        (typed (primitive signed_8 false) (whole_row (pos 0)))
        ≡ Some (typed (primitive signed_8 true) null_row) }
    ensures outside { combined op.Div
        (typed (primitive signed_8 true) (whole_row (neg_ℤ (pos 128))))
        (typed (primitive signed_8 false) (whole_row (neg_ℤ (pos 1)))) ≡ None }
    ensures no_divisor { combined op.Div (typed (primitive signed_8 false) (whole_row (pos 7)))
        (typed (primitive signed_8 false) (whole_row (pos 0))) ≡ None }
    ensures quotient { combined op.Div (typed (primitive signed_8 false) (whole_row (pos 7)))
        (typed (primitive signed_8 false) (whole_row (neg_ℤ (pos 2))))
        ≡ Some (typed (primitive signed_8 false) (whole_row (neg_ℤ (pos 3)))) }
    ensures turned { combined op.RSub (typed (primitive signed_8 false) (whole_row (pos 7)))
        (typed (primitive signed_8 false) (whole_row (pos 9)))
        ≡ Some (typed (primitive signed_8 false) (whole_row (pos 2))) }
    ensures two_nulls { let s = typed (primitive signed_8 true) null_row in
        (combined op.Add s s ≡ Some s) × (combined op.Div s s ≡ Some s) }
    ensures difference { combined op.Sub (typed (primitive signed_8 true) (whole_row (pos 7)))
        (typed (primitive signed_8 false) (whole_row (pos 9)))
        ≡ Some (typed (primitive signed_8 true) (whole_row (neg_ℤ (pos 2)))) }
    ensures product { let s = typed (primitive unsigned_8 false) (whole_row (pos 17)) in
        (combined op.Mul s (typed (primitive unsigned_8 false) (whole_row (pos 15)))
        ≡ Some (typed (primitive unsigned_8 false) (whole_row (pos 255))))
        × (combined op.Mul s (typed (primitive unsigned_8 false) (whole_row (pos 16))) ≡ None) }
    ensures turned_quotient { combined op.RDiv
        (typed (primitive signed_8 false) (whole_row (pos 2)))
        (typed (primitive signed_8 false) (whole_row (pos 7)))
        ≡ Some (typed (primitive signed_8 false) (whole_row (pos 3))) }
    ensures no_numbers { let s = typed (utf8 true) null_row in combined op.Add s s ≡ None }
{}

/// Worked numbers of another kind with the same bits: the flag stays, and so does null.
pub fn recasts_are_worked()
    ensures below { reinterpreted kind.I8 (typed (primitive unsigned_8 false) (whole_row (pos 255)))
        ≡ typed (primitive signed_8 false) (whole_row (neg_ℤ (pos 1))) }
    ensures above { reinterpreted kind.U64
        (typed (primitive signed_64 true) (whole_row (neg_ℤ (pos 1))))
        ≡ typed (primitive unsigned_64 true) (whole_row (pos 18446744073709551615)) }
    ensures same { reinterpreted kind.U8 (typed (primitive signed_8 true) (whole_row (pos 127)))
        ≡ typed (primitive unsigned_8 true) (whole_row (pos 127)) }
    ensures null { reinterpreted kind.I8 (typed (primitive unsigned_8 true) null_row)
        ≡ typed (primitive signed_8 true) null_row }
{}

/// Worked casts of scalars: the type is the target itself, also where it is an extension.
pub fn casts_of_scalars_are_worked()
    ensures target { cast_scalar (typed (primitive signed_8 false) (whole_row (pos 1)))
        (primitive signed_16 true)
        ≡ Ok (typed (primitive signed_16 true) (whole_row (pos 1))) }
    ensures extension { let u = extension (120 ∷ []) (primitive signed_16 true) None in
        (cast_scalar (typed (primitive signed_8 false) (whole_row (pos 1))) u
        ≡ Ok (typed u (whole_row (pos 1))))
        × (cast_scalar (typed (utf8 true) null_row) u ≡ Ok (typed u null_row)) }
    ensures refused { cast_scalar (typed (primitive signed_16 true) (whole_row (neg_ℤ (pos 1))))
        (primitive unsigned_8 true) ≡ Err ScalarError.CastRange }
{}

/// What a scalar is cast to is of the target, and fits it.
pub fn casts_of_scalars_fit()
    ensures { (s r : ScalarTerm) (u : Term) → Fits s.dtype s.row → cast_scalar s u ≡ Ok r
        → (r.dtype ≡ u) × Fits r.dtype r.row }
{}

/// Worked bounds of scalars.
#[tactic(auto, unfolding(vortex_bounds::specs::Bytes::raised_bytes))]
pub fn scalar_bounds_are_worked()
    ensures null_text { upper_scalar (text_upper_bound 1) (typed (utf8 true) null_row)
        ≡ Some (typed (utf8 true) null_row) }
    ensures later { upper_scalar (byte_upper_bound 3)
        (typed (binary false) (bytes_row (1 ∷ 255 ∷ 255 ∷ 5 ∷ [])))
        ≡ Some (typed (binary false) (bytes_row (2 ∷ 0 ∷ 0 ∷ []))) }
    ensures full { upper_scalar (byte_upper_bound 2)
        (typed (binary false) (bytes_row (255 ∷ 255 ∷ 255 ∷ []))) ≡ None }
    ensures front { lower_scalar (byte_lower_bound 2)
        (typed (binary true) (bytes_row (97 ∷ 98 ∷ 99 ∷ [])))
        ≡ typed (binary true) (bytes_row (97 ∷ 98 ∷ [])) }
    ensures short { upper_scalar (byte_upper_bound 3)
        (typed (binary true) (bytes_row (255 ∷ 255 ∷ [])))
        ≡ Some (typed (binary true) (bytes_row (255 ∷ 255 ∷ []))) }
    ensures raised { upper_scalar (byte_upper_bound 2)
        (typed (binary false) (bytes_row (1 ∷ 2 ∷ 3 ∷ [])))
        ≡ Some (typed (binary false) (bytes_row (1 ∷ 3 ∷ []))) }
    ensures own { let s = typed (binary false) (bytes_row (1 ∷ 2 ∷ [])) in
        (upper_scalar (byte_upper_bound 2) s ≡ Some s) × (lower_scalar (byte_lower_bound 2) s ≡ s) }
    ensures null_bytes { let s = typed (binary true) null_row in
        (upper_scalar (byte_upper_bound 0) s ≡ Some s) × (lower_scalar (byte_lower_bound 0) s ≡ s) }
{}

/// Worked bounds of scalars of texts: no character is cut.
pub fn text_bounds_are_worked()
    ensures front { let s = typed (utf8 true) (bytes_row (97 ∷ 195 ∷ 169 ∷ 195 ∷ 169 ∷ [])) in
        (lower_scalar (text_lower_bound 4) s
        ≡ typed (utf8 true) (bytes_row (97 ∷ 195 ∷ 169 ∷ [])))
        × (lower_scalar (text_lower_bound 2) s ≡ typed (utf8 true) (bytes_row (97 ∷ [])))
        × (lower_scalar (text_lower_bound 5) s ≡ s) }
    ensures raised { let s = typed (utf8 false) (bytes_row (97 ∷ 195 ∷ 169 ∷ 98 ∷ [])) in
        (upper_scalar (text_upper_bound 3) s
        ≡ Some (typed (utf8 false) (bytes_row (97 ∷ 195 ∷ 170 ∷ []))))
        × (upper_scalar (text_upper_bound 2) s ≡ Some (typed (utf8 false) (bytes_row (98 ∷ []))))
        × (upper_scalar (text_upper_bound 4) s ≡ Some s)
        × (upper_scalar (text_upper_bound 0) s ≡ None) }
    ensures null { lower_scalar (text_lower_bound 0) (typed (utf8 true) null_row)
        ≡ typed (utf8 true) null_row }
{}
