//! Worked casts.
ghost use Rattle.std.specs.Prelude.{◌≡◌, pos, neg_ℤ, true, false, Ok, Err, None, [], ◌∷◌};
ghost use Rattle.vortex_terms.specs.Term.{Term, null, boolean, primitive, decimal, utf8, binary};
ghost use Rattle.vortex_terms.specs.Term.{structure, list, extension, fixed_size_list};
ghost use Rattle.vortex_terms.specs.Term.{no_fields, field, unsigned_8, unsigned_16, unsigned_32};
ghost use Rattle.vortex_terms.specs.Term.{unsigned_64, signed_8, signed_16, signed_32, signed_64};
ghost use Rattle.vortex_terms.specs.Fits.{Fits};
ghost use Rattle.vortex_terms.specs.Row.{Row, null_row, truth_row, whole_row, bytes_row, list_row};
ghost use Rattle.vortex_terms.specs.Row.{no_rows, row};
ghost use Rattle.vortex_cast.specs.Cast.{cast_of};

use vortex_scalar_value::ScalarError;

/// Worked casts. It does nothing when the program runs.
#[tactic(auto, unfolding(vortex_arithmetic::specs::Scaled::rescaled, vortex_arithmetic::specs::Scaled::whole_of))]
pub fn casts_are_worked()
    ensures null { cast_of (boolean true) null_row (primitive unsigned_8 true) ≡ Ok null_row }
    ensures truth { cast_of (boolean true) (truth_row true) (boolean false) ≡ Ok (truth_row true) }
    ensures rounded { cast_of (decimal 3 (pos 1) false) (whole_row (pos 25))
        (primitive signed_8 false)
        ≡ Ok (whole_row (pos 2)) }
    ensures raised { cast_of (decimal 2 (neg_ℤ (pos 2)) false) (whole_row (pos 3))
        (primitive unsigned_16 false)
        ≡ Ok (whole_row (pos 300)) }
    ensures small { cast_of (decimal 76 (pos 76) false) (whole_row (pos 1))
        (primitive unsigned_8 false)
        ≡ Ok (whole_row (pos 0)) }
    ensures zero { cast_of (decimal 76 (neg_ℤ (pos 128)) false) (whole_row (pos 0))
        (primitive signed_8 false)
        ≡ Ok (whole_row (pos 0)) }
    ensures negative { cast_of (decimal 3 (pos 1) false) (whole_row (neg_ℤ (pos 5)))
        (primitive signed_8 false)
        ≡ Ok (whole_row (pos 0)) }
    ensures rescaled { cast_of (decimal 3 (pos 1) false) (whole_row (pos 25))
        (decimal 5 (pos 2) false)
        ≡ Ok (whole_row (pos 250)) }
    ensures by_position { cast_of
        (structure (field (97 ∷ []) (primitive signed_32 false)
        (field (98 ∷ []) (primitive unsigned_8 false) no_fields)) false)
        (list_row (row (whole_row (pos 1)) (row (whole_row (pos 2)) no_rows)))
        (structure (field (99 ∷ []) (primitive signed_64 false)
        (field (100 ∷ []) (primitive signed_8 true) no_fields)) true)
        ≡ Ok (list_row (row (whole_row (pos 1)) (row (whole_row (pos 2)) no_rows))) }
    ensures storage { cast_of (extension (120 ∷ []) (primitive signed_32 true) None)
        (whole_row (pos 1))
        (extension (121 ∷ []) (primitive signed_32 false) None) ≡ Ok (whole_row (pos 1)) }
{}

/// Worked refusals of casts. It does nothing when the program runs.
#[tactic(auto, unfolding(vortex_arithmetic::specs::Scaled::rescaled, vortex_arithmetic::specs::Scaled::whole_of))]
pub fn casts_are_refused()
    ensures null { cast_of null null_row (primitive unsigned_8 false) ≡ Err ScalarError.CastNull }
    ensures kind { cast_of (boolean false) (truth_row true) (primitive unsigned_8 false)
        ≡ Err ScalarError.CastKind }
    ensures range { cast_of (primitive unsigned_64 false) (whole_row (pos 18446744073709551615))
        (primitive signed_64 false)
        ≡ Err ScalarError.CastRange }
    ensures below { cast_of (decimal 3 (pos 1) false) (whole_row (neg_ℤ (pos 5)))
        (primitive unsigned_8 false)
        ≡ Err ScalarError.CastRange }
    ensures above { cast_of (decimal 4 (pos 1) false) (whole_row (pos 2559))
        (primitive unsigned_8 false)
        ≡ Err ScalarError.CastRange }
    ensures not_whole { cast_of (decimal 3 (pos 1) false) (whole_row (pos 25))
        (decimal 3 (pos 0) false)
        ≡ Err ScalarError.CastRange }
    ensures far { cast_of (decimal 76 (neg_ℤ (pos 128)) false) (whole_row (pos 1))
        (primitive signed_8 false)
        ≡ Err ScalarError.CastRange }
    ensures length { cast_of (list (primitive unsigned_8 false) false)
        (list_row (row (whole_row (pos 1)) (row (whole_row (pos 2)) no_rows)))
        (fixed_size_list (boolean false) 3 false) ≡ Err ScalarError.CastLength }
    ensures fields { cast_of
        (structure (field (97 ∷ []) (primitive signed_32 false) no_fields) false)
        (list_row (row (whole_row (pos 300)) no_rows))
        (structure (field (98 ∷ []) (primitive unsigned_8 false)
        (field (99 ∷ []) (primitive unsigned_8 false) no_fields)) false)
        ≡ Err ScalarError.CastFields }
    ensures first { cast_of (list (primitive signed_32 true) false)
        (list_row (row (whole_row (pos 300)) (row null_row no_rows)))
        (list (primitive unsigned_8 false) false) ≡ Err ScalarError.CastRange }
    ensures inside { cast_of (extension (120 ∷ []) (list (boolean true) false) None)
        (list_row (row null_row no_rows))
        (list (boolean false) false) ≡ Err ScalarError.CastNull }
    ensures extension { cast_of (extension (120 ∷ []) (boolean false) None)
        (truth_row true) (utf8 false)
        ≡ Err ScalarError.CastKind }
{}

/// Worked decimals: their digits are not counted. It does nothing when the program runs.
#[tactic(auto, unfolding(vortex_arithmetic::specs::Scaled::rescaled, vortex_arithmetic::specs::Scaled::whole_of))]
pub fn decimals_are_cast()
    ensures digits { let z = whole_row (pos 999) in
        cast_of (decimal 3 (pos 0) false) z (decimal 1 (pos 0) true) ≡ Ok z }
    ensures lower { cast_of (decimal 3 (pos 2) false) (whole_row (pos 250))
        (decimal 3 (pos 1) false)
        ≡ Ok (whole_row (pos 25)) }
    ensures ends { let t = decimal 5 (pos 1) false in let u = primitive signed_8 false in
        (cast_of t (whole_row (pos 1270)) u ≡ Ok (whole_row (pos 127)))
        × (cast_of t (whole_row (pos 1271)) u ≡ Err ScalarError.CastRange)
        × (cast_of t (whole_row (neg_ℤ (pos 1280))) u ≡ Ok (whole_row (neg_ℤ (pos 128))))
        × (cast_of t (whole_row (neg_ℤ (pos 1281))) u ≡ Err ScalarError.CastRange) }
    ensures wide { let t = decimal 38 (pos 0) false in let u = decimal 39 (pos 1) false in
        (cast_of t (whole_row (pos 17014118346046923173168730371588410572)) u
        ≡ Ok (whole_row (pos 170141183460469231731687303715884105720)))
        × (cast_of t (whole_row (pos 17014118346046923173168730371588410573)) u
        ≡ Err ScalarError.CastRange) }
{}

/// Which kinds go together: each goes to its own, and a decimal to whole numbers too. A target is
/// seen as its storage. It does nothing when the program runs.
pub fn kinds_of_casts_are_worked()
    ensures contents { let r = bytes_row (97 ∷ []) in
        (cast_of (utf8 false) r (utf8 true) ≡ Ok r)
        × (cast_of (binary true) r (binary false) ≡ Ok r)
        × (cast_of (utf8 false) r (binary false) ≡ Err ScalarError.CastKind)
        × (cast_of (binary false) r (utf8 false) ≡ Err ScalarError.CastKind) }
    ensures truths { let r = truth_row true in
        (cast_of (boolean false) r (utf8 false) ≡ Err ScalarError.CastKind)
        × (cast_of (boolean false) r (decimal 3 (pos 0) false) ≡ Err ScalarError.CastKind)
        × (cast_of null r null ≡ Err ScalarError.CastKind) }
    ensures numbers { let r = whole_row (pos 1) in let t = primitive unsigned_8 false in
        let d = decimal 3 (pos 0) false in
        (cast_of t r (boolean false) ≡ Err ScalarError.CastKind)
        × (cast_of t r d ≡ Err ScalarError.CastKind)
        × (cast_of t r (utf8 false) ≡ Err ScalarError.CastKind)
        × (cast_of t r (list t false) ≡ Err ScalarError.CastKind)
        × (cast_of d r (boolean false) ≡ Err ScalarError.CastKind)
        × (cast_of d r (binary false) ≡ Err ScalarError.CastKind) }
    ensures parts { let r = list_row (row (whole_row (pos 1)) no_rows) in
        let t = primitive unsigned_8 false in
        let s = structure (field (97 ∷ []) t no_fields) false in
        (cast_of (list t false) r s ≡ Err ScalarError.CastKind)
        × (cast_of (fixed_size_list t 1 false) r s ≡ Err ScalarError.CastKind)
        × (cast_of (list t false) r t ≡ Err ScalarError.CastKind)
        × (cast_of s r (list t false) ≡ Err ScalarError.CastKind)
        × (cast_of s r (fixed_size_list t 1 false) ≡ Err ScalarError.CastKind)
        × (cast_of s r t ≡ Err ScalarError.CastKind) }
    ensures storage { let r = whole_row (pos 1) in let t = primitive signed_32 false in
        let long = primitive signed_64 false in
        (cast_of (extension (120 ∷ []) t None) r (primitive signed_32 true) ≡ Ok r)
        × (cast_of (extension (120 ∷ []) t None) r long ≡ Err ScalarError.CastKind)
        × (cast_of (extension (120 ∷ []) t None) r (extension (120 ∷ []) long None)
        ≡ Err ScalarError.CastKind)
        × (cast_of t r (extension (120 ∷ []) long None) ≡ Ok r) }
{}

/// Null is null of every nullable type, and of no other. It does nothing when the program runs.
pub fn nulls_are_cast()
    ensures taken { (cast_of null null_row null ≡ Ok null_row)
        × (cast_of (utf8 true) null_row (boolean true) ≡ Ok null_row)
        × (cast_of (boolean true) null_row (decimal 3 (pos 0) true) ≡ Ok null_row)
        × (cast_of (primitive signed_8 true) null_row (utf8 true) ≡ Ok null_row)
        × (cast_of (decimal 3 (pos 0) true) null_row (binary true) ≡ Ok null_row)
        × (cast_of (binary true) null_row (structure no_fields true) ≡ Ok null_row)
        × (cast_of (structure no_fields true) null_row (list null true) ≡ Ok null_row)
        × (cast_of (list null true) null_row (fixed_size_list null 3 true) ≡ Ok null_row)
        × (cast_of (fixed_size_list null 3 true) null_row
        (extension (120 ∷ []) (boolean true) None) ≡ Ok null_row) }
    ensures refused { let r = null_row in
        (cast_of (boolean true) r (boolean false) ≡ Err ScalarError.CastNull)
        × (cast_of (decimal 3 (pos 0) true) r (decimal 3 (pos 0) false) ≡ Err ScalarError.CastNull)
        × (cast_of (utf8 true) r (utf8 false) ≡ Err ScalarError.CastNull)
        × (cast_of (binary true) r (binary false) ≡ Err ScalarError.CastNull)
        × (cast_of (structure no_fields true) r (structure no_fields false)
        ≡ Err ScalarError.CastNull)
        × (cast_of (list null true) r (list null false) ≡ Err ScalarError.CastNull)
        × (cast_of (fixed_size_list null 3 true) r (fixed_size_list null 3 false)
        ≡ Err ScalarError.CastNull)
        × (cast_of (extension (120 ∷ []) (boolean true) None) r
        (extension (120 ∷ []) (boolean false) None) ≡ Err ScalarError.CastNull) }
{}

/// The ends of the ranges of whole numbers. It does nothing when the program runs.
pub fn ranges_are_cast()
    ensures byte { let t = primitive signed_64 false in let u = primitive unsigned_8 true in
        (cast_of t (whole_row (pos 255)) u ≡ Ok (whole_row (pos 255)))
        × (cast_of t (whole_row (pos 256)) u ≡ Err ScalarError.CastRange)
        × (cast_of t (whole_row (neg_ℤ (pos 1))) u ≡ Err ScalarError.CastRange) }
    ensures signed_byte { let t = primitive signed_64 false in let u = primitive signed_8 true in
        (cast_of t (whole_row (pos 127)) u ≡ Ok (whole_row (pos 127)))
        × (cast_of t (whole_row (pos 128)) u ≡ Err ScalarError.CastRange)
        × (cast_of t (whole_row (neg_ℤ (pos 128))) u ≡ Ok (whole_row (neg_ℤ (pos 128))))
        × (cast_of t (whole_row (neg_ℤ (pos 129))) u ≡ Err ScalarError.CastRange) }
    ensures two_bytes { let t = primitive signed_64 false in
        (cast_of t (whole_row (pos 65535)) (primitive unsigned_16 false)
        ≡ Ok (whole_row (pos 65535)))
        × (cast_of t (whole_row (pos 65536)) (primitive unsigned_16 false)
        ≡ Err ScalarError.CastRange)
        × (cast_of t (whole_row (neg_ℤ (pos 32768))) (primitive signed_16 false)
        ≡ Ok (whole_row (neg_ℤ (pos 32768))))
        × (cast_of t (whole_row (pos 32768)) (primitive signed_16 false)
        ≡ Err ScalarError.CastRange) }
    ensures four_bytes { let t = primitive signed_64 false in
        (cast_of t (whole_row (pos 4294967295)) (primitive unsigned_32 false)
        ≡ Ok (whole_row (pos 4294967295)))
        × (cast_of t (whole_row (pos 4294967296)) (primitive unsigned_32 false)
        ≡ Err ScalarError.CastRange)
        × (cast_of t (whole_row (neg_ℤ (pos 2147483648))) (primitive signed_32 false)
        ≡ Ok (whole_row (neg_ℤ (pos 2147483648))))
        × (cast_of t (whole_row (pos 2147483648)) (primitive signed_32 false)
        ≡ Err ScalarError.CastRange) }
    ensures eight_bytes { let t = primitive unsigned_64 false in
        (cast_of t (whole_row (pos 9223372036854775807)) (primitive signed_64 false)
        ≡ Ok (whole_row (pos 9223372036854775807)))
        × (cast_of t (whole_row (pos 9223372036854775808)) (primitive signed_64 false)
        ≡ Err ScalarError.CastRange)
        × (cast_of (primitive signed_64 false) (whole_row (neg_ℤ (pos 1)))
        (primitive unsigned_64 false) ≡ Err ScalarError.CastRange) }
{}

/// Worked casts of lists and structs. It does nothing when the program runs.
pub fn parts_are_cast()
    ensures empty { let none = list_row no_rows in
        (cast_of (list (boolean false) false) none (list (utf8 false) false) ≡ Ok none)
        × (cast_of (list (boolean false) false) none (fixed_size_list (utf8 false) 0 true)
        ≡ Ok none)
        × (cast_of (list (boolean false) false) none (fixed_size_list (boolean false) 1 false)
        ≡ Err ScalarError.CastLength)
        × (cast_of (structure no_fields false) none (structure no_fields true) ≡ Ok none) }
    ensures fixed { let t = fixed_size_list (primitive signed_32 false) 2 false in
        let two = list_row (row (whole_row (pos 1)) (row (whole_row (pos 2)) no_rows)) in
        let u = primitive unsigned_8 false in
        (cast_of t two (list u true) ≡ Ok two)
        × (cast_of t two (fixed_size_list u 2 false) ≡ Ok two)
        × (cast_of t two (fixed_size_list u 1 false) ≡ Err ScalarError.CastLength)
        × (cast_of t two (fixed_size_list u 3 false) ≡ Err ScalarError.CastLength) }
    ensures fields { let t = primitive signed_32 true in let u = primitive unsigned_8 false in
        let s = structure (field (97 ∷ []) t (field (98 ∷ []) t no_fields)) false in
        let two = structure (field (97 ∷ []) u (field (98 ∷ []) u no_fields)) false in
        let one = whole_row (pos 1) in let large = whole_row (pos 300) in
        (cast_of s (list_row (row one (row large no_rows))) two ≡ Err ScalarError.CastRange)
        × (cast_of s (list_row (row one (row null_row no_rows))) two ≡ Err ScalarError.CastNull)
        × (cast_of s (list_row (row large (row null_row no_rows))) two ≡ Err ScalarError.CastRange)
        × (cast_of s (list_row (row null_row (row large no_rows))) two ≡ Err ScalarError.CastNull)
        × (cast_of s (list_row (row one (row one no_rows)))
        (structure (field (97 ∷ []) u no_fields) false) ≡ Err ScalarError.CastFields)
        × (cast_of s (list_row (row one (row one no_rows))) (structure no_fields false)
        ≡ Err ScalarError.CastFields) }
    ensures last { let t = list (primitive signed_32 false) false in
        cast_of t (list_row (row (whole_row (pos 1)) (row (whole_row (pos 300)) no_rows)))
        (list (primitive unsigned_8 false) false) ≡ Err ScalarError.CastRange }
{}

/// What a row is cast to fits the target. It does nothing when the program runs.
pub fn casts_fit()
    ensures { (t u : Term) (r s : Row) → Fits t r → cast_of t r u ≡ Ok s → Fits u s }
{}
