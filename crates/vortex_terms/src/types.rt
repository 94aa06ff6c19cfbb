//! Laws of types.

ghost use Rattle.std.specs.Prelude.{◌≡◌, ◌<◌, ◌≤◌, ◌↔◌, ◌||◌, ℕ, ℤ, All, Bool, IsFalse, IsTrue, List, Option, Some, map, true};
ghost use Rattle.vortex_terms.specs.Term.{Fields, Term, WholeKind, decimal, extension, fixed_size_list, primitive, structure};
ghost use Rattle.vortex_terms.specs.Types.{Bounded, IsBytes, IsDecimal, Legal, LegalFields, Same, bare, is_within, levels, names_of, nodes, nullable, part_at, part_types, text_length, type_number};
ghost use Rattle.vortex_terms.specs.Row.{Row};
ghost use Rattle.vortex_terms.specs.Fits.{Fits, InRange};
ghost use Rattle.vortex_terms.specs.Path.{PathPart, path_part_eq};
ghost use Rattle.vortex_terms.specs.Equality.{fields_eq, is_same, kind_eq, term_eq};
ghost use Rattle.vortex_terms.specs.Nullability.{eq_with_nullability_subset, eq_with_nullability_superset, union_nullability, with_nullability};
ghost use Rattle.vortex_terms.specs.Weight.{weight};
ghost use Rattle.vortex_terms.specs.Tests.{are_bytes, are_legal, is_bounded, is_decimal, is_fitting, is_in_range, is_legal};

/// The tests of equality are true exactly at equality.
pub fn equality_is_exact()
    ensures kinds { (k l : WholeKind) → IsTrue (kind_eq k l) ↔ (k ≡ l) }
    ensures terms { (t u : Term) → IsTrue (term_eq t u) ↔ (t ≡ u) }
    ensures fields { (fs gs : Fields) → IsTrue (fields_eq fs gs) ↔ (fs ≡ gs) }
    ensures same { (t u : Term) → IsTrue (is_same t u) ↔ Same t u }
    ensures steps { (a b : PathPart) → IsTrue (path_part_eq a b) ↔ (a ≡ b) }
{}

/// To be the same apart from nullability is an equivalence.
pub fn same_is_an_equivalence()
    ensures reflexive { (t : Term) → Same t t }
    ensures symmetric { (t u : Term) → Same t u → Same u t }
    ensures transitive { (t u v : Term) → Same t u → Same u v → Same t v }
{}

/// Types that are the same apart from nullability are of one kind and have the same parts, numbers,
/// names and bytes.
pub fn same_types_differ_in_flags_alone()
    ensures bare { (t : Term) → Same (bare t) t }
    ensures flag { (t : Term) (m : Bool) → Same (with_nullability t m) t }
    ensures number { (t u : Term) → Same t u → type_number t ≡ type_number u }
    ensures parts { (t u : Term) → Same t u → map bare (part_types t) ≡ map bare (part_types u) }
    ensures kinds { (k l : WholeKind) (m n : Bool) → Same (primitive k m) (primitive l n) → k ≡ l }
    ensures decimals { (p q : ℕ) (s r : ℤ) (m n : Bool) → Same (decimal p s m) (decimal q r n)
        → (p ≡ q) × (s ≡ r) }
    ensures names { (fs gs : Fields) (m n : Bool) → Same (structure fs m) (structure gs n)
        → names_of fs ≡ names_of gs }
    ensures ids { (x y : List ℕ) (t u : Term) (m n : Option (List ℕ))
        → Same (extension x t m) (extension y u n) → (x ≡ y) × (m ≡ n) }
    ensures sizes { (t u : Term) (k l : ℕ) (m n : Bool)
        → Same (fixed_size_list t k m) (fixed_size_list u l n) → k ≡ l }
{}

/// A type directly inside another has fewer nodes, fewer levels and no more text, is lighter, and
/// is legal and bounded where that is.
pub fn parts_are_smaller()
    ensures fewer_nodes { (t : Term) → All (λ u. nodes u < nodes t) (part_types t) }
    ensures fewer_levels { (t : Term) → All (λ u. levels u < levels t) (part_types t) }
    ensures no_more_text { (t : Term) → All (λ u. text_length u ≤ text_length t) (part_types t) }
    ensures lighter { (t : Term) → All (λ u. weight u < weight t) (part_types t) }
    ensures legal { (t : Term) → Legal t → All Legal (part_types t) }
    ensures bounded { (t : Term) → Bounded t → All Bounded (part_types t) }
    ensures at_a_place { (t : Term) (i : ℕ) (u : Term) → Bounded t → part_at t i ≡ Some u
        → Bounded u × (levels u < levels t) }
{}

/// A legal type is bounded exactly where it is within the limits.
pub fn limits_are_exact()
    ensures { (t : Term) → Legal t → IsTrue (is_within t) ↔ Bounded t }
{}

/// What is legal, bounded or fitting is so exactly where the test of it says so.
pub fn tests_are_exact()
    ensures decimals { (p : ℕ) (s : ℤ) → IsTrue (is_decimal p s) ↔ IsDecimal p s }
    ensures bytes { (bs : List ℕ) → IsTrue (are_bytes bs) ↔ IsBytes bs }
    ensures legal { (t : Term) → IsTrue (is_legal t) ↔ Legal t }
    ensures legal_fields { (fs : Fields) → IsTrue (are_legal fs) ↔ LegalFields fs }
    ensures bounded { (t : Term) → IsTrue (is_bounded t) ↔ Bounded t }
    ensures ranges { (k : WholeKind) (z : ℤ) → IsTrue (is_in_range k z) ↔ InRange k z }
    ensures fitting { (t : Term) (r : Row) → IsTrue (is_fitting t r) ↔ Fits t r }
{}

/// A type gets the flag that it is given, and changes in nothing else.
pub fn flags_are_changed()
    ensures own { (t : Term) → with_nullability t (nullable t) ≡ t }
    ensures last { (t : Term) (a b : Bool)
        → with_nullability (with_nullability t a) b ≡ with_nullability t b }
    ensures set { (t : Term) → IsTrue (nullable (with_nullability t true)) }
    ensures given { (t : Term) (m : Bool) → IsFalse (nullable t)
        → nullable (with_nullability t m) ≡ m }
    ensures union { (t : Term) (m : Bool) → nullable (union_nullability t m) ≡ (nullable t || m) }
    ensures legal { (t : Term) (m : Bool) → Legal t → Legal (with_nullability t m) }
    ensures bounded { (t : Term) (m : Bool) → Bounded t → Bounded (with_nullability t m) }
{}

/// Equality with a subset or a superset of the flags is equality, or equality apart from
/// nullability, as the first type may be null.
pub fn flags_are_compared()
    ensures subset_nullable { (t u : Term) → IsTrue (nullable t)
        → IsTrue (eq_with_nullability_subset t u) ↔ (t ≡ u) }
    ensures subset { (t u : Term) → IsFalse (nullable t)
        → IsTrue (eq_with_nullability_subset t u) ↔ Same t u }
    ensures superset_nullable { (t u : Term) → IsTrue (nullable t)
        → IsTrue (eq_with_nullability_superset t u) ↔ Same t u }
    ensures superset { (t u : Term) → IsFalse (nullable t)
        → IsTrue (eq_with_nullability_superset t u) ↔ (t ≡ u) }
{}
