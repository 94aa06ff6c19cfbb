//! Laws of the columns inside a column.

ghost use Rattle.std.specs.List.{list_any};
ghost use Rattle.std.specs.Prelude.{◌≡◌, ◌<◌, ◌↔◌, ◌||◌, ◌++◌, ◌∷◌, ◌+◌, ◌*◌, [], ℕ, if◌then◌else◌, All, Bool, IsTrue, List, Some, filter, flat_map, length, map, option_map, slice_get, slice_range, suc, sum_by, take};
ghost use Rattle.vortex_terms.specs.Term.{Fields, Term, WholeKind, binary, fixed_size_list, primitive, structure, utf8};
ghost use Rattle.vortex_terms.specs.Types.{field_at, part_types};
ghost use Rattle.vortex_terms.specs.Row.{Row, bytes_row, copies};
ghost use Rattle.vortex_terms.specs.Fits.{Fits};
ghost use Rattle.vortex_terms.specs.Default.{default_row};
ghost use Rattle.vortex_terms.specs.Parts.{byte_count, column, fixed_inner_rows, inner_rows, is_large, parts, parts_append, passes, size_of};
ghost use Rattle.vortex_terms.specs.Distinct.{distinct};
ghost use Rattle.vortex_terms.specs.PartLaws.{AllFit};
ghost use Rattle.vortex_terms.specs.FromColumns.{AreLong, Rises, last_from, list_rows, masked, pieces, struct_rows, zip_map};

/// The columns directly inside a column have the types directly inside its type, and their rows fit
/// these.
pub fn parts_fit()
    ensures types { (t : Term) (rs : List Row) → map (λ p. p.0) (parts t rs) ≡ part_types t }
    ensures rows { (t : Term) (rs : List Row) → All (Fits t) rs
        → All (λ p. All (Fits p.0) p.1) (parts t rs) }
    ensures field { (fs : Fields) (n : Bool) (i : ℕ) (rs : List Row)
        → slice_get (parts (structure fs n) rs) i
        ≡ option_map (λ t. (t, column t i rs)) (field_at fs i) }
{}

/// The columns inside rows behind others are those of both, one behind the other; the first rows
/// have the first elements, and rows that are kept have theirs.
pub fn parts_go_with_their_rows()
    ensures behind { (t : Term) (rs ss : List Row)
        → parts t (rs ++ ss) ≡ parts_append (parts t rs) (parts t ss) }
    ensures first { (t : Term) (i n : ℕ) (rs : List Row)
        → column t i (take n rs) ≡ take n (column t i rs) }
    ensures first_elements { (f : Row → List Row) (n : ℕ) (rs : List Row)
        → flat_map f (take n rs) ≡ take (sum_by (λ r. length (f r)) (take n rs)) (flat_map f rs) }
    ensures kept_elements { (f : Row → List Row) (p : Row → Bool) (rs : List Row)
        → flat_map f (filter p rs) ≡ flat_map (λ r. if p r then f r else []) rs }
{}

/// The columns inside rows that were made from columns are those columns, with a default below a
/// struct that became null, and with nothing below such a list.
pub fn columns_are_found_again()
    ensures fields { (t : Term) (i n : ℕ) (columns : List (List Row)) (c : List Row)
        → AreLong n columns → slice_get columns i ≡ Some c
        → column t i (struct_rows n columns) ≡ c }
    ensures null_fields { (t : Term) (i : ℕ) (valid : List Bool) (rs : List Row)
        → column t i (masked (Some valid) rs)
        ≡ zip_map (λ b r. if b then r else default_row t) valid (column t i rs) }
    ensures elements { (offsets : List ℕ) (elements : List Row)
        → flat_map inner_rows (list_rows offsets elements)
        ≡ flat_map (λ rs. rs) (pieces offsets elements) }
    ensures null_elements { (valid : List Bool) (rs : List Row)
        → flat_map inner_rows (masked (Some valid) rs)
        ≡ flat_map (λ p. p) (zip_map (λ b r. if b then inner_rows r else []) valid rs) }
    ensures no_gap { (a : ℕ) (offsets : List ℕ) (rs : List Row) → Rises a offsets
        → flat_map (λ p. p) (pieces (a ∷ offsets) rs) ≡ slice_range rs a (last_from a offsets) }
{}

/// A column passes the size rule's limit exactly where it is too large itself or one directly
/// inside it passes.
pub fn passes_by_parts()
    ensures { (t : Term) (rs : List Row)
        → passes t rs ≡ is_large t rs || list_any (λ p. passes p.0 p.1) (parts t rs) }
{}

/// Which columns pass is told by counts.
pub fn passes_by_counts()
    ensures many { (t : Term) (rs : List Row) → 268435455 < length rs → IsTrue (passes t rs) }
    ensures numbers { (w : WholeKind) (n : Bool) (rs : List Row)
        → IsTrue (passes (primitive w n) rs) ↔ (4294967295 < 16 * length rs) }
    ensures texts { (n : Bool) (rs : List Row)
        → IsTrue (passes (utf8 n) rs)
        ↔ (4294967295 < 16 * length rs + sum_by byte_count (distinct rs)) }
    ensures bytes { (n : Bool) (rs : List Row)
        → IsTrue (passes (binary n) rs)
        ↔ (4294967295 < 16 * length rs + sum_by byte_count (distinct rs)) }
    ensures fixed_lists { (w : WholeKind) (k : ℕ) (m n : Bool) (rs : List Row)
        → AllFit (fixed_size_list (primitive w m) k n) rs → 0 < k
        → IsTrue (passes (fixed_size_list (primitive w m) k n) rs)
        ↔ (4294967295 < 16 * (length rs * k)) }
    ensures elements { (t : Term) (k : ℕ) (n : Bool) (rs : List Row)
        → AllFit (fixed_size_list t k n) rs
        → length (flat_map (fixed_inner_rows t k) rs) ≡ length rs * k }
    ensures equal_texts { (n : ℕ) (bs : List ℕ) (m : Bool)
        → size_of (utf8 m) (copies (suc n) (bytes_row bs)) ≡ 16 * suc n + length bs }
{}
