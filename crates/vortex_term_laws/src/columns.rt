//! Laws of the columns inside a column, where rows are selected.

ghost use Rattle.std.specs.Prelude.{◌≡◌, ℕ, Bool, List, Option, filter, flat_map, map, take};
ghost use Rattle.vortex_terms.specs.Term.{Fields, Term, extension, structure};
ghost use Rattle.vortex_terms.specs.Parts.{column, parts};
ghost use Rattle.vortex_terms.specs.Row.{Row};
ghost use Rattle.vortex_term_laws.specs.Kept.{elements_kept, in_each, kept};

/// Where rows of a struct or an extension are kept, each column inside keeps the rows at their
/// places.
pub fn columns_of_kept_rows()
    ensures test { (p : Row → Bool) (rs : List Row) → filter p rs ≡ kept (map p rs) rs }
    ensures column { (t : Term) (i : ℕ) (mask : List Bool) (rs : List Row)
        → column t i (kept mask rs) ≡ kept mask (column t i rs) }
    ensures structs { (fs : Fields) (n : Bool) (mask : List Bool) (rs : List Row)
        → parts (structure fs n) (kept mask rs) ≡ in_each (kept mask) (parts (structure fs n) rs) }
    ensures extensions { (id : List ℕ) (t : Term) (m : Option (List ℕ)) (mask : List Bool)
        (rs : List Row)
        → parts (extension id t m) (kept mask rs) ≡ in_each (kept mask) (parts (extension id t m) rs) }
{}

/// The same where the first rows are taken.
pub fn columns_of_first_rows()
    ensures structs { (fs : Fields) (b : Bool) (n : ℕ) (rs : List Row)
        → parts (structure fs b) (take n rs) ≡ in_each (take n) (parts (structure fs b) rs) }
    ensures extensions { (id : List ℕ) (t : Term) (m : Option (List ℕ)) (n : ℕ) (rs : List Row)
        → parts (extension id t m) (take n rs) ≡ in_each (take n) (parts (extension id t m) rs) }
{}

/// Where rows of a list are kept, the joined elements keep those of the kept rows; `inside` are the
/// elements of a row.
pub fn elements_of_kept_rows()
    ensures { (inside : Row → List Row) (mask : List Bool) (rs : List Row)
        → flat_map inside (kept mask rs) ≡ kept (elements_kept inside mask rs) (flat_map inside rs) }
{}
