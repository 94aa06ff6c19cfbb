//! Laws of paths.

ghost use Rattle.std.specs.Option.{unwrap_or};
ghost use Rattle.std.specs.Prelude.{◌≡◌, ◌⊎◌, ◌++◌, ◌∷◌, [], ℕ, Bool, IsTrue, List, None, Option, Some, map, option_and_then, option_map};
ghost use Rattle.vortex_terms.specs.Term.{Fields, Term, extension, field, fixed_size_list, list, structure};
ghost use Rattle.vortex_terms.specs.Types.{Bounded, field_named, place_of, storage_of};
ghost use Rattle.vortex_terms.specs.Row.{Row, Rows, list_row, null_row, row, row_at};
ghost use Rattle.vortex_terms.specs.Fits.{Fits};
ghost use Rattle.vortex_terms.specs.Path.{PathPart, by_name, element, is_never_null, resolved, target, value_at};

/// A step leads to the first field of a name or to an element, and not through an extension; a path
/// leads on from where the path before it led, and names alone lead to the target.
pub fn paths_resolve()
    ensures fields { (fs : Fields) (n : Bool) (x : List ℕ)
        → resolved (structure fs n) (by_name x ∷ []) ≡ field_named fs x }
    ensures elements { (t : Term) (n : Bool) → resolved (list t n) (element ∷ []) ≡ Some t }
    ensures fixed_elements { (t : Term) (k : ℕ) (n : Bool)
        → resolved (fixed_size_list t k n) (element ∷ []) ≡ Some t }
    ensures extensions { (id : List ℕ) (t : Term) (m : Option (List ℕ)) (part : PathPart) (path :
        List PathPart)
        → resolved (extension id t m) (part ∷ path) ≡ None }
    ensures on { (t : Term) (path more : List PathPart)
        → resolved t (path ++ more) ≡ option_and_then (λ u. resolved u more) (resolved t path) }
    ensures bounded { (t : Term) (path : List PathPart) (u : Term) → Bounded t
        → resolved t path ≡ Some u → Bounded u }
    ensures names { (t : Term) (xs : List (List ℕ))
        → target t (map by_name xs) ≡ option_map storage_of (resolved t (map by_name xs)) }
{}

/// A path finds null in a null, and in a row that fits a type it finds null or a row that fits the
/// path's target, and not null where no struct on the way may be null.
pub fn paths_find_fitting_rows()
    ensures in_null { (t : Term) (path : List PathPart) → value_at t null_row path ≡ null_row }
    ensures in_fitting { (t u : Term) (r : Row) (path : List PathPart) → target t path ≡ Some u
        → Fits t r → (value_at t r path ≡ null_row) ⊎ Fits u (value_at t r path) }
    ensures in_present { (t u : Term) (r : Row) (path : List PathPart)
        → IsTrue (is_never_null t path) → target t path ≡ Some u → Fits t r
        → Fits u (value_at t r path) }
{}

/// One name leads to the type and the row of the first field of that name, and to nothing where
/// there is none.
pub fn names_find_the_first_field()
    ensures target { (fs : Fields) (n : Bool) (x : List ℕ)
        → target (structure fs n) (by_name x ∷ []) ≡ option_map storage_of (field_named fs x) }
    ensures row { (fs : Fields) (n : Bool) (x : List ℕ) (rs : Rows) (i : ℕ)
        → place_of fs x ≡ Some i
        → value_at (structure fs n) (list_row rs) (by_name x ∷ [])
        ≡ unwrap_or (row_at rs i) null_row }
    ensures missing { (fs : Fields) (n : Bool) (x : List ℕ) (rs : Rows) → place_of fs x ≡ None
        → value_at (structure fs n) (list_row rs) (by_name x ∷ []) ≡ null_row }
    ensures first_target { (x : List ℕ) (t : Term) (fs : Fields) (n : Bool)
        → target (structure (field x t fs) n) (by_name x ∷ []) ≡ Some (storage_of t) }
    ensures first_row { (x : List ℕ) (t : Term) (fs : Fields) (n : Bool) (r : Row) (rs : Rows)
        → value_at (structure (field x t fs) n) (list_row (row r rs)) (by_name x ∷ []) ≡ r }
{}
