//! Worked rows that no small program can run: what the definitions say of them is proved.

ghost use Rattle.std.specs.Prelude.{◌≡◌, ◌∷◌, [], ◌*◌, ◌<◌, ◌≤◌, ℕ, Bool, List, true, false, length, replicate, IsTrue, IsFalse, ◌↔◌, IsUtf8};
ghost use Rattle.vortex_terms.specs.Term.{WholeKind, Term, null, primitive, utf8, fixed_size_list, list, structure, Fields, field, no_fields};
ghost use Rattle.vortex_terms.specs.Types.{LegalFields, Bounded, fields_levels, fields_nodes, fields_text_length};
ghost use Rattle.vortex_terms.specs.Row.{Row, null_row, bytes_row, list_row, no_rows, row, copies};
ghost use Rattle.vortex_terms.specs.Default.{default_row};
ghost use Rattle.vortex_terms.specs.Parts.{parts, passes};

/// A null row over a list of k whole numbers counts k rows: so 268,435,456 pass the limit, and 268,435,455 do not.
pub fn null_over_a_fixed_size()
    ensures rows { (k : ℕ) (w : WholeKind)
        → parts (fixed_size_list (primitive w false) k true) (null_row ∷ [])
        ≡ (primitive w false, replicate k (default_row (primitive w false))) ∷ [] }
    ensures limit { (k : ℕ) (w : WholeKind)
        → IsTrue (passes (fixed_size_list (primitive w false) k true) (null_row ∷ []))
        ↔ (4294967295 < 16 * k) }
{}

/// A null struct gives each field its default, and a null list gives its elements nothing.
pub fn null_over_parts()
    ensures fields { (x y : List ℕ) (t u : Term)
        → parts (structure (field x t (field y u no_fields)) true) (null_row ∷ [])
        ≡ (t, default_row t ∷ []) ∷ (u, default_row u ∷ []) ∷ [] }
    ensures elements { (t : Term) (r : Row)
        → parts (list t true) (null_row ∷ list_row (row r no_rows) ∷ []) ≡ (t, r ∷ []) ∷ [] }
{}

/// The edges of the size rule: 268,435,456 rows pass and one fewer do not, whether they are numbers
/// or the elements of a null; one text of 4,294,967,280 bytes passes and one of a byte less does not.
pub fn edges_of_sizes()
    ensures numbers { (w : WholeKind) (n : Bool) (r : Row)
        → IsTrue (passes (primitive w n) (copies 268435456 r)) }
    ensures fewer_numbers { (w : WholeKind) (n : Bool) (r : Row)
        → IsFalse (passes (primitive w n) (copies 268435455 r)) }
    ensures text { (n : Bool) (bs : List ℕ) → length bs ≡ 4294967280
        → IsTrue (passes (utf8 n) (bytes_row bs ∷ [])) }
    ensures shorter_text { (n : Bool) (bs : List ℕ) → length bs ≡ 4294967279
        → IsFalse (passes (utf8 n) (bytes_row bs ∷ [])) }
    ensures elements { (w : WholeKind)
        → IsTrue (passes (fixed_size_list (primitive w false) 268435456 true) (null_row ∷ [])) }
    ensures fewer_elements { (w : WholeKind)
        → IsFalse (passes (fixed_size_list (primitive w false) 268435455 true) (null_row ∷ [])) }
{}

/// The edges of the limits: a name of 67,108,864 bytes is within them and one of a byte more is
/// not, and fields of 999,999 types are within them and fields of one more are not.
pub fn edges_of_limits()
    ensures text { (x : List ℕ) (n : Bool) → IsUtf8 x
        → Bounded (structure (field x null no_fields) n) ↔ (length x ≤ 67108864) }
    ensures nodes { (fs : Fields) (n : Bool) → LegalFields fs → fields_levels fs ≤ 63
        → fields_text_length fs ≤ 67108864 → Bounded (structure fs n) ↔ (fields_nodes fs ≤ 999999) }
{}
