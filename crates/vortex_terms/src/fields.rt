//! Laws of the fields of structs.

ghost use Rattle.std.specs.List.{IsDistinct};
ghost use Rattle.std.specs.Prelude.{◌≡◌, ◌<◌, ◌≤◌, ◌↔◌, ◌++◌, ◌∷◌, ◌+◌, ℕ, All, IsFalse, IsUtf8, List, None, Some, bytes_eq, length, position, remove, slice_get, sum_by};
ghost use denote.Param.Weighed.{most};
ghost use Rattle.vortex_terms.specs.Term.{Fields, Term};
ghost use Rattle.vortex_terms.specs.Types.{Legal, LegalFields, field_at, field_count, field_named, fields_append, fields_from, fields_levels, fields_nodes, fields_text_length, levels, names_of, nodes, place_of, text_length, types_of};
ghost use Rattle.vortex_terms.specs.StructFields.{name_repeats, projected, without_field};
ghost use Rattle.vortex_terms.specs.Weight.{fields_weight, weight};

/// The fields of a struct are their names and their types.
pub fn fields_are_names_and_types()
    ensures together { (fs : Fields) → fields_from (names_of fs) (types_of fs) ≡ fs }
    ensures names { (xs : List (List ℕ)) (ts : List Term) → length xs ≡ length ts
        → names_of (fields_from xs ts) ≡ xs }
    ensures types { (xs : List (List ℕ)) (ts : List Term) → length xs ≡ length ts
        → types_of (fields_from xs ts) ≡ ts }
    ensures count { (fs : Fields) → length (names_of fs) ≡ field_count fs }
    ensures legal { (fs : Fields)
        → LegalFields fs ↔ (All IsUtf8 (names_of fs) × All Legal (types_of fs)) }
{}

/// Fields behind others have the names and types of both.
pub fn fields_are_joined()
    ensures names { (fs gs : Fields) → names_of (fields_append fs gs) ≡ names_of fs ++ names_of gs }
    ensures types { (fs gs : Fields) → types_of (fields_append fs gs) ≡ types_of fs ++ types_of gs }
{}

/// The measures of fields are sums over their types, and the levels are the greatest.
pub fn measures_are_those_of_fields()
    ensures levels { (fs : Fields) → fields_levels fs ≡ most levels (types_of fs) }
    ensures nodes { (fs : Fields) → fields_nodes fs ≡ sum_by nodes (types_of fs) }
    ensures text { (fs : Fields)
        → fields_text_length fs ≡ sum_by length (names_of fs) + sum_by text_length (types_of fs) }
    ensures weight { (fs : Fields)
        → fields_weight fs ≡ sum_by weight (types_of fs) + field_count fs }
{}

/// The type at a place is that in the list, and the place of a name is its first among the names.
pub fn fields_are_found()
    ensures types { (fs : Fields) (i : ℕ) → field_at fs i ≡ slice_get (types_of fs) i }
    ensures names { (fs : Fields) (x : List ℕ)
        → place_of fs x ≡ position (λ y. bytes_eq y x) (names_of fs) }
{}

/// Fields that are asked for, left out or put together have the names asked for, the others, or
/// both.
pub fn fields_are_made_of_fields()
    ensures projected { (fs : Fields) (xs : List (List ℕ)) (gs : Fields)
        → projected fs xs ≡ Some gs → names_of gs ≡ xs }
    ensures missing { (fs : Fields) (xs : List (List ℕ)) (x : List ℕ) → field_named fs x ≡ None
        → projected fs (x ∷ xs) ≡ None }
    ensures without { (fs : Fields) (i : ℕ) → i < field_count fs
        → without_field fs i
        ≡ Some (fields_from (remove (names_of fs) i) (remove (types_of fs) i)) }
    ensures past { (fs : Fields) (i : ℕ) → field_count fs ≤ i → without_field fs i ≡ None }
    ensures repeats { (xs : List (List ℕ)) → IsFalse (name_repeats xs) ↔ IsDistinct bytes_eq xs }
{}
