//! Laws of fields that are made from a struct's fields.

ghost use Rattle.std.specs.List.{IsDistinct};
ghost use Rattle.std.specs.Prelude.{◌≡◌, ◌↔◌, ◌++◌, ℕ, List, Some, bytes_eq, map};
ghost use Rattle.vortex_terms.specs.Term.{Fields};
ghost use Rattle.vortex_terms.specs.Types.{field_named, fields_append, names_of, types_of};
ghost use Rattle.vortex_terms.specs.StructFields.{disjoint_merged, projected};

/// The fields of given names have the names that were asked for, and the type of the first field of
/// each name.
pub fn fields_are_projected()
    ensures { (fs gs : Fields) (xs : List (List ℕ)) → projected fs xs ≡ Some gs
        ↔ (names_of gs ≡ xs) × (map (field_named fs) xs ≡ map Some (types_of gs)) }
{}

/// Two lists of fields are merged exactly where all names are apart, into the ones and then the
/// others.
pub fn fields_are_merged()
    ensures { (fs gs hs : Fields) → disjoint_merged fs gs ≡ Some hs
        ↔ IsDistinct bytes_eq (names_of fs ++ names_of gs) × (hs ≡ fields_append fs gs) }
{}
