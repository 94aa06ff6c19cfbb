//! Laws of types: where paths lead, and what a change of a flag leaves.

ghost use Rattle.std.specs.Prelude.{◌≡◌, ◌∷◌, [], ℕ, Bool, IsFalse, List, None, Option};
ghost use Rattle.vortex_terms.specs.Nullability.{with_nullability};
ghost use Rattle.vortex_terms.specs.Path.{PathPart, by_name, element, resolved};
ghost use Rattle.vortex_terms.specs.Term.{Fields, Term, extension, field, fixed_size_list, list, structure};
ghost use Rattle.vortex_terms.specs.Types.{Same, is_extension, part_types};

/// A path leads nowhere where its first step is none of its type's: to an element of a struct, to a
/// field of a list, or into a type without parts.
pub fn paths_end()
    ensures no_element { (fs : Fields) (n : Bool) (path : List PathPart)
        → resolved (structure fs n) (element ∷ path) ≡ None }
    ensures no_field { (t : Term) (n : Bool) (x : List ℕ) (path : List PathPart)
        → resolved (list t n) (by_name x ∷ path) ≡ None }
    ensures no_fixed_field { (t : Term) (k : ℕ) (n : Bool) (x : List ℕ) (path : List PathPart)
        → resolved (fixed_size_list t k n) (by_name x ∷ path) ≡ None }
    ensures leaves { (t : Term) (part : PathPart) (path : List PathPart) → part_types t ≡ []
        → resolved t (part ∷ path) ≡ None }
{}

/// A changed flag leaves the types inside as they were, and goes on to an extension's storage.
pub fn flags_leave_the_inside()
    ensures parts { (t : Term) (m : Bool) → IsFalse (is_extension t)
        → part_types (with_nullability t m) ≡ part_types t }
    ensures storage { (id : List ℕ) (t : Term) (metadata : Option (List ℕ)) (m : Bool)
        → with_nullability (extension id t metadata) m
        ≡ extension id (with_nullability t m) metadata }
{}

/// Types are the same apart from nullability where what is inside them is.
pub fn the_same_inside_is_the_same()
    ensures lists { (t u : Term) (m n : Bool) → Same t u → Same (list t m) (list u n) }
    ensures fixed_size_lists { (t u : Term) (k : ℕ) (m n : Bool) → Same t u
        → Same (fixed_size_list t k m) (fixed_size_list u k n) }
    ensures extensions { (id : List ℕ) (t u : Term) (metadata : Option (List ℕ)) → Same t u
        → Same (extension id t metadata) (extension id u metadata) }
    ensures structs { (x : List ℕ) (t u : Term) (fs gs : Fields) (m n : Bool) → Same t u
        → Same (structure fs m) (structure gs n)
        → Same (structure (field x t fs) m) (structure (field x u gs) n) }
{}
