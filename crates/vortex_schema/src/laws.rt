//! Laws of what stands at a place.

ghost use Rattle.std.specs.Prelude.{◌≡◌, ◌≤◌, ◌↔◌, ◌∷◌, [], ℕ, List, Some, None, true};
ghost use Rattle.vortex_flat.specs.Layout.{layout_of, whole_of};
ghost use Rattle.vortex_terms.specs.Term.{Term, boolean, extension, null};
ghost use Rattle.vortex_terms.specs.Types.{Bounded, IsBytes, Legal, levels, nodes, text_length};
ghost use Rattle.vortex_schema.specs.declared.budget.Budget.{Budget};
ghost use Rattle.vortex_schema.specs.Reading.{Found, bounded_type_at, bounded_type_in, type_at};
ghost use Rattle.vortex_schema.specs.SmallLayouts.{extension_of_nulls, nullable_truth_value};
ghost use Rattle.vortex_schema.specs.TypeAt.{IsTypeAt, IsTypeIn};
ghost use Rattle.vortex_schema.specs.TypeTree.{tree_of_type};
ghost use Rattle.vortex_schema.specs.inner.InPlace.{after_type};

/// What is found at a place stands there, is legal and within the budgets, and leaves the rest of them.
pub fn found_types_stand()
    ensures stands { (b : List ℕ) (n : ℕ) (left : Budget) (p : ℕ) (f : Found Term) → IsBytes b
        → type_at b n left p ≡ Some f → IsTypeAt b p f.found }
    ensures legal { (b : List ℕ) (n : ℕ) (left : Budget) (p : ℕ) (f : Found Term) → IsBytes b
        → type_at b n left p ≡ Some f → Legal f.found }
    ensures within { (b : List ℕ) (n : ℕ) (left : Budget) (p : ℕ) (f : Found Term) → IsBytes b
        → type_at b n left p ≡ Some f
        → (levels f.found ≤ n) × (nodes f.found ≤ left.nodes) × (text_length f.found ≤ left.text) }
    ensures rest { (b : List ℕ) (n : ℕ) (left : Budget) (p : ℕ) (f : Found Term) → IsBytes b
        → type_at b n left p ≡ Some f → f.left ≡ after_type f.found left }
{}

/// What stands at a place, is legal and within the budgets is found.
pub fn standing_types_are_found()
    ensures { (t : Term) (b : List ℕ) (n : ℕ) (left : Budget) (p : ℕ) → IsTypeAt b p t → Legal t
        → levels t ≤ n → nodes t ≤ left.nodes → text_length t ≤ left.text
        → type_at b n left p ≡ Some (record { found = t; left = after_type t left }) }
{}

/// A type is found at a place, or at the root, exactly where it stands there and is legal and within the limits.
pub fn bounded_types_are_found()
    ensures found { (t : Term) (b : List ℕ) (p : ℕ) → IsBytes b
        → (bounded_type_at b p ≡ Some t) ↔ (IsTypeAt b p t × Bounded t) }
    ensures refused { (b : List ℕ) (p : ℕ) → IsBytes b
        → (bounded_type_at b p ≡ None) ↔ ((t : Term) → IsTypeAt b p t → Bounded t → ⊥) }
    ensures root { (t : Term) (b : List ℕ) → IsBytes b
        → (bounded_type_in b ≡ Some t) ↔ IsTypeIn b t }
{}

/// At most one type stands at a place, and at the root.
pub fn one_type_stands()
    ensures place { (t u : Term) (b : List ℕ) (p : ℕ) → IsTypeAt b p t → IsTypeAt b p u → t ≡ u }
    ensures root { (t u : Term) (b : List ℕ) → IsTypeIn b t → IsTypeIn b u → t ≡ u }
{}

/// A bounded type can be laid out, and a type that is laid out is read again.
pub fn laid_out_types_stand()
    ensures laid { (t : Term) → Bounded t
        → layout_of (tree_of_type t) ≡ Some (whole_of (tree_of_type t)) }
    ensures stands { (t : Term) (b : List ℕ) → Bounded t → layout_of (tree_of_type t) ≡ Some b
        → IsTypeIn b t }
    ensures found { (t : Term) (b : List ℕ) → Bounded t → layout_of (tree_of_type t) ≡ Some b
        → bounded_type_in b ≡ Some t }
{}

/// Which bytes are laid out for two small types: a flag is written as 1, and metadata that is absent has
/// the entry 0.
pub fn small_types_are_laid_out()
    ensures flag { layout_of (tree_of_type (boolean true)) ≡ Some nullable_truth_value }
    ensures no_metadata { layout_of (tree_of_type (extension (120 ∷ []) null None))
        ≡ Some extension_of_nulls }
{}
