//! Laws of distinct rows and codes.

ghost use Rattle.std.specs.List.{IsDistinct, list_any};
ghost use Rattle.std.specs.Prelude.{◌≡◌, ◌<◌, ◌≤◌, ◌++◌, ◌∷◌, [], ℕ, if◌then◌else◌, All, List, Some, get_or, length, map, slice_get};
ghost use Rattle.vortex_terms.specs.Row.{Row};
ghost use Rattle.vortex_terms.specs.Order.{row_eq};
ghost use Rattle.vortex_terms.specs.Distinct.{codes_of, distinct, first_place};

/// No row stands twice among the distinct rows, and the codes are places there at which the rows
/// stand.
pub fn codes_spell_the_rows()
    ensures apart { (rs : List Row) → IsDistinct row_eq (distinct rs) }
    ensures fewer { (rs : List Row) → length (distinct rs) ≤ length rs }
    ensures places { (rs : List Row) → All (λ c. c < length (distinct rs)) (codes_of rs) }
    ensures spelled { (rs : List Row) → map (slice_get (distinct rs)) (codes_of rs) ≡ map Some rs }
{}

/// A row that stands among the rows adds no distinct row, and another is the last of them; its code
/// is its place, and the codes before it stay.
pub fn one_row_more()
    ensures distinct { (rs : List Row) (r : Row)
        → distinct (rs ++ r ∷ [])
        ≡ (if list_any (row_eq r) rs then distinct rs else distinct rs ++ r ∷ []) }
    ensures codes { (rs : List Row) (r : Row)
        → codes_of (rs ++ r ∷ []) ≡ codes_of rs ++ first_place r (distinct rs) ∷ [] }
{}

/// No list of values with codes that spell the rows is shorter than the distinct rows.
pub fn distinct_rows_are_the_fewest()
    ensures { (rs values : List Row) (codes : List ℕ) (d : Row)
        → All (λ c. c < length values) codes → map (λ c. get_or values c d) codes ≡ rs
        → length (distinct rs) ≤ length values }
{}
