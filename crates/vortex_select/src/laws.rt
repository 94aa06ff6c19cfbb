//! What holds of streams and selections by their definitions. These functions do nothing when the
//! program runs.

ghost use Rattle.std.specs.Prelude.{◌≡◌, ℕ, ◌<◌, List, All, ℤ};
ghost use Rattle.vortex_select.specs.Column.{ColumnType};
ghost use Rattle.vortex_select.specs.Theorem.{IsColumnStream, Selects};
ghost use Rattle.vortex_select.specs.declared.report.RowCounts.{RowCounts};
ghost use Rattle.vortex_select.specs.declared.words.Query.{Query};

/// Bytes are a stream of at most one type and one list of arrays.
pub fn one_meaning()
    ensures { (bytes : List ℕ) (t u : ColumnType) (a b : List (List ℤ))
        → IsColumnStream bytes t a → IsColumnStream bytes u b → (t ≡ u) × (a ≡ b) }
{}

/// A selection of its own output, by the same query, writes the same bytes, and keeps each of their
/// rows.
pub fn selected_again()
    ensures { (query : Query) (input output more : List ℕ) (first second : RowCounts)
        → Selects query input output first → Selects query output more second
        → All (λ byte. byte < 256) output → All (λ byte. byte < 256) more
        → (more ≡ output) × (second.arrays ≡ first.arrays) × (second.read ≡ first.kept)
        × (second.kept ≡ first.kept) }
{}
