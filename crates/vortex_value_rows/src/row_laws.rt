//! Laws of rows.

ghost use Rattle.std.specs.Prelude.{◌≡◌};
ghost use Rattle.vortex_terms.specs.Term.{Term};
ghost use Rattle.vortex_terms.specs.Types.{Same};
ghost use Rattle.vortex_scalar_value.specs.Value.{ValueTerm};
ghost use Rattle.vortex_value_rows.specs.RowOf.{row_of};

/// Rows do not look at nullability. It does nothing when the program runs.
pub fn rows_ignore_nullability()
    ensures { (t u : Term) (v : ValueTerm) → Same t u → row_of t v ≡ row_of u v }
{}
