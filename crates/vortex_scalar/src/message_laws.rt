//! Laws of the messages of scalars.

ghost use Rattle.std.specs.Prelude.{◌≡◌, ◌<◌, ◌≤◌, ◌^◌, ℕ, List, length, Some, Ok};
ghost use Rattle.vortex_terms.specs.Fits.{Fits};
ghost use Rattle.vortex_terms.specs.Row.{Row};
ghost use Rattle.vortex_terms.specs.Term.{Term};
ghost use Rattle.vortex_terms.specs.Types.{Bounded, levels};
ghost use Rattle.vortex_scalar_value.specs.Held.{IsHeld};
ghost use Rattle.vortex_scalar_value.specs.Value.{ValueTerm, value_levels};
ghost use Rattle.vortex_scalar_value.specs.ValueBytes.{as_read, value_bytes};
ghost use Rattle.vortex_value_rows.specs.RowOf.{row_of};
ghost use Rattle.vortex_scalar.specs.ScalarMessage.{IsReadScalar, scalar_bytes};
ghost use Rattle.vortex_scalar.specs.ScalarTerm.{ScalarTerm};

/// A value that has a row under a type nests no deeper than the type, and what is read of it once
/// it is written has the same row. This does nothing when the program runs.
pub fn written_rows_stay()
    ensures levels { (t : Term) (v : ValueTerm) (r : Row) → row_of t v ≡ Some r
        → value_levels v ≤ levels t }
    ensures rows { (t : Term) (v : ValueTerm) (r : Row) → IsHeld v → row_of t v ≡ Some r
        → row_of t (as_read v) ≡ Some r }
{}

/// What is written for a scalar is a message of it, and a message is one of one scalar at most.
/// This does nothing when the program runs.
pub fn written_scalars_are_read()
    ensures read { (s : ScalarTerm) (v : ValueTerm) → Bounded s.dtype → Fits s.dtype s.row
        → IsHeld v → row_of s.dtype v ≡ Some s.row → length (value_bytes v) < 2 ^ 64
        → IsReadScalar (Ok s) (scalar_bytes s.dtype v) }
    ensures alone { (s u : ScalarTerm) (b : List ℕ) → IsReadScalar (Ok s) b → IsReadScalar (Ok u) b
        → s ≡ u }
{}
