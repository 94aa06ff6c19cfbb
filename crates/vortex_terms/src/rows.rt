//! Laws of rows.

ghost use Rattle.std.specs.Cmp.{IsTotalOrder};
ghost use Rattle.std.specs.Cmp.Lexicographic.{slice_cmp};
ghost use Rattle.std.specs.Ordering.{bool_cmp, int_cmp, nat_cmp};
ghost use Rattle.std.specs.Prelude.{◌≡◌, ◌≢◌, ◌<◌, ◌↔◌, ℕ, ℤ, All, Bool, IsTrue, List, Some, length, map, pos, slice_get};
ghost use Rattle.std.specs.declared.cmp.Ordering.{Ordering};
ghost use Rattle.vortex_terms.specs.Term.{Fields, Term};
ghost use Rattle.vortex_terms.specs.Types.{field_at, field_count, nullable, types_of};
ghost use Rattle.vortex_terms.specs.Row.{AllRows, Row, Rows, bytes_row, form_of, list_row, null_row, row_at, row_count, row_list, rows_from, truth_row, whole_row};
ghost use Rattle.vortex_terms.specs.Fits.{Fits, FitsFields, row_form};
ghost use Rattle.vortex_terms.specs.Default.{default_row, default_rows};
ghost use Rattle.vortex_terms.specs.Order.{form_number, row_cmp, row_eq};

/// The order of rows is total.
pub fn order_is_total()
    ensures { IsTotalOrder row_cmp }
{}

/// Rows compare as equal exactly where they are the same row.
pub fn equal_is_exact()
    ensures order { (r s : Row) → row_cmp r s ≡ Ordering.Equal ↔ (r ≡ s) }
    ensures test { (r s : Row) → IsTrue (row_eq r s) ↔ (r ≡ s) }
{}

/// Null comes before every other row, and rows of one form compare as Rust compares what they hold.
pub fn order_is_that_of_rust()
    ensures null_first { (r : Row) → r ≢ null_row → row_cmp null_row r ≡ Ordering.Less }
    ensures truth_values { (a b : Bool) → row_cmp (truth_row a) (truth_row b) ≡ bool_cmp a b }
    ensures signed { (a b : ℤ) → row_cmp (whole_row a) (whole_row b) ≡ int_cmp a b }
    ensures unsigned { (a b : ℕ) → row_cmp (whole_row (pos a)) (whole_row (pos b)) ≡ nat_cmp a b }
    ensures bytes { (a b : List ℕ) → row_cmp (bytes_row a) (bytes_row b) ≡ slice_cmp nat_cmp a b }
    ensures lists { (rs ss : Rows)
        → row_cmp (list_row rs) (list_row ss) ≡ slice_cmp row_cmp (row_list rs) (row_list ss) }
    ensures forms { (r s : Row) → form_number (form_of r) < form_number (form_of s)
        → row_cmp r s ≡ Ordering.Less }
{}

/// Null fits exactly the nullable types, and every other row that fits a type has the one form of
/// that type's rows.
pub fn fitting_rows_have_the_form()
    ensures null_fits { (t : Term) → Fits t null_row ↔ IsTrue (nullable t) }
    ensures form { (t : Term) (r : Row) → Fits t r → r ≢ null_row → form_of r ≡ row_form t }
{}

/// A default fits its type, and those of fields are those of their types.
pub fn defaults_fit()
    ensures fit { (t : Term) → Fits t (default_row t) }
    ensures fields { (fs : Fields) → row_list (default_rows fs) ≡ map default_row (types_of fs) }
{}

/// The rows inside a list are a list.
pub fn rows_are_lists()
    ensures back { (rs : Rows) → rows_from (row_list rs) ≡ rs }
    ensures forth { (rs : List Row) → row_list (rows_from rs) ≡ rs }
    ensures places { (rs : Rows) (i : ℕ) → row_at rs i ≡ slice_get (row_list rs) i }
    ensures count { (rs : Rows) → length (row_list rs) ≡ row_count rs }
    ensures each { (t : Term) (rs : Rows) → AllRows (Fits t) rs ↔ All (Fits t) (row_list rs) }
{}

/// As many rows as fields, each of which fits the type at its place, fit the fields, and no others
/// do.
pub fn structs_fit_by_place()
    ensures count { (fs : Fields) (rs : Rows) → FitsFields fs rs → row_count rs ≡ field_count fs }
    ensures at { (fs : Fields) (rs : Rows) (i : ℕ) (t : Term) (r : Row) → FitsFields fs rs
        → field_at fs i ≡ Some t → row_at rs i ≡ Some r → Fits t r }
    ensures from { (fs : Fields) (rs : Rows) → row_count rs ≡ field_count fs
        → ((i : ℕ) (t : Term) (r : Row) → field_at fs i ≡ Some t → row_at rs i
        ≡ Some r → Fits t r)
        → FitsFields fs rs }
{}
