//! Laws of dictionaries.

ghost use Rattle.std.specs.Prelude.{◌≡◌, ℕ, ◌*◌, ◌-◌, ◌^◌, ◌<◌, ◌≤◌, get_or, Bool, false, pos, min};
ghost use Rattle.std.specs.Prelude.{IsTrue, Some, List, [], ◌∷◌, map, length, slice_get, take};
ghost use Rattle.std.specs.Int.{w64};
ghost use Rattle.std.specs.List.{sum_by, All};
ghost use Rattle.vortex_number.specs.Format.{unsigned};
ghost use Rattle.vortex_number.specs.PType.{byte_width_of, in_range};
ghost use Rattle.vortex_number.specs.declared.ptype.PType.{PType};
ghost use Rattle.vortex_terms.specs.Row.{Row, null_row};
ghost use Rattle.vortex_terms.specs.Distinct.{distinct, codes_of};
ghost use Rattle.vortex_dict.specs.Encoding.{Encodes, IsFull};
ghost use Rattle.vortex_dict.specs.Limits.{byte_count, bytes_over, numbers_over};
ghost use Rattle.vortex_dict.specs.Widths.{IsLeastFor, IsRowOf, most_possible};

use crate::constraints::UNCONSTRAINED;

/// What a new encoder makes of rows none of which is over a limit beside its values are the
/// distinct rows and their codes.
pub fn encodings_are_distinct()
    ensures all { (over : List Row → Row → Bool) (rows values : List Row) (codes : List ℕ)
        → ((i : ℕ) → i < length rows → over values (get_or rows i null_row) ≡ false)
        → Encodes over [] rows values codes → length codes ≡ length rows }
    ensures values { (over : List Row → Row → Bool) (rows values : List Row) (codes : List ℕ)
        → length codes ≡ length rows → Encodes over [] rows values codes → values ≡ distinct rows }
    ensures codes { (over : List Row → Row → Bool) (rows values : List Row) (codes : List ℕ)
        → length codes ≡ length rows → Encodes over [] rows values codes → codes ≡ codes_of rows }
{}

/// Without limits, and with codes of 64 bits, no value is over a limit beside as many values as an
/// encoder can hold.
pub fn nothing_is_over_no_limits()
    ensures max_len { UNCONSTRAINED.max_len ≡ 2 ^ 64 - 1 }
    ensures max_bytes { UNCONSTRAINED.max_bytes ≡ 2 ^ 64 - 1 }
    ensures bytes { (values : List Row) (r : Row) → length values < 2 ^ 32
        → sum_by byte_count values < 2 ^ 32 → byte_count r < 2 ^ 63
        → bytes_over (unsigned w64) UNCONSTRAINED values r ≡ false }
    ensures numbers { (kind : PType) (values : List Row) (r : Row) → length values < 2 ^ 32
        → numbers_over (unsigned w64) (byte_width_of kind) UNCONSTRAINED values r ≡ false }
{}

/// A dictionary is a shortest one: no values with codes that spell the same rows are fewer than
/// those that an encoder makes.
pub fn dictionaries_are_shortest()
    ensures { (over : List Row → Row → Bool) (rows values others : List Row)
        (codes spelling : List ℕ) → Encodes over [] rows values codes
        → map (slice_get others) spelling ≡ map Some (take (length codes) rows)
        → length values ≤ length others }
{}

/// Rows that are encoded to values of fewer than 2^32 bytes are not too large.
pub fn encoded_is_not_too_large()
    ensures { (over : List Row → Row → Bool) (size : Row → ℕ) (held rows values : List Row)
        (codes : List ℕ) → Encodes over held rows values codes → sum_by size values < 2 ^ 32
        → IsFull over size held rows → ⊥ }
{}

/// The code type of an encoder has each place that its limits allow: of rows of bytes as many as
/// may be, and of whole numbers as many as there are besides.
pub fn code_types_suffice()
    ensures bytes { (code : PType) (max_len : ℕ) → IsLeastFor (max_len ∷ []) code → (i : ℕ)
        → i < max_len → IsTrue (in_range code (pos i)) }
    ensures numbers { (kind code : PType) (nullable : Bool) (max_len : ℕ) (values : List Row)
        → max_len < 2 ^ 64
        → IsLeastFor (min max_len (most_possible (8 * byte_width_of kind) nullable) ∷ []) code
        → distinct values ≡ values → All (IsRowOf kind nullable) values → length values ≤ max_len
        → (i : ℕ) → i < length values → IsTrue (in_range code (pos i)) }
{}
