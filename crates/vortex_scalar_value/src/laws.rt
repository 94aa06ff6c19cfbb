//! Laws of the messages of values.

ghost use Rattle.std.specs.Prelude.{◌≡◌, ◌<◌, ◌≤◌, ◌↔◌, ◌^◌, ◌∷◌, [], ℕ, List, length, Some, None, pos, negsuc, true};
ghost use Rattle.vortex_scalar_value.specs.Held.{IsHeld};
ghost use Rattle.vortex_scalar_value.specs.Reading.{value_in};
ghost use Rattle.vortex_terms.specs.Term.{signed_32, unsigned_8};
ghost use Rattle.vortex_scalar_value.specs.Value.{ValueTerm, value_levels, null_value, truth_value, whole_value, text_value, bytes_value, list_value, value, no_values};
ghost use Rattle.vortex_scalar_value.specs.ValueBytes.{as_read, value_bytes};
ghost use Rattle.vortex_scalar_value.specs.ValueMessage.{IsValueMessage};

/// What is found is exactly the value of the message, where it has no more levels than asked.
pub fn found_values_stand()
    ensures found { (v : ValueTerm) (n : ℕ) (b : List ℕ)
        → (value_in n b ≡ Some v) ↔ (IsValueMessage b v × (value_levels v ≤ n)) }
    ensures refused { (n : ℕ) (b : List ℕ)
        → (value_in n b ≡ None) ↔ ((v : ValueTerm) → IsValueMessage b v → value_levels v ≤ n → ⊥) }
{}

/// A message is one of one value at most.
pub fn one_value_stands()
    ensures { (v w : ValueTerm) (b : List ℕ) → IsValueMessage b v → IsValueMessage b w → v ≡ w }
{}

/// What is written for a value is a message of what is read from it, which nests as deep and is
/// written as the same bytes.
pub fn written_values_stand()
    ensures stands { (v : ValueTerm) → IsHeld v → length (value_bytes v) < 2 ^ 64
        → IsValueMessage (value_bytes v) (as_read v) }
    ensures levels { (v : ValueTerm) → value_levels (as_read v) ≡ value_levels v }
    ensures again { (v : ValueTerm) → value_bytes (as_read v) ≡ value_bytes v }
{}

/// Which bytes are written for small values.
pub fn small_values_are_written()
    ensures null { value_bytes null_value ≡ 8 ∷ 0 ∷ [] }
    ensures truth { value_bytes (truth_value true) ≡ 16 ∷ 1 ∷ [] }
    ensures signed { value_bytes (whole_value signed_32 (negsuc 2)) ≡ 24 ∷ 5 ∷ [] }
    ensures unsigned { value_bytes (whole_value unsigned_8 (pos 5)) ≡ 32 ∷ 5 ∷ [] }
    ensures text { value_bytes (text_value (97 ∷ [])) ≡ 58 ∷ 1 ∷ 97 ∷ [] }
    ensures bytes { value_bytes (bytes_value (97 ∷ [])) ≡ 66 ∷ 1 ∷ 97 ∷ [] }
    ensures lists { value_bytes (list_value (value null_value no_values)) ≡ 74 ∷ 4 ∷ 10 ∷ 2 ∷ 8 ∷ 0 ∷ [] }
{}
