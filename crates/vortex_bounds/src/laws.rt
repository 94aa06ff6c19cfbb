//! Laws of bounds. Each is a function that does nothing when the program runs.

ghost use Rattle.std.specs.Prelude.{◌≡◌, ◌≤◌, ℕ, List, Some, IsTrue, IsUtf8, length, ◌∷◌, [], None};
ghost use Rattle.std.specs.Cmp.Lexicographic.{slice_cmp};
ghost use Rattle.std.specs.Ordering.{is_le, nat_cmp};
ghost use Rattle.vortex_bounds.specs.Texts.{text_lower_bound, text_upper_bound, raised_chars};
ghost use Rattle.vortex_bounds.specs.Bytes.{byte_lower_bound, byte_upper_bound};

/// A lower bound is at most the bytes, and an upper bound at least, in the order of bytes. Neither
/// is longer than it may be. Bytes that are no longer are their own lower bound.
pub fn bounds_of_bytes()
    ensures lower { (n : ℕ) (bytes : List ℕ)
        → IsTrue (is_le (slice_cmp nat_cmp (byte_lower_bound n bytes) bytes)) }
    ensures lower_length { (n : ℕ) (bytes : List ℕ) → length (byte_lower_bound n bytes) ≤ n }
    ensures own_lower { (n : ℕ) (bytes : List ℕ) → length bytes ≤ n
        → byte_lower_bound n bytes ≡ bytes }
    ensures upper { (n : ℕ) (bytes bound : List ℕ) → byte_upper_bound n bytes ≡ Some bound
        → IsTrue (is_le (slice_cmp nat_cmp bytes bound)) }
    ensures upper_length { (n : ℕ) (bytes bound : List ℕ) → byte_upper_bound n bytes ≡ Some bound
        → length bound ≤ n }
{}

/// The same of texts, and the bounds are texts too.
pub fn bounds_of_texts()
    ensures lower { (n : ℕ) (text : List ℕ) → IsUtf8 text
        → IsTrue (is_le (slice_cmp nat_cmp (text_lower_bound n text) text)) }
    ensures lower_length { (n : ℕ) (text : List ℕ) → length (text_lower_bound n text) ≤ n }
    ensures own_lower { (n : ℕ) (text : List ℕ) → IsUtf8 text → length text ≤ n
        → text_lower_bound n text ≡ text }
    ensures lower_text { (n : ℕ) (text : List ℕ) → IsUtf8 text → IsUtf8 (text_lower_bound n text) }
    ensures upper { (n : ℕ) (text bound : List ℕ) → IsUtf8 text
        → text_upper_bound n text ≡ Some bound
        → IsTrue (is_le (slice_cmp nat_cmp text bound)) }
    ensures upper_length { (n : ℕ) (text bound : List ℕ)
        → text_upper_bound n text ≡ Some bound → length bound ≤ n }
    ensures upper_text { (n : ℕ) (text bound : List ℕ) → IsUtf8 text
        → text_upper_bound n text ≡ Some bound → IsUtf8 bound }
{}

/// Worked bounds. It does nothing when the program runs.
#[tactic(auto, unfolding(crate::specs::Bytes::raised_bytes, crate::specs::Texts::raised_chars))]
pub fn bounds_are_worked()
    ensures byte_254 { byte_upper_bound 1 (254 ∷ 9 ∷ []) ≡ Some (255 ∷ []) }
    ensures later { byte_upper_bound 3 (1 ∷ 255 ∷ 255 ∷ 5 ∷ []) ≡ Some (2 ∷ 0 ∷ 0 ∷ []) }
    ensures full { byte_upper_bound 1 (255 ∷ 255 ∷ []) ≡ None }
    ensures front { byte_lower_bound 2 (97 ∷ 98 ∷ 99 ∷ []) ≡ 97 ∷ 98 ∷ [] }
    ensures two_bytes { raised_chars (233 ∷ []) ≡ Some (234 ∷ []) }
    ensures three_bytes { raised_chars (8364 ∷ []) ≡ Some (8365 ∷ []) }
    ensures surrogates { raised_chars (55295 ∷ []) ≡ None }
    ensures more_bytes { raised_chars (2047 ∷ []) ≡ None }
    ensures last { raised_chars (1114111 ∷ []) ≡ None }
{}
