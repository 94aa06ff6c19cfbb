//! Laws of masks. Each is a function that does nothing when the program runs.
ghost use Rattle.std.specs.Prelude.{◌≡◌, ◌∷◌, [], ◌<◌, List, Bool, true, false, length, drop, not};
ghost use Rattle.std.specs.List.{All, count_by, flat_map, list_all};
ghost use Rattle.vortex_mask.specs.Bits.{bits_of_byte, truths_in};
ghost use Rattle.vortex_mask.specs.Truths.{both, byte_count, kept, packed, picked, places_of};

/// What is packed reads the same. It has as few bytes as hold it, and bits that are left are 0.
pub fn packed_masks_are_read()
    ensures same { (m : List Bool) → truths_in (length m) (packed m) ≡ m }
    ensures few { (m : List Bool) → length (packed m) ≡ byte_count (length m) }
    ensures rest { (m : List Bool)
        → list_all not (drop (length m) (flat_map bits_of_byte (packed m))) ≡ true }
{}

/// A filter keeps what stands at the places of true, of which there are as many as is counted.
pub fn filters_keep_places()
    ensures places { (m n : List Bool) → length m ≡ length n → picked (places_of m) n ≡ kept m n }
    ensures count { (m : List Bool) → length (places_of m) ≡ count_by (λ b. b) m }
    ensures range { (m : List Bool) → All (λ place. place < length m) (places_of m) }
{}

/// Worked masks.
#[tactic(auto, unfolding(crate::specs::Truths::packed))]
pub fn masks_are_worked()
    ensures lowest_first { truths_in 4 (5 ∷ []) ≡ true ∷ false ∷ true ∷ false ∷ [] }
    ensures second_byte { drop 8 (truths_in 10 (0 ∷ 2 ∷ [])) ≡ false ∷ true ∷ [] }
    ensures short { truths_in 3 [] ≡ [] }
    ensures one_byte { packed (true ∷ false ∷ true ∷ true ∷ []) ≡ 13 ∷ [] }
    ensures two_bytes { packed (false ∷ false ∷ false ∷ false ∷ false ∷ false ∷ false ∷ true
        ∷ true ∷ []) ≡ 128 ∷ 1 ∷ [] }
    ensures no_bytes { packed [] ≡ [] }
    ensures found { places_of (true ∷ false ∷ true ∷ []) ≡ 0 ∷ 2 ∷ [] }
    ensures filtered { kept (true ∷ false ∷ true ∷ []) (false ∷ false ∷ true ∷ [])
        ≡ false ∷ true ∷ [] }
    ensures taken { picked (2 ∷ 0 ∷ 2 ∷ []) (true ∷ true ∷ false ∷ []) ≡ false ∷ true ∷ false ∷ [] }
    ensures meet { both (true ∷ true ∷ false ∷ []) (true ∷ false ∷ true ∷ [])
        ≡ true ∷ false ∷ false ∷ [] }
{}
