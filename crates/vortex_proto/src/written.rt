//! What is written for types stands for them.

ghost use Rattle.std.specs.Prelude.{◌≡◌, ◌<◌, ◌^◌, ◌∷◌, [], length, true, false, pos, Some, None};
ghost use Rattle.vortex_terms.specs.Term.{Term, null, primitive, decimal, fixed_size_list, structure, field, no_fields, list, extension, signed_32, unsigned_8};
ghost use Rattle.vortex_terms.specs.Types.{Bounded};
ghost use Rattle.vortex_proto.specs.TypeBytes.{type_bytes};
ghost use Rattle.vortex_proto.specs.PathMessage.{path_in};
ghost use Rattle.vortex_proto.specs.TypeMessage.{IsTypeMessage};

/// The message that is written for a type within the limits stands for it and for no other type, and
/// has fewer than 2 to the 28th bytes. This does nothing when the program runs.
pub fn written_types_stand()
    ensures stands { (t : Term) → Bounded t → IsTypeMessage (type_bytes t) t }
    ensures alone { (t u : Term) → Bounded t → IsTypeMessage (type_bytes t) u → u ≡ t }
    ensures short { (t : Term) → Bounded t → length (type_bytes t) < 2 ^ 28 }
{}

/// Which bytes are written for small types, and which paths two messages are. This does nothing when the program
/// runs.
pub fn small_types_are_written()
    ensures null { type_bytes null ≡ 10 ∷ 0 ∷ [] }
    ensures whole { type_bytes (primitive signed_32 false) ≡ 26 ∷ 2 ∷ 8 ∷ 6 ∷ [] }
    ensures nullable { type_bytes (primitive unsigned_8 true) ≡ 26 ∷ 2 ∷ 16 ∷ 1 ∷ [] }
    ensures decimals { type_bytes (decimal 10 (pos 2) false) ≡ 34 ∷ 4 ∷ 8 ∷ 10 ∷ 16 ∷ 2 ∷ [] }
    ensures fixed { type_bytes (fixed_size_list null 3 true)
        ≡ 82 ∷ 8 ∷ 10 ∷ 2 ∷ 10 ∷ 0 ∷ 16 ∷ 3 ∷ 24 ∷ 1 ∷ [] }
    ensures structs { type_bytes (structure (field (97 ∷ []) null no_fields) true)
        ≡ 58 ∷ 9 ∷ 10 ∷ 1 ∷ 97 ∷ 18 ∷ 2 ∷ 10 ∷ 0 ∷ 24 ∷ 1 ∷ [] }
    ensures list { type_bytes (list null true) ≡ 66 ∷ 6 ∷ 10 ∷ 2 ∷ 10 ∷ 0 ∷ 16 ∷ 1 ∷ [] }
    ensures metadata { type_bytes (extension (97 ∷ []) null (Some []))
        ≡ 74 ∷ 9 ∷ 10 ∷ 1 ∷ 97 ∷ 18 ∷ 2 ∷ 10 ∷ 0 ∷ 26 ∷ 0 ∷ [] }
    ensures root { path_in [] ≡ Some [] }
    ensures other { path_in (10 ∷ 2 ∷ 18 ∷ 0 ∷ []) ≡ None }
{}
