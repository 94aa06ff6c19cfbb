//! Laws of what messages are.

ghost use Rattle.std.specs.Prelude.{◌≡◌, ◌≤◌, ◌↔◌, ℕ, List, Some};
ghost use Rattle.vortex_terms.specs.Term.{Term};
ghost use Rattle.vortex_terms.specs.Types.{IsBytes, Legal, levels};
ghost use Rattle.vortex_proto.specs.Reading.{type_in};
ghost use Rattle.vortex_proto.specs.TypeMessage.{IsTypeMessage};

/// A type is found in bytes exactly where they are a message of it, and it is legal and nests no deeper than it may.
pub fn types_are_found()
    ensures { (t : Term) (b : List ℕ) (n : ℕ) → IsBytes b
        → (type_in n b ≡ Some t) ↔ (IsTypeMessage b t × Legal t × (levels t ≤ n)) }
{}

/// Bytes are a message of at most one type.
pub fn one_type_is_told()
    ensures { (t u : Term) (b : List ℕ) → IsTypeMessage b t → IsTypeMessage b u → t ≡ u }
{}
