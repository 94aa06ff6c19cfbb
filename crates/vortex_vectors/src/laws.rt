//! What the top call takes from constants of the code.

ghost use Rattle.std.specs.Prelude.{◌≡◌, codes};
ghost use Rattle.vortex_select.specs.Column.{primitive_name};

/// How the one encoding is spelled. It does nothing when the program runs.
pub fn encoding_is_spelled()
    ensures { primitive_name ≡ codes "vortex.primitive" }
{}
