//! Native types of codes.

ghost use Rattle.std.specs.Prelude.{◌≡◌, pos, refl, unsigned_abs};

use vortex_value::NativePType;

/// A native type for codes, which has no number below 0.
pub trait CodeType: NativePType {
    // A code is the number that it is counted as.
    ghost unsigned_law: { (x : Self) → Self.number x ≡ pos (unsigned_abs (Self.number x)) };
}

impl CodeType for u8 {
    ghost unsigned_law = { λ x. refl };
}

impl CodeType for u16 {
    ghost unsigned_law = { λ x. refl };
}

impl CodeType for u32 {
    ghost unsigned_law = { λ x. refl };
}

impl CodeType for u64 {
    ghost unsigned_law = { λ x. refl };
}
