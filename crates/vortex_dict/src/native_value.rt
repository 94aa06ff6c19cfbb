//! Native values that are equal exactly where they are the same.

ghost use Rattle.std.specs.Prelude.{◌≡◌};
ghost use Rattle.std.specs.Bool.{Decides};
ghost use Rattle.std.proofs.lemmas.Bool.Decides.{Decides-eqb, Decides-int_eq};

use std::hash::Hash;
use vortex_value::NativePType;

/// A native type whose values are equal exactly where they are the same, so that they are found in
/// maps.
pub trait NativeValue: NativePType + Ord + Hash {
    // Values are equal exactly where they are the same.
    ghost eq_law: { (x y : Self) → Decides (Self.eq x y) (x ≡ y) };
}

impl NativeValue for u8 {
    ghost eq_law = { Decides-eqb };
}

impl NativeValue for u16 {
    ghost eq_law = { Decides-eqb };
}

impl NativeValue for u32 {
    ghost eq_law = { Decides-eqb };
}

impl NativeValue for u64 {
    ghost eq_law = { Decides-eqb };
}

impl NativeValue for i8 {
    ghost eq_law = { Decides-int_eq };
}

impl NativeValue for i16 {
    ghost eq_law = { Decides-int_eq };
}

impl NativeValue for i32 {
    ghost eq_law = { Decides-int_eq };
}

impl NativeValue for i64 {
    ghost eq_law = { Decides-int_eq };
}
