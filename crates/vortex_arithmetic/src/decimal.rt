//! Decimals at other scales, and as whole numbers.
ghost use Rattle.std.specs.Prelude.{◌≡◌, ◌^◌, ◌<◌, ◌≤◌, ◌*ℤ◌, ◌↔◌, ◌≤ℤ◌, IsTrue, ℤ, pos, neg_ℤ, Some, None, FitsSigned, MatchOption, int_div, int_rem};
ghost use Rattle.std.specs.Int.{w128, int_gap};
ghost use Rattle.std.specs.Option.{option_map};
ghost use Rattle.vortex_number.specs.Format.{signed};
ghost use Rattle.vortex_number.specs.PType.{in_range, greatest};
ghost use Rattle.vortex_number.specs.declared.ptype.PType.{PType};
ghost use Rattle.vortex_number.specs.declared.ptype.PType.TheVariants as kind;
ghost use Rattle.vortex_value.specs.PValue.{value_of};
ghost use Rattle.vortex_arithmetic.specs.Operated.{within};
ghost use Rattle.vortex_arithmetic.specs.Scaled.{least, tens, whole, rescaled, rounded, whole_of};

use crate::number::{product, value_in};
use vortex_value::{PType, PValue};

/// The greatest power of ten in 128 bits.
const GREATEST_POWER: u8 = 38;

/// The number of a decimal at another scale. `None` where it is not whole, or has no place in 128
/// bits.
pub fn rescale(number: i128, old: i8, new: i8) -> Option<i128>
    ensures { result ≡ rescaled number old new }
{
    whole_quotient(raised(number, steps(old, new))?, steps(new, old))
}

/// A number is rescaled to the one number of 128 bits that is the same fraction, where there is one.
/// It does nothing when the program runs.
pub fn numbers_are_rescaled_exactly()
    ensures { (z old new w : ℤ) → (rescaled z old new ≡ Some w)
        ↔ (FitsSigned w128 w × (w *ℤ pos (tens new old) ≡ z *ℤ pos (tens old new))) }
{}

/// The decimal of this number and scale, rounded toward zero. `None` where it lies outside of the
/// least and the greatest number of the kind, before it is rounded.
pub fn to_whole(number: i128, scale: i8, ptype: PType) -> Option<PValue>
    ensures { result ≡ option_map (value_of ptype) (whole_of number scale ptype) }
{
    rounded_quotient(raised(number, steps(scale, 0))?, steps(0, scale), ptype)
}

/// The least and the greatest number of a kind are the ends of its range. It does nothing when the
/// program runs.
pub fn ranges_have_ends()
    ensures { (k : PType) (z : ℤ)
        → IsTrue (in_range k z) ↔ ((least k ≤ℤ z) × (z ≤ℤ pos (greatest k))) }
{}

/// Worked decimals at other scales, and as whole numbers. It does nothing when the program runs.
#[tactic(auto, unfolding(crate::specs::Scaled::rescaled, crate::specs::Scaled::whole_of))]
pub fn decimals_are_worked()
    ensures up { rescaled (pos 25) (pos 1) (pos 2) ≡ Some (pos 250) }
    ensures not_whole { rescaled (pos 25) (pos 1) (pos 0) ≡ None }
    ensures zero { rescaled (pos 0) (neg_ℤ (pos 128)) (pos 76) ≡ Some (pos 0) }
    ensures half_below { whole_of (neg_ℤ (pos 5)) (pos 1) kind.U8 ≡ None }
    ensures above { whole_of (pos 2559) (pos 1) kind.U8 ≡ None }
    ensures toward_zero { whole_of (pos 25) (pos 1) kind.I8 ≡ Some (pos 2) }
    ensures from_below { whole_of (neg_ℤ (pos 25)) (pos 1) kind.I8 ≡ Some (neg_ℤ (pos 2)) }
    ensures signed_above { whole_of (pos 1271) (pos 1) kind.I8 ≡ None }
    ensures signed_below { whole_of (neg_ℤ (pos 1281)) (pos 1) kind.I8 ≡ None }
    ensures signed_greatest { whole_of (pos 1270) (pos 1) kind.I8 ≡ Some (pos 127) }
    ensures signed_least { whole_of (neg_ℤ (pos 1280)) (pos 1) kind.I8 ≡ Some (neg_ℤ (pos 128)) }
    ensures hundreds { whole_of (pos 3) (neg_ℤ (pos 2)) kind.U16 ≡ Some (pos 300) }
{}

// The number divided by a power of ten, where that is whole.
fn whole_quotient(number: i128, places: u8) -> Option<i128>
    ensures { result ≡ whole number (10 ^ places) }
{
    let (quotient, rest) = divided(number, places);
    if rest == 0 { Some(quotient) } else { None }
}

// The number divided by a power of ten and rounded toward zero. What lies between two whole numbers
// is in range where the one farther from 0 is.
fn rounded_quotient(number: i128, places: u8, ptype: PType) -> Option<PValue>
    ensures { result ≡ option_map (value_of ptype) (rounded ptype number (10 ^ places)) }
{
    let (quotient, rest) = divided(number, places);
    value_in(ptype, quotient + rest.signum())?;
    value_in(ptype, quotient)
}

// How many steps it is from one scale up to another: none where that is not above.
fn steps(low: i8, high: i8) -> u8
    ensures { result ≡ int_gap low high }
{
    if low < high { high.abs_diff(low) } else { 0 }
}

// The power of ten, where it has a place in 128 bits.
fn power_of_ten(exponent: u8) -> Option<i128>
    ensures { MatchOption result (38 < exponent)
        (λ power. (exponent ≤ 38) × (power ≡ pos (10 ^ exponent))) }
{
    if exponent > GREATEST_POWER {
        None
    } else {
        Some(10i128.pow(exponent as u32))
    }
}

// The number times a power of ten, where it has a place in 128 bits.
fn raised(number: i128, places: u8) -> Option<i128>
    ensures { result ≡ within (signed w128) (Some (number *ℤ pos (10 ^ places))) }
{
    match power_of_ten(places) {
        Some(power) => product(number, power),
        None if number == 0 => Some(0),
        None => None,
    }
}

// The number divided by a power of ten, rounded toward zero, and the rest, which has its sign.
fn divided(number: i128, places: u8) -> (i128, i128)
    ensures quotient { result.0 ≡ int_div number (pos (10 ^ places)) }
    ensures rest { result.1 ≡ int_rem number (pos (10 ^ places)) }
{
    match power_of_ten(places) {
        Some(power) => (number / power, number % power),
        None => (0, number),
    }
}
