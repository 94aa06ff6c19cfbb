//! Decimals as the whole numbers that are stored for them.
ghost use Rattle.std.specs.Prelude.{◌≡◌, ◌≤◌, ◌==◌, if◌then◌else◌, Some, None, refl, MatchOption};
ghost use Rattle.std.specs.Ordering.{on, nat_cmp, as_partial_cmp};
ghost use Rattle.std.specs.Cmp.{partial_order_from_own_ties};
ghost use Rattle.std.specs.Cmp.Rules.{comparing};
ghost use Rattle.std.proofs.Common.{rules};
ghost use Rattle.vortex_number.specs.Format.{fits};
ghost use Rattle.vortex_value.specs.DecimalValue.{width_number, width_of, decimal_number};
ghost use Rattle.vortex_value.specs.DecimalValue.{decimal_format};
ghost use Rattle.vortex_value.specs.declared.decimal.DecimalValueType.{DecimalValueType};
ghost use Rattle.vortex_value.specs.declared.decimal.DecimalValueType.TheVariants as width;

use crate::WholeNumber;
use std::cmp::Ordering;

mod impls;

/// The width in which the number of a decimal is stored.
#[derive(Clone, Copy, Debug, PartialEq, Eq)]
#[repr(u8)]
pub enum DecimalValueType {
    I8 = 0,
    I16 = 1,
    I32 = 2,
    I64 = 3,
    I128 = 4,
}

impl DecimalValueType {
    /// The width with this number, where there is one.
    pub fn from_number(number: u32) -> Option<DecimalValueType>
        ensures { MatchOption result (5 ≤ number) (λ width. width_number width ≡ number) }
    {
        match number {
            0 => Some(DecimalValueType::I8),
            1 => Some(DecimalValueType::I16),
            2 => Some(DecimalValueType::I32),
            3 => Some(DecimalValueType::I64),
            4 => Some(DecimalValueType::I128),
            _ => None,
        }
    }

    /// The number of the width where it is written.
    pub fn number(self) -> u8
        ensures { result ≡ width_number self }
    {
        self as u8
    }
}

impl PartialOrd for DecimalValueType {
    ghost partial_cmp = { as_partial_cmp (on width_number nat_cmp) };

    ghost laws = { partial_order_from_own_ties
        (Prim.search (comparing, rules)) (Prim.search (comparing, rules)) };

    fn partial_cmp(&self, other: &DecimalValueType) -> Option<Ordering> {
        Some(self.cmp(other))
    }
}

impl Ord for DecimalValueType {
    ghost cmp = { on width_number nat_cmp };

    ghost total = { Prim.search (comparing, rules) };

    ghost matches_partial_cmp = { Prim.search (comparing, rules) };

    ghost matches_eq = { Prim.search (comparing, rules) };

    /// The narrower width is the lesser one.
    fn cmp(&self, other: &DecimalValueType) -> Ordering {
        self.number().cmp(&other.number())
    }
}

/// The whole number that is stored for a decimal, and its width. Equality, order and hash look at
/// the number alone.
#[derive(Clone, Copy, Debug)]
pub enum DecimalValue {
    I8(i8),
    I16(i16),
    I32(i32),
    I64(i64),
    I128(i128),
}

impl DecimalValue {
    /// The number of the value.
    pub fn as_i128(self) -> i128
        ensures { result ≡ decimal_number self }
    {
        match self {
            DecimalValue::I8(number) => number as i128,
            DecimalValue::I16(number) => number as i128,
            DecimalValue::I32(number) => number as i128,
            DecimalValue::I64(number) => number as i128,
            DecimalValue::I128(number) => number,
        }
    }

    /// The width in which the number is stored.
    pub fn values_type(&self) -> DecimalValueType
        ensures { result ≡ width_of self.now }
    {
        match self {
            DecimalValue::I8(_) => DecimalValueType::I8,
            DecimalValue::I16(_) => DecimalValueType::I16,
            DecimalValue::I32(_) => DecimalValueType::I32,
            DecimalValue::I64(_) => DecimalValueType::I64,
            DecimalValue::I128(_) => DecimalValueType::I128,
        }
    }

    /// The number as a native type, where it is in the type's range.
    pub fn cast<T: NativeDecimalType>(&self) -> Option<T>
        ensures { result ≡ (if fits T.format (decimal_number self.now)
            then Some (T.of_number (decimal_number self.now)) else None) }
    {
        T::from_i128(self.as_i128())
    }
}

/// A native type that holds the numbers of one width.
pub trait NativeDecimalType: WholeNumber {
    ghost VALUES_TYPE: { DecimalValueType };

    /// The width of the type.
    const VALUES_TYPE: DecimalValueType;

    /// The number of a value of this very width. A value of another width is none, whatever its
    /// number.
    fn maybe_from(value: DecimalValue) -> Option<Self>
        ensures { result ≡ (if width_number (width_of value) == width_number VALUES_TYPE
            then Some (Self.of_number (decimal_number value)) else None) };

    // The type holds the numbers of its width.
    ghost format_law: { Self.format ≡ decimal_format VALUES_TYPE };
}

impl NativeDecimalType for i8 {
    ghost VALUES_TYPE = { width.I8 };

    const VALUES_TYPE: DecimalValueType = DecimalValueType::I8;

    fn maybe_from(value: DecimalValue) -> Option<i8> {
        match value {
            DecimalValue::I8(number) => Some(number),
            _ => None,
        }
    }

    ghost format_law = { refl };
}

impl NativeDecimalType for i16 {
    ghost VALUES_TYPE = { width.I16 };

    const VALUES_TYPE: DecimalValueType = DecimalValueType::I16;

    fn maybe_from(value: DecimalValue) -> Option<i16> {
        match value {
            DecimalValue::I16(number) => Some(number),
            _ => None,
        }
    }

    ghost format_law = { refl };
}

impl NativeDecimalType for i32 {
    ghost VALUES_TYPE = { width.I32 };

    const VALUES_TYPE: DecimalValueType = DecimalValueType::I32;

    fn maybe_from(value: DecimalValue) -> Option<i32> {
        match value {
            DecimalValue::I32(number) => Some(number),
            _ => None,
        }
    }

    ghost format_law = { refl };
}

impl NativeDecimalType for i64 {
    ghost VALUES_TYPE = { width.I64 };

    const VALUES_TYPE: DecimalValueType = DecimalValueType::I64;

    fn maybe_from(value: DecimalValue) -> Option<i64> {
        match value {
            DecimalValue::I64(number) => Some(number),
            _ => None,
        }
    }

    ghost format_law = { refl };
}

impl NativeDecimalType for i128 {
    ghost VALUES_TYPE = { width.I128 };

    const VALUES_TYPE: DecimalValueType = DecimalValueType::I128;

    fn maybe_from(value: DecimalValue) -> Option<i128> {
        match value {
            DecimalValue::I128(number) => Some(number),
            _ => None,
        }
    }

    ghost format_law = { refl };
}
