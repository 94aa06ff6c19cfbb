//! Comparisons by the number, conversions from native types, bytes and text.
ghost use Rattle.std.specs.Prelude.{◌≡◌, Some, pos};
ghost use Rattle.std.specs.Ordering.{on, int_cmp, int_eq, as_partial_cmp};
ghost use Rattle.std.specs.Cmp.{partial_order_from_own_ties};
ghost use Rattle.std.specs.Cmp.Rules.{comparing, hashing};
ghost use Rattle.std.specs.Hash as fed;
ghost use Rattle.std.proofs.Common.{rules};
ghost use Rattle.vortex_number.specs.Format.{bytes_of};
ghost use Rattle.vortex_value.specs.DecimalValue.{width_of, decimal_number, decimal_format};
ghost use Rattle.vortex_value.specs.DecimalValue.{decimal_text};
ghost use Rattle.vortex_value.specs.declared.decimal.DecimalValue.TheVariants.{I8, I16, I32, I64};
ghost use Rattle.vortex_value.specs.declared.decimal.DecimalValue.TheVariants.{I128};

use super::DecimalValue;
use crate::{ToBytes, ValueError};
use std::cmp::Ordering;
use std::fmt;
use std::hash::{Hash, Hasher};

impl PartialEq for DecimalValue {
    ghost eq = { on decimal_number int_eq };

    ghost laws = { Prim.search (comparing, rules) };

    fn eq(&self, other: &DecimalValue) -> bool {
        self.as_i128() == other.as_i128()
    }
}

impl Eq for DecimalValue {
    ghost laws = { Prim.search (comparing, rules) };
}

impl PartialOrd for DecimalValue {
    ghost partial_cmp = { as_partial_cmp (on decimal_number int_cmp) };

    ghost laws = { partial_order_from_own_ties
        (Prim.search (comparing, rules)) (Prim.search (comparing, rules)) };

    fn partial_cmp(&self, other: &DecimalValue) -> Option<Ordering> {
        Some(self.cmp(other))
    }
}

impl Ord for DecimalValue {
    ghost cmp = { on decimal_number int_cmp };

    ghost total = { Prim.search (comparing, rules) };

    ghost matches_partial_cmp = { Prim.search (comparing, rules) };

    ghost matches_eq = { Prim.search (comparing, rules) };

    fn cmp(&self, other: &DecimalValue) -> Ordering {
        self.as_i128().cmp(&other.as_i128())
    }
}

impl Hash for DecimalValue {
    ghost hash_input = { λ v. fed.i128 (decimal_number v) };

    ghost respects_eq = { Prim.search (hashing, rules) };

    fn hash<H: Hasher>(&self, state: &mut H) {
        self.as_i128().hash(state);
    }
}

impl From<i8> for DecimalValue {
    ghost from_gives = { λ x v. v ≡ I8 x };

    fn from(value: i8) -> DecimalValue {
        DecimalValue::I8(value)
    }
}

impl From<i16> for DecimalValue {
    ghost from_gives = { λ x v. v ≡ I16 x };

    fn from(value: i16) -> DecimalValue {
        DecimalValue::I16(value)
    }
}

impl From<i32> for DecimalValue {
    ghost from_gives = { λ x v. v ≡ I32 x };

    fn from(value: i32) -> DecimalValue {
        DecimalValue::I32(value)
    }
}

impl From<i64> for DecimalValue {
    ghost from_gives = { λ x v. v ≡ I64 x };

    fn from(value: i64) -> DecimalValue {
        DecimalValue::I64(value)
    }
}

impl From<i128> for DecimalValue {
    ghost from_gives = { λ x v. v ≡ I128 x };

    fn from(value: i128) -> DecimalValue {
        DecimalValue::I128(value)
    }
}

impl From<u8> for DecimalValue {
    ghost from_gives = { λ x v. v ≡ I16 (pos x) };

    fn from(value: u8) -> DecimalValue {
        DecimalValue::I16(value as i16)
    }
}

impl From<u16> for DecimalValue {
    ghost from_gives = { λ x v. v ≡ I32 (pos x) };

    fn from(value: u16) -> DecimalValue {
        DecimalValue::I32(value as i32)
    }
}

impl From<u32> for DecimalValue {
    ghost from_gives = { λ x v. v ≡ I64 (pos x) };

    fn from(value: u32) -> DecimalValue {
        DecimalValue::I64(value as i64)
    }
}

impl From<u64> for DecimalValue {
    ghost from_gives = { λ x v. v ≡ I128 (pos x) };

    fn from(value: u64) -> DecimalValue {
        DecimalValue::I128(value as i128)
    }
}

impl ToBytes for DecimalValue {
    ghost le_bytes = { λ v. bytes_of (decimal_format (width_of v)) (decimal_number v) };

    fn push_le(&self, out: &mut Vec<u8>) -> Result<(), ValueError> {
        match self {
            DecimalValue::I8(number) => number.push_le(out),
            DecimalValue::I16(number) => number.push_le(out),
            DecimalValue::I32(number) => number.push_le(out),
            DecimalValue::I64(number) => number.push_le(out),
            DecimalValue::I128(number) => number.push_le(out),
        }
    }
}

impl fmt::Display for DecimalValue {
    ghost output = { λ v. Some (decimal_text v) };

    fn fmt<W: fmt::Write>(&self, f: &mut fmt::Formatter<W>) -> fmt::Result {
        match self {
            DecimalValue::I8(number) => write!(f, "decimal8({number})"),
            DecimalValue::I16(number) => write!(f, "decimal16({number})"),
            DecimalValue::I32(number) => write!(f, "decimal32({number})"),
            DecimalValue::I64(number) => write!(f, "decimal64({number})"),
            DecimalValue::I128(number) => write!(f, "decimal128({number})"),
        }
    }
}
