//! Comparisons by the number, conversions from native types, bytes and text.
ghost use Rattle.std.specs.Prelude.{◌≡◌, Some};
ghost use Rattle.std.specs.Ordering.{on, int_cmp, int_eq, as_partial_cmp};
ghost use Rattle.std.specs.Cmp.{partial_order_from_own_ties};
ghost use Rattle.std.specs.Cmp.Rules.{comparing, hashing};
ghost use Rattle.std.specs.Hash as fed;
ghost use Rattle.std.proofs.Common.{rules};
ghost use Rattle.vortex_number.specs.Format.{bytes_of};
ghost use Rattle.vortex_number.specs.PType.{format_of};
ghost use Rattle.vortex_value.specs.PValue.{kind_of, number_of, pvalue_text};
ghost use Rattle.vortex_value.specs.declared.pvalue.PValue.TheVariants.{U8, U16, U32, U64, I8, I16};
ghost use Rattle.vortex_value.specs.declared.pvalue.PValue.TheVariants.{I32, I64};

use super::PValue;
use crate::{ToBytes, ValueError};
use std::cmp::Ordering;
use std::fmt;
use std::hash::{Hash, Hasher};

impl PartialEq for PValue {
    ghost eq = { on number_of int_eq };

    ghost laws = { Prim.search (comparing, rules) };

    fn eq(&self, other: &PValue) -> bool {
        self.as_i128() == other.as_i128()
    }
}

impl Eq for PValue {
    ghost laws = { Prim.search (comparing, rules) };
}

impl PartialOrd for PValue {
    ghost partial_cmp = { as_partial_cmp (on number_of int_cmp) };

    ghost laws = { partial_order_from_own_ties
        (Prim.search (comparing, rules)) (Prim.search (comparing, rules)) };

    fn partial_cmp(&self, other: &PValue) -> Option<Ordering> {
        Some(self.cmp(other))
    }
}

impl Ord for PValue {
    ghost cmp = { on number_of int_cmp };

    ghost total = { Prim.search (comparing, rules) };

    ghost matches_partial_cmp = { Prim.search (comparing, rules) };

    ghost matches_eq = { Prim.search (comparing, rules) };

    fn cmp(&self, other: &PValue) -> Ordering {
        self.as_i128().cmp(&other.as_i128())
    }
}

impl Hash for PValue {
    ghost hash_input = { λ v. fed.i128 (number_of v) };

    ghost respects_eq = { Prim.search (hashing, rules) };

    fn hash<H: Hasher>(&self, state: &mut H) {
        self.as_i128().hash(state);
    }
}

impl From<u8> for PValue {
    ghost from_gives = { λ x v. v ≡ U8 x };

    fn from(value: u8) -> PValue {
        PValue::U8(value)
    }
}

impl From<u16> for PValue {
    ghost from_gives = { λ x v. v ≡ U16 x };

    fn from(value: u16) -> PValue {
        PValue::U16(value)
    }
}

impl From<u32> for PValue {
    ghost from_gives = { λ x v. v ≡ U32 x };

    fn from(value: u32) -> PValue {
        PValue::U32(value)
    }
}

impl From<u64> for PValue {
    ghost from_gives = { λ x v. v ≡ U64 x };

    fn from(value: u64) -> PValue {
        PValue::U64(value)
    }
}

impl From<i8> for PValue {
    ghost from_gives = { λ x v. v ≡ I8 x };

    fn from(value: i8) -> PValue {
        PValue::I8(value)
    }
}

impl From<i16> for PValue {
    ghost from_gives = { λ x v. v ≡ I16 x };

    fn from(value: i16) -> PValue {
        PValue::I16(value)
    }
}

impl From<i32> for PValue {
    ghost from_gives = { λ x v. v ≡ I32 x };

    fn from(value: i32) -> PValue {
        PValue::I32(value)
    }
}

impl From<i64> for PValue {
    ghost from_gives = { λ x v. v ≡ I64 x };

    fn from(value: i64) -> PValue {
        PValue::I64(value)
    }
}

impl From<usize> for PValue {
    ghost from_gives = { λ x v. v ≡ U64 x };

    fn from(value: usize) -> PValue {
        PValue::U64(value as u64)
    }
}

impl ToBytes for PValue {
    ghost le_bytes = { λ v. bytes_of (format_of (kind_of v)) (number_of v) };

    fn push_le(&self, out: &mut Vec<u8>) -> Result<(), ValueError> {
        match self {
            PValue::U8(number) => number.push_le(out),
            PValue::U16(number) => number.push_le(out),
            PValue::U32(number) => number.push_le(out),
            PValue::U64(number) => number.push_le(out),
            PValue::I8(number) => number.push_le(out),
            PValue::I16(number) => number.push_le(out),
            PValue::I32(number) => number.push_le(out),
            PValue::I64(number) => number.push_le(out),
        }
    }
}

impl fmt::Display for PValue {
    ghost output = { λ v. Some (pvalue_text v) };

    fn fmt<W: fmt::Write>(&self, f: &mut fmt::Formatter<W>) -> fmt::Result {
        write!(f, "{}{}", self.as_i128(), self.ptype())
    }
}
