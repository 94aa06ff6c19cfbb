//! The kinds of whole numbers that a column can hold.
ghost use Rattle.std.specs.Prelude.{◌≡◌, ◌*◌, ◌≤◌, ◌↔◌, ℤ, true, false, not, Some, MatchOption};
ghost use Rattle.std.specs.Prelude.{IsTrue};
ghost use Rattle.std.specs.Ordering.{on, nat_cmp, as_partial_cmp};
ghost use Rattle.std.specs.Cmp.{partial_order_from_own_ties};
ghost use Rattle.std.specs.Cmp.Rules.{comparing};
ghost use Rattle.std.proofs.Common.{rules};
ghost use Rattle.vortex_number.specs.PType.{ptype_number, is_signed, byte_width_of, greatest};
ghost use Rattle.vortex_number.specs.PType.{in_range, ptype_text};
ghost use Rattle.vortex_number.specs.WholeKind.{whole_kind, ptype_of};
ghost use Rattle.vortex_terms.specs.Fits.{InRange};
ghost use Rattle.vortex_terms.specs.Term.{WholeKind};

use std::cmp::Ordering;
use std::fmt;

/// A kind of whole numbers: with a sign or without, in 8, 16, 32 or 64 bits.
#[derive(Clone, Copy, Debug, PartialEq, Eq, Hash)]
#[repr(u8)]
pub enum PType {
    U8 = 0,
    U16 = 1,
    U32 = 2,
    U64 = 3,
    I8 = 4,
    I16 = 5,
    I32 = 6,
    I64 = 7,
}

impl PType {
    /// The kind with this number, where there is one.
    pub fn from_number(number: u32) -> Option<PType>
        ensures { MatchOption result (8 ≤ number) (λ kind. ptype_number kind ≡ number) }
    {
        match number {
            0 => Some(PType::U8),
            1 => Some(PType::U16),
            2 => Some(PType::U32),
            3 => Some(PType::U64),
            4 => Some(PType::I8),
            5 => Some(PType::I16),
            6 => Some(PType::I32),
            7 => Some(PType::I64),
            _ => None,
        }
    }

    /// The number of the kind where it is written.
    pub fn number(self) -> u8
        ensures { result ≡ ptype_number self }
    {
        self as u8
    }

    pub fn is_unsigned_int(self) -> bool
        ensures { result ≡ not (is_signed self) }
    {
        matches!(self, PType::U8 | PType::U16 | PType::U32 | PType::U64)
    }

    pub fn is_signed_int(self) -> bool
        ensures { result ≡ is_signed self }
    {
        matches!(self, PType::I8 | PType::I16 | PType::I32 | PType::I64)
    }

    /// Whether it is a kind of whole numbers, as each is.
    pub fn is_int(self) -> bool
        ensures { result ≡ true }
    {
        self.is_unsigned_int() || self.is_signed_int()
    }

    /// Whether it is a kind of floats, as none is.
    pub fn is_float(self) -> bool
        ensures { result ≡ false }
    {
        !self.is_int()
    }

    pub fn byte_width(self) -> usize
        ensures { result ≡ byte_width_of self }
    {
        match self {
            PType::U8 | PType::I8 => 1,
            PType::U16 | PType::I16 => 2,
            PType::U32 | PType::I32 => 4,
            PType::U64 | PType::I64 => 8,
        }
    }

    pub fn bit_width(self) -> usize
        ensures { result ≡ byte_width_of self * 8 }
    {
        self.byte_width() * 8
    }

    /// The greatest number of the kind.
    pub fn max_value_as_u64(self) -> u64
        ensures { result ≡ greatest self }
    {
        match self {
            PType::U8 => u8::MAX as u64,
            PType::U16 => u16::MAX as u64,
            PType::U32 => u32::MAX as u64,
            PType::U64 => u64::MAX,
            PType::I8 => i8::MAX as u64,
            PType::I16 => i16::MAX as u64,
            PType::I32 => i32::MAX as u64,
            PType::I64 => i64::MAX as u64,
        }
    }

    /// The kind of the same width with a sign.
    pub fn to_signed(self) -> PType
        ensures width { byte_width_of result ≡ byte_width_of self }
        ensures sign { is_signed result ≡ true }
    {
        match self {
            PType::U8 | PType::I8 => PType::I8,
            PType::U16 | PType::I16 => PType::I16,
            PType::U32 | PType::I32 => PType::I32,
            PType::U64 | PType::I64 => PType::I64,
        }
    }

    /// The kind of the same width without a sign.
    pub fn to_unsigned(self) -> PType
        ensures width { byte_width_of result ≡ byte_width_of self }
        ensures sign { is_signed result ≡ false }
    {
        match self {
            PType::U8 | PType::I8 => PType::U8,
            PType::U16 | PType::I16 => PType::U16,
            PType::U32 | PType::I32 => PType::U32,
            PType::U64 | PType::I64 => PType::U64,
        }
    }
}

impl PartialOrd for PType {
    ghost partial_cmp = { as_partial_cmp (on ptype_number nat_cmp) };

    ghost laws = { partial_order_from_own_ties
        (Prim.search (comparing, rules)) (Prim.search (comparing, rules)) };

    /// The order of the numbers.
    fn partial_cmp(&self, other: &PType) -> Option<Ordering> {
        self.number().partial_cmp(&other.number())
    }
}

/// The kinds are those of the terms of types, and have the same ranges. It does nothing when the
/// program runs.
pub fn kinds_are_whole_kinds()
    ensures there { (p : PType) → ptype_of (whole_kind p) ≡ p }
    ensures back { (k : WholeKind) → whole_kind (ptype_of k) ≡ k }
    ensures range { (p : PType) (z : ℤ) → IsTrue (in_range p z) ↔ InRange (whole_kind p) z }
{}

impl fmt::Display for PType {
    ghost output = { λ kind. Some (ptype_text kind) };

    ghost styled_output = { λ kind _. Some (ptype_text kind) };

    fn fmt<W: fmt::Write>(&self, f: &mut fmt::Formatter<W>) -> fmt::Result {
        f.write_str(match self {
            PType::U8 => "u8",
            PType::U16 => "u16",
            PType::U32 => "u32",
            PType::U64 => "u64",
            PType::I8 => "i8",
            PType::I16 => "i16",
            PType::I32 => "i32",
            PType::I64 => "i64",
        })
    }
}
