//! The native types of the eight kinds.
ghost use Rattle.std.specs.Prelude.{◌≡◌, false, refl};
ghost use Rattle.std.specs.Cmp.{IsTotalOrder};
ghost use Rattle.std.specs.Ordering.{on, int_cmp, int_eq, is_le, is_lt, is_ge, is_gt};
ghost use Rattle.std.proofs.lemmas.Cmp.{on_total, int_cmp_total};
ghost use Rattle.vortex_number.specs.PType.{format_of, is_signed, byte_width_of};
ghost use Rattle.vortex_value.specs.PValue.{value_of};
ghost use Rattle.vortex_number.specs.declared.ptype.PType.{PType};
ghost use Rattle.vortex_number.specs.declared.ptype.PType.TheVariants as kind;

use crate::{PType, PValue, WholeNumber};
use std::cmp::Ordering;

/// A native type that holds the numbers of one kind.
pub trait NativePType: WholeNumber {
    ghost PTYPE: { PType };

    /// The kind of the type.
    const PTYPE: PType;

    /// The value of this kind and number.
    fn to_pvalue(self) -> PValue
        ensures { result ≡ value_of PTYPE (Self.number self) };

    /// Whether the value is no number, as none is.
    fn is_nan(self) -> bool
        ensures { result ≡ false }
    {
        false
    }

    /// Whether the value is infinite, as none is.
    fn is_infinite(self) -> bool
        ensures { result ≡ false }
    {
        false
    }

    /// The order of the numbers.
    fn total_compare(self, other: Self) -> Ordering
        ensures { result ≡ int_cmp (Self.number self) (Self.number other) }
    {
        self.to_i128().cmp(&other.to_i128())
    }

    fn is_le(self, other: Self) -> bool
        ensures { result ≡ is_le (int_cmp (Self.number self) (Self.number other)) }
    {
        self.total_compare(other).is_le()
    }

    fn is_lt(self, other: Self) -> bool
        ensures { result ≡ is_lt (int_cmp (Self.number self) (Self.number other)) }
    {
        self.total_compare(other).is_lt()
    }

    fn is_ge(self, other: Self) -> bool
        ensures { result ≡ is_ge (int_cmp (Self.number self) (Self.number other)) }
    {
        self.total_compare(other).is_ge()
    }

    fn is_gt(self, other: Self) -> bool
        ensures { result ≡ is_gt (int_cmp (Self.number self) (Self.number other)) }
    {
        self.total_compare(other).is_gt()
    }

    fn is_eq(self, other: Self) -> bool
        ensures { result ≡ int_eq (Self.number self) (Self.number other) }
    {
        self.total_compare(other).is_eq()
    }

    // The type holds the numbers of its kind.
    ghost format_law: { Self.format ≡ format_of PTYPE };

    // The order of the numbers is a total order of the values.
    ghost total_law: { IsTotalOrder (on Self.number int_cmp) } = { on_total
        Self.number int_cmp_total };
}

/// A native type beside the one of the same width without a sign.
pub trait PhysicalPType: NativePType {
    type Physical: NativePType;

    // The two have the same width.
    ghost width_law: { byte_width_of Self.Physical.PTYPE ≡ byte_width_of Self.PTYPE };

    // The physical one has no sign.
    ghost sign_law: { is_signed Self.Physical.PTYPE ≡ false };
}

impl NativePType for u8 {
    ghost PTYPE = { kind.U8 };

    const PTYPE: PType = PType::U8;

    fn to_pvalue(self) -> PValue {
        PValue::U8(self)
    }

    ghost format_law = { refl };
}

impl PhysicalPType for u8 {
    type Physical = u8;

    ghost width_law = { refl };

    ghost sign_law = { refl };
}

impl NativePType for u16 {
    ghost PTYPE = { kind.U16 };

    const PTYPE: PType = PType::U16;

    fn to_pvalue(self) -> PValue {
        PValue::U16(self)
    }

    ghost format_law = { refl };
}

impl PhysicalPType for u16 {
    type Physical = u16;

    ghost width_law = { refl };

    ghost sign_law = { refl };
}

impl NativePType for u32 {
    ghost PTYPE = { kind.U32 };

    const PTYPE: PType = PType::U32;

    fn to_pvalue(self) -> PValue {
        PValue::U32(self)
    }

    ghost format_law = { refl };
}

impl PhysicalPType for u32 {
    type Physical = u32;

    ghost width_law = { refl };

    ghost sign_law = { refl };
}

impl NativePType for u64 {
    ghost PTYPE = { kind.U64 };

    const PTYPE: PType = PType::U64;

    fn to_pvalue(self) -> PValue {
        PValue::U64(self)
    }

    ghost format_law = { refl };
}

impl PhysicalPType for u64 {
    type Physical = u64;

    ghost width_law = { refl };

    ghost sign_law = { refl };
}

impl NativePType for i8 {
    ghost PTYPE = { kind.I8 };

    const PTYPE: PType = PType::I8;

    fn to_pvalue(self) -> PValue {
        PValue::I8(self)
    }

    ghost format_law = { refl };
}

impl PhysicalPType for i8 {
    type Physical = u8;

    ghost width_law = { refl };

    ghost sign_law = { refl };
}

impl NativePType for i16 {
    ghost PTYPE = { kind.I16 };

    const PTYPE: PType = PType::I16;

    fn to_pvalue(self) -> PValue {
        PValue::I16(self)
    }

    ghost format_law = { refl };
}

impl PhysicalPType for i16 {
    type Physical = u16;

    ghost width_law = { refl };

    ghost sign_law = { refl };
}

impl NativePType for i32 {
    ghost PTYPE = { kind.I32 };

    const PTYPE: PType = PType::I32;

    fn to_pvalue(self) -> PValue {
        PValue::I32(self)
    }

    ghost format_law = { refl };
}

impl PhysicalPType for i32 {
    type Physical = u32;

    ghost width_law = { refl };

    ghost sign_law = { refl };
}

impl NativePType for i64 {
    ghost PTYPE = { kind.I64 };

    const PTYPE: PType = PType::I64;

    fn to_pvalue(self) -> PValue {
        PValue::I64(self)
    }

    ghost format_law = { refl };
}

impl PhysicalPType for i64 {
    type Physical = u64;

    ghost width_law = { refl };

    ghost sign_law = { refl };
}
