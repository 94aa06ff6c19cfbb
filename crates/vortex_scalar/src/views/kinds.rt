//! Numbers of a kind.

ghost use Rattle.std.specs.Prelude.{◌≡◌, IfSome, Some, None, if◌then◌else◌};
ghost use Rattle.std.specs.Option.{option_map};
ghost use Rattle.vortex_number.specs.WholeKind.{whole_kind};
ghost use Rattle.vortex_terms.specs.Tests.{is_in_range};
ghost use Rattle.vortex_value.specs.PValue.{kind_of, number_of};

use vortex_value::{PType, PValue, WholeNumber};

/// The number of a value as one of a kind, where it is in the kind's range.
pub(super) fn of_kind(ptype: PType, value: PValue) -> Option<PValue>
    ensures number { let number = number_of value in option_map number_of result
        ≡ (if is_in_range (whole_kind ptype) number then Some number else None) }
    ensures kind { IfSome result (λ v. kind_of v ≡ ptype) }
{
    let number = value.as_i128();
    match ptype {
        PType::U8 => u8::from_i128(number).map(PValue::U8),
        PType::U16 => u16::from_i128(number).map(PValue::U16),
        PType::U32 => u32::from_i128(number).map(PValue::U32),
        PType::U64 => u64::from_i128(number).map(PValue::U64),
        PType::I8 => i8::from_i128(number).map(PValue::I8),
        PType::I16 => i16::from_i128(number).map(PValue::I16),
        PType::I32 => i32::from_i128(number).map(PValue::I32),
        PType::I64 => i64::from_i128(number).map(PValue::I64),
    }
}
