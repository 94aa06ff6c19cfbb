//! The whole numbers of a type, as contracts see them.
ghost use Rattle.std.specs.Prelude.{◌≡◌, ℕ, List, ℤ, pos, unsigned_abs, IsTrue, if◌then◌else◌};
ghost use Rattle.std.specs.Prelude.{Some, None, refl};
ghost use Rattle.std.specs.Int.{w8, w16, w32, w64, w128, byte_len};
ghost use Rattle.std.proofs.Common.{sym, ap, ◌∙◌};
ghost use Rattle.vortex_number.specs.inner.FormatLaws.{number_with_bytes-bytes_of};
ghost use Rattle.vortex_number.specs.inner.FormatLaws.{unsigned_number_law};
ghost use Rattle.vortex_number.specs.Format.{Format, signed, unsigned, fits, bytes_of};
ghost use Rattle.vortex_number.specs.Format.{number_with_bytes};

use crate::{ToBytes, TryFromBytes};
use std::fmt::{Debug, Display};

/// A type of whole numbers in a fixed number of bits, of at most 128 with a sign.
pub trait WholeNumber: Copy + Debug + Display + ToBytes + TryFromBytes {
    // How the type holds numbers.
    ghost format: { Format };

    // The number that a value is.
    ghost number: { Self → ℤ };

    // The value that is a number which fits.
    ghost of_number: { ℤ → Self };

    fn to_i128(self) -> i128
        ensures value { result ≡ number self }
        ensures range { IsTrue (fits format result) };

    /// The value that is this number, where the type has it.
    fn from_i128(value: i128) -> Option<Self>
        ensures { result ≡ (if fits format value then Some (of_number value) else None) };

    // A number that fits is the number of its value.
    ghost number_law: { (z : ℤ) → IsTrue (fits format z) → number (of_number z) ≡ z };

    // No two values are one number.
    ghost value_law: { (x : Self) → of_number (number x) ≡ x };

    // The bytes that are written are those of the number, and a number is read from its bytes.
    ghost written_law: { (x : Self) → Self.le_bytes x ≡ bytes_of format (number x) };

    ghost read_law: { (bs : List ℕ) → number (Self.of_le_bytes bs) ≡ number_with_bytes format bs };

    ghost width_law: { Self.byte_width ≡ byte_len format.width };

    // A value is read from the bytes that were written of it.
    ghost read_back_law: { (x : Self) → IsTrue (fits format (number x))
        → Self.of_le_bytes (Self.le_bytes x) ≡ x } = { λ x h.
            sym (value_law (Self.of_le_bytes (Self.le_bytes x)))
            ∙ ap of_number (read_law (Self.le_bytes x)
            ∙ ap (number_with_bytes format) (written_law x)
            ∙ number_with_bytes-bytes_of format (number x) h)
            ∙ value_law x };
}

impl WholeNumber for u8 {
    ghost format = { unsigned w8 };

    ghost number = { pos };

    ghost of_number = { unsigned_abs };

    fn to_i128(self) -> i128 {
        self as i128
    }

    fn from_i128(value: i128) -> Option<u8> {
        u8::try_from(value).ok()
    }

    ghost number_law = { unsigned_number_law w8 };

    ghost value_law = { λ x. refl };

    ghost written_law = { λ x. refl };

    ghost read_law = { λ bs. refl };

    ghost width_law = { refl };
}

impl WholeNumber for u16 {
    ghost format = { unsigned w16 };

    ghost number = { pos };

    ghost of_number = { unsigned_abs };

    fn to_i128(self) -> i128 {
        self as i128
    }

    fn from_i128(value: i128) -> Option<u16> {
        u16::try_from(value).ok()
    }

    ghost number_law = { unsigned_number_law w16 };

    ghost value_law = { λ x. refl };

    ghost written_law = { λ x. refl };

    ghost read_law = { λ bs. refl };

    ghost width_law = { refl };
}

impl WholeNumber for u32 {
    ghost format = { unsigned w32 };

    ghost number = { pos };

    ghost of_number = { unsigned_abs };

    fn to_i128(self) -> i128 {
        self as i128
    }

    fn from_i128(value: i128) -> Option<u32> {
        u32::try_from(value).ok()
    }

    ghost number_law = { unsigned_number_law w32 };

    ghost value_law = { λ x. refl };

    ghost written_law = { λ x. refl };

    ghost read_law = { λ bs. refl };

    ghost width_law = { refl };
}

impl WholeNumber for u64 {
    ghost format = { unsigned w64 };

    ghost number = { pos };

    ghost of_number = { unsigned_abs };

    fn to_i128(self) -> i128 {
        self as i128
    }

    fn from_i128(value: i128) -> Option<u64> {
        u64::try_from(value).ok()
    }

    ghost number_law = { unsigned_number_law w64 };

    ghost value_law = { λ x. refl };

    ghost written_law = { λ x. refl };

    ghost read_law = { λ bs. refl };

    ghost width_law = { refl };
}

impl WholeNumber for i8 {
    ghost format = { signed w8 };

    ghost number = { λ z. z };

    ghost of_number = { λ z. z };

    fn to_i128(self) -> i128 {
        self as i128
    }

    fn from_i128(value: i128) -> Option<i8> {
        i8::try_from(value).ok()
    }

    ghost number_law = { λ z h. refl };

    ghost value_law = { λ x. refl };

    ghost written_law = { λ x. refl };

    ghost read_law = { λ bs. refl };

    ghost width_law = { refl };
}

impl WholeNumber for i16 {
    ghost format = { signed w16 };

    ghost number = { λ z. z };

    ghost of_number = { λ z. z };

    fn to_i128(self) -> i128 {
        self as i128
    }

    fn from_i128(value: i128) -> Option<i16> {
        i16::try_from(value).ok()
    }

    ghost number_law = { λ z h. refl };

    ghost value_law = { λ x. refl };

    ghost written_law = { λ x. refl };

    ghost read_law = { λ bs. refl };

    ghost width_law = { refl };
}

impl WholeNumber for i32 {
    ghost format = { signed w32 };

    ghost number = { λ z. z };

    ghost of_number = { λ z. z };

    fn to_i128(self) -> i128 {
        self as i128
    }

    fn from_i128(value: i128) -> Option<i32> {
        i32::try_from(value).ok()
    }

    ghost number_law = { λ z h. refl };

    ghost value_law = { λ x. refl };

    ghost written_law = { λ x. refl };

    ghost read_law = { λ bs. refl };

    ghost width_law = { refl };
}

impl WholeNumber for i64 {
    ghost format = { signed w64 };

    ghost number = { λ z. z };

    ghost of_number = { λ z. z };

    fn to_i128(self) -> i128 {
        self as i128
    }

    fn from_i128(value: i128) -> Option<i64> {
        i64::try_from(value).ok()
    }

    ghost number_law = { λ z h. refl };

    ghost value_law = { λ x. refl };

    ghost written_law = { λ x. refl };

    ghost read_law = { λ bs. refl };

    ghost width_law = { refl };
}

impl WholeNumber for i128 {
    ghost format = { signed w128 };

    ghost number = { λ z. z };

    ghost of_number = { λ z. z };

    fn to_i128(self) -> i128 {
        self
    }

    fn from_i128(value: i128) -> Option<i128> {
        Some(value)
    }

    ghost number_law = { λ z h. refl };

    ghost value_law = { λ x. refl };

    ghost written_law = { λ x. refl };

    ghost read_law = { λ bs. refl };

    ghost width_law = { refl };
}
