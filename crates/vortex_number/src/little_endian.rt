//! Numbers as bytes, the lowest first.
ghost use Rattle.std.specs.Prelude.{◌≡◌, ◌==◌, ◌++◌, List, ℕ, length, MatchResult, if◌then◌else◌};
ghost use Rattle.std.specs.Prelude.{Ok, Err};
ghost use Rattle.std.specs.Int.{w8, w16, w32, w64, w128, cast_unsigned, cast_signed};
ghost use Rattle.vortex_number.specs.Format.{le_bytes as low_first, number_of_le_bytes};
ghost use Rattle.vortex_number.specs.declared.error.ValueError.TheVariants.{OutOfMemory, BadLength};

use crate::ValueError;

/// A value that is written as bytes, the lowest first.
pub trait ToBytes {
    // The bytes of the value.
    ghost le_bytes: { Self → List ℕ };

    /// Appends the bytes whole, or leaves `out` as it was.
    fn push_le(&self, out: &mut Vec<u8>) -> Result<(), ValueError>
        ensures { MatchResult result
            (λ _. out.new.items ≡ out.old.items ++ le_bytes self.now)
            (λ e. (e ≡ OutOfMemory) × (out.new.items ≡ out.old.items)) };
}

/// A value that is read from bytes, the lowest first.
pub trait TryFromBytes: Sized {
    // How many bytes there must be.
    ghost byte_width: { ℕ };

    // The value of so many bytes.
    ghost of_le_bytes: { List ℕ → Self };

    fn try_from_le_bytes(bytes: &[u8]) -> Result<Self, ValueError>
        ensures { result ≡ (if length bytes.now == byte_width
            then Ok (of_le_bytes bytes.now) else Err BadLength) };
}

fn append(out: &mut Vec<u8>, bytes: &[u8]) -> Result<(), ValueError>
    ensures { MatchResult result
        (λ _. out.new.items ≡ out.old.items ++ bytes.now)
        (λ e. (e ≡ OutOfMemory) × (out.new.items ≡ out.old.items)) }
{
    out.extend_from_slice(bytes)?;
    Ok(())
}

impl ToBytes for u8 {
    ghost le_bytes = { λ n. low_first w8 n };

    #[tactic(auto, unfolding(crate::specs::Format::le_bytes))]
    fn push_le(&self, out: &mut Vec<u8>) -> Result<(), ValueError> {
        append(out, &self.to_le_bytes())
    }
}

impl TryFromBytes for u8 {
    ghost byte_width = { 1 };

    ghost of_le_bytes = { λ bs. number_of_le_bytes w8 bs };

    #[tactic(auto, unfolding(crate::specs::Format::number_of_le_bytes))]
    fn try_from_le_bytes(bytes: &[u8]) -> Result<u8, ValueError> {
        match bytes.try_into() {
            Ok(whole) => Ok(u8::from_le_bytes(whole)),
            Err(_) => Err(ValueError::BadLength),
        }
    }
}

impl ToBytes for u16 {
    ghost le_bytes = { λ n. low_first w16 n };

    #[tactic(auto, unfolding(crate::specs::Format::le_bytes))]
    fn push_le(&self, out: &mut Vec<u8>) -> Result<(), ValueError> {
        append(out, &self.to_le_bytes())
    }
}

impl TryFromBytes for u16 {
    ghost byte_width = { 2 };

    ghost of_le_bytes = { λ bs. number_of_le_bytes w16 bs };

    #[tactic(auto, unfolding(crate::specs::Format::number_of_le_bytes))]
    fn try_from_le_bytes(bytes: &[u8]) -> Result<u16, ValueError> {
        match bytes.try_into() {
            Ok(whole) => Ok(u16::from_le_bytes(whole)),
            Err(_) => Err(ValueError::BadLength),
        }
    }
}

impl ToBytes for u32 {
    ghost le_bytes = { λ n. low_first w32 n };

    #[tactic(auto, unfolding(crate::specs::Format::le_bytes))]
    fn push_le(&self, out: &mut Vec<u8>) -> Result<(), ValueError> {
        append(out, &self.to_le_bytes())
    }
}

impl TryFromBytes for u32 {
    ghost byte_width = { 4 };

    ghost of_le_bytes = { λ bs. number_of_le_bytes w32 bs };

    #[tactic(auto, unfolding(crate::specs::Format::number_of_le_bytes))]
    fn try_from_le_bytes(bytes: &[u8]) -> Result<u32, ValueError> {
        match bytes.try_into() {
            Ok(whole) => Ok(u32::from_le_bytes(whole)),
            Err(_) => Err(ValueError::BadLength),
        }
    }
}

impl ToBytes for u64 {
    ghost le_bytes = { λ n. low_first w64 n };

    #[tactic(auto, unfolding(crate::specs::Format::le_bytes))]
    fn push_le(&self, out: &mut Vec<u8>) -> Result<(), ValueError> {
        append(out, &self.to_le_bytes())
    }
}

impl TryFromBytes for u64 {
    ghost byte_width = { 8 };

    ghost of_le_bytes = { λ bs. number_of_le_bytes w64 bs };

    #[tactic(auto, unfolding(crate::specs::Format::number_of_le_bytes))]
    fn try_from_le_bytes(bytes: &[u8]) -> Result<u64, ValueError> {
        match bytes.try_into() {
            Ok(whole) => Ok(u64::from_le_bytes(whole)),
            Err(_) => Err(ValueError::BadLength),
        }
    }
}

impl ToBytes for i8 {
    ghost le_bytes = { λ z. low_first w8 (cast_unsigned w8 z) };

    #[tactic(auto, unfolding(crate::specs::Format::le_bytes))]
    fn push_le(&self, out: &mut Vec<u8>) -> Result<(), ValueError> {
        append(out, &self.to_le_bytes())
    }
}

impl TryFromBytes for i8 {
    ghost byte_width = { 1 };

    ghost of_le_bytes = { λ bs. cast_signed w8 (number_of_le_bytes w8 bs) };

    #[tactic(auto, unfolding(crate::specs::Format::number_of_le_bytes))]
    fn try_from_le_bytes(bytes: &[u8]) -> Result<i8, ValueError> {
        match bytes.try_into() {
            Ok(whole) => Ok(i8::from_le_bytes(whole)),
            Err(_) => Err(ValueError::BadLength),
        }
    }
}

impl ToBytes for i16 {
    ghost le_bytes = { λ z. low_first w16 (cast_unsigned w16 z) };

    #[tactic(auto, unfolding(crate::specs::Format::le_bytes))]
    fn push_le(&self, out: &mut Vec<u8>) -> Result<(), ValueError> {
        append(out, &self.to_le_bytes())
    }
}

impl TryFromBytes for i16 {
    ghost byte_width = { 2 };

    ghost of_le_bytes = { λ bs. cast_signed w16 (number_of_le_bytes w16 bs) };

    #[tactic(auto, unfolding(crate::specs::Format::number_of_le_bytes))]
    fn try_from_le_bytes(bytes: &[u8]) -> Result<i16, ValueError> {
        match bytes.try_into() {
            Ok(whole) => Ok(i16::from_le_bytes(whole)),
            Err(_) => Err(ValueError::BadLength),
        }
    }
}

impl ToBytes for i32 {
    ghost le_bytes = { λ z. low_first w32 (cast_unsigned w32 z) };

    #[tactic(auto, unfolding(crate::specs::Format::le_bytes))]
    fn push_le(&self, out: &mut Vec<u8>) -> Result<(), ValueError> {
        append(out, &self.to_le_bytes())
    }
}

impl TryFromBytes for i32 {
    ghost byte_width = { 4 };

    ghost of_le_bytes = { λ bs. cast_signed w32 (number_of_le_bytes w32 bs) };

    #[tactic(auto, unfolding(crate::specs::Format::number_of_le_bytes))]
    fn try_from_le_bytes(bytes: &[u8]) -> Result<i32, ValueError> {
        match bytes.try_into() {
            Ok(whole) => Ok(i32::from_le_bytes(whole)),
            Err(_) => Err(ValueError::BadLength),
        }
    }
}

impl ToBytes for i64 {
    ghost le_bytes = { λ z. low_first w64 (cast_unsigned w64 z) };

    #[tactic(auto, unfolding(crate::specs::Format::le_bytes))]
    fn push_le(&self, out: &mut Vec<u8>) -> Result<(), ValueError> {
        append(out, &self.to_le_bytes())
    }
}

impl TryFromBytes for i64 {
    ghost byte_width = { 8 };

    ghost of_le_bytes = { λ bs. cast_signed w64 (number_of_le_bytes w64 bs) };

    #[tactic(auto, unfolding(crate::specs::Format::number_of_le_bytes))]
    fn try_from_le_bytes(bytes: &[u8]) -> Result<i64, ValueError> {
        match bytes.try_into() {
            Ok(whole) => Ok(i64::from_le_bytes(whole)),
            Err(_) => Err(ValueError::BadLength),
        }
    }
}

impl ToBytes for i128 {
    ghost le_bytes = { λ z. low_first w128 (cast_unsigned w128 z) };

    #[tactic(auto, unfolding(crate::specs::Format::le_bytes))]
    fn push_le(&self, out: &mut Vec<u8>) -> Result<(), ValueError> {
        append(out, &self.to_le_bytes())
    }
}

impl TryFromBytes for i128 {
    ghost byte_width = { 16 };

    ghost of_le_bytes = { λ bs. cast_signed w128 (number_of_le_bytes w128 bs) };

    #[tactic(auto, unfolding(crate::specs::Format::number_of_le_bytes))]
    fn try_from_le_bytes(bytes: &[u8]) -> Result<i128, ValueError> {
        match bytes.try_into() {
            Ok(whole) => Ok(i128::from_le_bytes(whole)),
            Err(_) => Err(ValueError::BadLength),
        }
    }
}
