//! Values of the eight kinds.
ghost use Rattle.std.specs.Prelude.{◌≡◌, ◌*◌, ◌^◌, ◌<◌, pos, ◌<ℤ◌, ◌↔◌, IsTrue, if◌then◌else◌};
ghost use Rattle.std.specs.Prelude.{Some, None, Ok, Err, int_lt, unsigned_abs};
ghost use Rattle.vortex_number.specs.Format.{fits};
ghost use Rattle.vortex_number.specs.PType.{byte_width_of};
ghost use Rattle.vortex_value.specs.PValue.{kind_of, number_of, value_of, value_bits};
ghost use Rattle.vortex_value.specs.PValue.{value_with_bits, as_unsigned, as_signed};
ghost use Rattle.vortex_number.specs.declared.ptype.PType.TheVariants as kind;

use crate::{NativePType, PType, ValueError};

mod impls;

/// A whole number and its kind. Equality, order and hash look at the number alone.
#[derive(Clone, Copy, Debug)]
pub enum PValue {
    U8(u8),
    U16(u16),
    U32(u32),
    U64(u64),
    I8(i8),
    I16(i16),
    I32(i32),
    I64(i64),
}

impl PValue {
    /// The number 0 of a kind.
    pub fn zero(ptype: PType) -> PValue
        ensures { result ≡ value_of ptype (pos 0) }
    {
        match ptype {
            PType::U8 => PValue::U8(0),
            PType::U16 => PValue::U16(0),
            PType::U32 => PValue::U32(0),
            PType::U64 => PValue::U64(0),
            PType::I8 => PValue::I8(0),
            PType::I16 => PValue::I16(0),
            PType::I32 => PValue::I32(0),
            PType::I64 => PValue::I64(0),
        }
    }

    pub fn ptype(&self) -> PType
        ensures { result ≡ kind_of self.now }
    {
        match self {
            PValue::U8(_) => PType::U8,
            PValue::U16(_) => PType::U16,
            PValue::U32(_) => PType::U32,
            PValue::U64(_) => PType::U64,
            PValue::I8(_) => PType::I8,
            PValue::I16(_) => PType::I16,
            PValue::I32(_) => PType::I32,
            PValue::I64(_) => PType::I64,
        }
    }

    pub fn is_instance_of(&self, ptype: &PType) -> bool
        ensures { IsTrue result ↔ (kind_of self.now ≡ ptype.now) }
    {
        self.ptype() == *ptype
    }

    /// The number of the value.
    pub fn as_i128(self) -> i128
        ensures value { result ≡ number_of self }
        ensures bound { result <ℤ pos (2 ^ 64) }
    {
        match self {
            PValue::U8(number) => number as i128,
            PValue::U16(number) => number as i128,
            PValue::U32(number) => number as i128,
            PValue::U64(number) => number as i128,
            PValue::I8(number) => number as i128,
            PValue::I16(number) => number as i128,
            PValue::I32(number) => number as i128,
            PValue::I64(number) => number as i128,
        }
    }

    /// The number as a native type in whose range it is.
    pub fn as_primitive<T: NativePType>(&self) -> T
        requires { IsTrue (fits T.format (number_of self.now)) }
        ensures value { result ≡ T.of_number (number_of self.now) }
        ensures number { T.number result ≡ number_of self.now }
    {
        self.as_primitive_opt().unwrap()
    }

    /// The number as a native type, where it is in the type's range.
    pub fn as_primitive_opt<T: NativePType>(&self) -> Option<T>
        ensures { result ≡ (if fits T.format (number_of self.now)
            then Some (T.of_number (number_of self.now)) else None) }
    {
        T::from_i128(self.as_i128())
    }

    // The bits, as a number without a sign.
    fn bits(self) -> u64
        ensures value { result ≡ value_bits self }
        ensures bound { result < 2 ^ (byte_width_of (kind_of self) * 8) }
    {
        match self {
            PValue::U8(number) => number as u64,
            PValue::U16(number) => number as u64,
            PValue::U32(number) => number as u64,
            PValue::U64(number) => number,
            PValue::I8(number) => number.cast_unsigned() as u64,
            PValue::I16(number) => number.cast_unsigned() as u64,
            PValue::I32(number) => number.cast_unsigned() as u64,
            PValue::I64(number) => number.cast_unsigned(),
        }
    }

    /// The value of another kind of the same width that has the same bits.
    pub fn reinterpret_cast(&self, ptype: PType) -> PValue
        requires { byte_width_of ptype ≡ byte_width_of (kind_of self.now) }
        ensures { result ≡ value_with_bits ptype (value_bits self.now) }
    {
        let bits = self.bits();
        match ptype {
            PType::U8 => PValue::U8(bits as u8),
            PType::U16 => PValue::U16(bits as u16),
            PType::U32 => PValue::U32(bits as u32),
            PType::U64 => PValue::U64(bits),
            PType::I8 => PValue::I8((bits as u8).cast_signed()),
            PType::I16 => PValue::I16((bits as u16).cast_signed()),
            PType::I32 => PValue::I32((bits as u32).cast_signed()),
            PType::I64 => PValue::I64(bits.cast_signed()),
        }
    }

    /// The number as `u8`, where it is in range.
    pub fn as_u8(self) -> Option<u8>
        ensures { result ≡ as_unsigned kind.U8 (number_of self) }
    {
        self.as_primitive_opt()
    }

    /// The number as `u16`, where it is in range.
    pub fn as_u16(self) -> Option<u16>
        ensures { result ≡ as_unsigned kind.U16 (number_of self) }
    {
        self.as_primitive_opt()
    }

    /// The number as `u32`, where it is in range.
    pub fn as_u32(self) -> Option<u32>
        ensures { result ≡ as_unsigned kind.U32 (number_of self) }
    {
        self.as_primitive_opt()
    }

    /// The number as `u64`, where it is in range.
    pub fn as_u64(self) -> Option<u64>
        ensures { result ≡ as_unsigned kind.U64 (number_of self) }
    {
        self.as_primitive_opt()
    }

    /// The number as `i8`, where it is in range.
    pub fn as_i8(self) -> Option<i8>
        ensures { result ≡ as_signed kind.I8 (number_of self) }
    {
        self.as_primitive_opt()
    }

    /// The number as `i16`, where it is in range.
    pub fn as_i16(self) -> Option<i16>
        ensures { result ≡ as_signed kind.I16 (number_of self) }
    {
        self.as_primitive_opt()
    }

    /// The number as `i32`, where it is in range.
    pub fn as_i32(self) -> Option<i32>
        ensures { result ≡ as_signed kind.I32 (number_of self) }
    {
        self.as_primitive_opt()
    }

    /// The number as `i64`, where it is in range.
    pub fn as_i64(self) -> Option<i64>
        ensures { result ≡ as_signed kind.I64 (number_of self) }
    {
        self.as_primitive_opt()
    }

    /// The number as a length. It is refused where it is below 0.
    pub fn try_usize(self) -> Result<usize, ValueError>
        ensures { result ≡ (if int_lt (number_of self) (pos 0)
            then Err ValueError.OutOfRange else Ok (unsigned_abs (number_of self))) }
    {
        let number = self.as_i128();
        if number < 0 {
            Err(ValueError::OutOfRange)
        } else {
            Ok(number as usize)
        }
    }
}
