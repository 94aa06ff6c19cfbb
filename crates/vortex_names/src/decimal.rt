//! The precision and the scale of decimals.

ghost use Rattle.std.specs.Prelude.{◌≡◌, ◌-◌, ◌^◌, ◌<◌, ◌≤◌, length, pos, IsTrue, Some};
ghost use Rattle.vortex_terms.specs.Types.{IsDecimal};
ghost use Rattle.vortex_names.specs.Decimals.{decimal_of, IsBitLength, decimal_text};
ghost use Rattle.vortex_names.specs.inner.Widths.{are_widths};

use crate::error::DTypeError;
use std::fmt;
use std::marker::Model;

/// The most digits of a decimal of 128 bits.
pub const DECIMAL128_MAX_PRECISION: u8 = 38;

/// The most digits of a decimal.
pub const DECIMAL256_MAX_PRECISION: u8 = 76;

/// The most digits behind the point of a decimal of 128 bits.
pub const DECIMAL128_MAX_SCALE: i8 = 38;

/// The most digits behind the point of a decimal.
pub const DECIMAL256_MAX_SCALE: i8 = 76;

/// Which numbers the limits are. It does nothing when the program runs.
pub fn decimal_limits()
    ensures precision_128 { DECIMAL128_MAX_PRECISION ≡ 38 }
    ensures precision_256 { DECIMAL256_MAX_PRECISION ≡ 76 }
    ensures scale_128 { DECIMAL128_MAX_SCALE ≡ pos 38 }
    ensures scale_256 { DECIMAL256_MAX_SCALE ≡ pos 76 }
{}

/// How many binary digits the greatest number of 1 digit, 2 digits and so on has.
const BIT_WIDTHS: [u8; 76] = [
    4, 7, 10, 14, 17, 20, 24, 27, 30, 34, 37, 40, 44, 47, 50, 54, 57, 60, 64, 67, 70, 74, 77, 80,
    84, 87, 90, 94, 97, 100, 103, 107, 110, 113, 117, 120, 123, 127, 130, 133, 137, 140, 143, 147,
    150, 153, 157, 160, 163, 167, 170, 173, 177, 180, 183, 187, 190, 193, 196, 200, 203, 206, 210,
    213, 216, 220, 223, 226, 230, 233, 236, 240, 243, 246, 250, 253,
];

/// How many digits a decimal has, and how many of them stand behind the point.
#[derive(Clone, Copy, Debug, PartialEq, Eq, Hash)]
pub struct DecimalDType {
    precision: u8,
    scale: i8,
}

impl Model for DecimalDType {
    ghost use Rattle.vortex_terms.specs.Types.{IsDecimal};
    ghost use Rattle.vortex_names.specs.Decimals.{Decimal};

    ghost Value = { Decimal };

    ghost view = { λ d. record { precision = d.precision; scale = d.scale } };

    ghost invariant = { λ d. IsDecimal d.precision d.scale };

    ghost inverse = { λ d. record { precision = d.precision; scale = d.scale } };
}

impl DecimalDType {
    /// The decimal type of this precision and scale, if there is one.
    pub fn try_new(precision: u8, scale: i8) -> Result<DecimalDType, DTypeError>
        ensures { result ≡ decimal_of precision scale }
    {
        if precision == 0 {
            return Err(DTypeError::PrecisionZero);
        }
        if precision > DECIMAL256_MAX_PRECISION {
            return Err(DTypeError::PrecisionTooLarge);
        }
        if scale > DECIMAL256_MAX_SCALE {
            return Err(DTypeError::ScaleTooLarge);
        }
        if scale > 0 && scale as u8 > precision {
            return Err(DTypeError::ScaleAbovePrecision);
        }
        Ok(DecimalDType { precision, scale })
    }

    /// The decimal type of this precision and scale.
    pub fn new(precision: u8, scale: i8) -> DecimalDType
        requires { IsDecimal precision scale }
        ensures { result ≡ record { precision = precision; scale = scale } }
    {
        DecimalDType { precision, scale }
    }

    /// There are 1 to 76 digits, and the scale is at most their number and at least -128. It does
    /// nothing when the program runs.
    pub fn law(&self)
        ensures { IsDecimal self.now.precision self.now.scale }
    {
        let _ = &self.precision;
    }

    /// How many digits there are.
    pub fn precision(&self) -> u8
        ensures value { result ≡ self.now.precision }
        ensures legal { IsDecimal self.now.precision self.now.scale }
    {
        self.precision
    }

    /// How many digits stand behind the point. Where it is negative, zeros stand before it.
    pub fn scale(&self) -> i8
        ensures value { result ≡ self.now.scale }
        ensures legal { IsDecimal self.now.precision self.now.scale }
    {
        self.scale
    }

    /// How many binary digits the greatest number of this precision has.
    pub fn required_bit_width(&self) -> usize
        ensures { IsBitLength (10 ^ self.now.precision - 1) result }
    {
        bit_width(&BIT_WIDTHS, self.precision)
    }
}

// The width at so many digits.
fn bit_width(widths: &[u8], digits: u8) -> usize
    requires table { IsTrue (are_widths 1 widths.now) }
    requires some { 0 < digits }
    requires within { digits ≤ length widths.now }
    ensures { IsBitLength (10 ^ digits - 1) result }
{
    usize::from(widths[digits as usize - 1])
}

impl fmt::Display for DecimalDType {
    ghost output = { λ d. Some (decimal_text d) };

    fn fmt<W: fmt::Write>(&self, f: &mut fmt::Formatter<W>) -> fmt::Result {
        let precision = self.precision;
        let scale = self.scale;
        write!(f, "decimal({precision},{scale})")
    }
}
