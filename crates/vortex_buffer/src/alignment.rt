//! The alignment that a buffer is labelled with.
ghost use Rattle.std.specs.Prelude.{◌≡◌};

use std::marker::Model;

/// A power of two, by its exponent. It is a label of a buffer: no call moves bytes to honour it.
#[derive(Clone, Copy, Debug, PartialEq, Eq, PartialOrd, Ord, Hash)]
pub struct Alignment {
    exponent: u8,
}

impl Model for Alignment {
    ghost use Rattle.std.specs.Prelude.{ℕ};

    ghost Value = { ℕ };

    ghost view = { λ a. a.exponent };

    ghost inverse = { λ n. record { exponent = n } };
}

impl Alignment {
    /// The alignment to 2 to the power of `exponent`. Every exponent is taken.
    pub fn from_exponent(exponent: u8) -> Alignment
        ensures { result ≡ exponent }
    {
        Alignment { exponent }
    }

    pub fn exponent(self) -> u8
        ensures { result ≡ self }
    {
        self.exponent
    }
}
