//! Whether rows may be null.

ghost use Rattle.std.specs.Prelude.{◌≡◌, Some};
ghost use Rattle.vortex_names.specs.declared.nullable.Nullability.TheVariants.{NonNullable};
ghost use Rattle.vortex_names.specs.Nullable.{is_nullable, nullability_of, either, mark, verbose};

use std::fmt;
use std::ops::BitOr;

/// Whether rows of a type may be null.
#[derive(Clone, Copy, Debug, PartialEq, Eq, Hash)]
pub enum Nullability {
    /// No row is null.
    NonNullable,
    /// A row may be null.
    Nullable,
}

impl Nullability {
    /// A text that shows both, unlike that of `Display`.
    pub fn verbose_display(&self) -> &'static str
        ensures { result.now ≡ verbose self.now }
    {
        match self {
            Nullability::NonNullable => "NonNullable",
            Nullability::Nullable => "Nullable",
        }
    }
}

impl Default for Nullability {
    ghost is_default = { λ n. n ≡ NonNullable };

    fn default() -> Nullability {
        Nullability::NonNullable
    }
}

impl BitOr for Nullability {
    type Output = Nullability;

    ghost bitor_gives = { λ a b n. n ≡ either a b };

    fn bitor(self, rhs: Nullability) -> Nullability {
        match (self, rhs) {
            (Nullability::NonNullable, Nullability::NonNullable) => Nullability::NonNullable,
            _ => Nullability::Nullable,
        }
    }
}

impl From<bool> for Nullability {
    ghost from_gives = { λ b n. n ≡ nullability_of b };

    fn from(value: bool) -> Nullability {
        if value {
            Nullability::Nullable
        } else {
            Nullability::NonNullable
        }
    }
}

impl From<Nullability> for bool {
    ghost from_gives = { λ n b. b ≡ is_nullable n };

    fn from(value: Nullability) -> bool {
        match value {
            Nullability::NonNullable => false,
            Nullability::Nullable => true,
        }
    }
}

impl fmt::Display for Nullability {
    ghost output = { λ n. Some (mark n) };

    ghost styled_output = { λ n _. Some (mark n) };

    fn fmt<W: fmt::Write>(&self, f: &mut fmt::Formatter<W>) -> fmt::Result {
        match self {
            Nullability::NonNullable => Ok(()),
            Nullability::Nullable => f.write_str("?"),
        }
    }
}
