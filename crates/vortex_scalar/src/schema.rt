//! The numbers of the fields of the message of a scalar.

ghost use Rattle.std.specs.Prelude.{◌≡◌};

pub(crate) const SCALAR_DTYPE: u32 = 1;

pub(crate) const SCALAR_VALUE: u32 = 2;

/// Which numbers the fields have. It does nothing when the program runs.
pub fn scalar_schema()
    ensures { (SCALAR_DTYPE ≡ 1) × (SCALAR_VALUE ≡ 2) }
{}
