//! The numbers of the fields of the message of a value.

ghost use Rattle.std.specs.Prelude.{◌≡◌};
ghost use Rattle.vortex_scalar_value.specs.Standing.{most_levels};

/// The least number of a member.
pub(crate) const FIRST_MEMBER: u32 = 1;

/// The greatest number of a member, which would be a float.
pub(crate) const LAST_MEMBER: u32 = 10;

pub(crate) const NULL: u32 = 1;

pub(crate) const BOOL: u32 = 2;

pub(crate) const INT64: u32 = 3;

pub(crate) const UINT64: u32 = 4;

pub(crate) const STRING: u32 = 7;

pub(crate) const BYTES: u32 = 8;

pub(crate) const LIST: u32 = 9;

/// Of the message of a list.
pub(crate) const LIST_VALUES: u32 = 1;

/// Which numbers the fields have. It does nothing when the program runs.
pub fn value_schema()
    ensures members { (FIRST_MEMBER ≡ 1) × (LAST_MEMBER ≡ 10) }
    ensures small { (NULL ≡ 1) × (BOOL ≡ 2) }
    ensures numbers { (INT64 ≡ 3) × (UINT64 ≡ 4) }
    ensures bytes { (STRING ≡ 7) × (BYTES ≡ 8) }
    ensures lists { (LIST ≡ 9) × (LIST_VALUES ≡ 1) }
    ensures levels { most_levels ≡ 128 }
{}
