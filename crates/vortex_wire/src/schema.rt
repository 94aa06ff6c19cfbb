//! The numbers of the fields of the metadata records.

ghost use Rattle.std.specs.Prelude.{◌≡◌};

pub(crate) const DICT_VALUES_LEN: u32 = 1;

pub(crate) const DICT_CODES_PTYPE: u32 = 2;

pub(crate) const DICT_IS_NULLABLE_CODES: u32 = 3;

pub(crate) const DECIMAL_VALUE_TYPE: u32 = 1;

pub(crate) const LIST_ELEMENTS: u32 = 1;

/// Which numbers the fields have. It does nothing when the program runs.
pub fn metadata_schema()
    ensures dict { (DICT_VALUES_LEN ≡ 1) × (DICT_CODES_PTYPE ≡ 2) × (DICT_IS_NULLABLE_CODES ≡ 3) }
    ensures decimal { DECIMAL_VALUE_TYPE ≡ 1 }
    ensures list { LIST_ELEMENTS ≡ 1 }
{}
