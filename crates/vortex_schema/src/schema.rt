//! The numbers of the fields of each table, as the schema of types has them.

ghost use Rattle.std.specs.Prelude.{◌≡◌};

pub const DTYPE_KIND: u16 = 0;

pub const DTYPE_TABLE: u16 = 1;

/// Of Bool, Utf8 and Binary.
pub const PLAIN_NULLABLE: u16 = 0;

pub const PRIMITIVE_PTYPE: u16 = 0;

pub const PRIMITIVE_NULLABLE: u16 = 1;

pub const DECIMAL_PRECISION: u16 = 0;

pub const DECIMAL_SCALE: u16 = 1;

pub const DECIMAL_NULLABLE: u16 = 2;

pub const STRUCT_NAMES: u16 = 0;

pub const STRUCT_DTYPES: u16 = 1;

pub const STRUCT_NULLABLE: u16 = 2;

pub const LIST_ELEMENT: u16 = 0;

pub const LIST_NULLABLE: u16 = 1;

pub const EXTENSION_ID: u16 = 0;

pub const EXTENSION_STORAGE: u16 = 1;

pub const EXTENSION_METADATA: u16 = 2;

pub const FIXED_ELEMENT: u16 = 0;

pub const FIXED_SIZE: u16 = 1;

pub const FIXED_NULLABLE: u16 = 2;

/// Which numbers the fields have. It does nothing when the program runs.
pub fn type_schema()
    ensures dtype { (DTYPE_KIND ≡ 0) × (DTYPE_TABLE ≡ 1) }
    ensures plain { PLAIN_NULLABLE ≡ 0 }
    ensures primitive { (PRIMITIVE_PTYPE ≡ 0) × (PRIMITIVE_NULLABLE ≡ 1) }
    ensures decimal { (DECIMAL_PRECISION ≡ 0) × (DECIMAL_SCALE ≡ 1) × (DECIMAL_NULLABLE ≡ 2) }
    ensures structure { (STRUCT_NAMES ≡ 0) × (STRUCT_DTYPES ≡ 1) × (STRUCT_NULLABLE ≡ 2) }
    ensures list { (LIST_ELEMENT ≡ 0) × (LIST_NULLABLE ≡ 1) }
    ensures extension { (EXTENSION_ID ≡ 0) × (EXTENSION_STORAGE ≡ 1) × (EXTENSION_METADATA ≡ 2) }
    ensures fixed { (FIXED_ELEMENT ≡ 0) × (FIXED_SIZE ≡ 1) × (FIXED_NULLABLE ≡ 2) }
{}
