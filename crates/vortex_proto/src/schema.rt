//! The numbers of the fields of the messages of types and paths.

ghost use Rattle.std.specs.Prelude.{◌≡◌};

/// The least number of a kind of type.
pub(crate) const FIRST_KIND: u32 = 1;

/// The greatest number of a kind of type.
pub(crate) const LAST_KIND: u32 = 10;

/// Whether truth values, texts and bytes are nullable.
pub const PLAIN_NULLABLE: u32 = 1;

/// The number of the kind of whole numbers.
pub const PRIMITIVE_PTYPE: u32 = 1;

/// Whether whole numbers are nullable.
pub const PRIMITIVE_NULLABLE: u32 = 2;

/// How many digits a decimal has.
pub const DECIMAL_PRECISION: u32 = 1;

/// How many of them stand behind the point.
pub const DECIMAL_SCALE: u32 = 2;

/// Whether decimals are nullable.
pub const DECIMAL_NULLABLE: u32 = 3;

/// The names of a struct.
pub const STRUCT_NAMES: u32 = 1;

/// The types of a struct.
pub const STRUCT_DTYPES: u32 = 2;

/// Whether structs are nullable.
pub const STRUCT_NULLABLE: u32 = 3;

/// The type of what is in a list.
pub const LIST_ELEMENT: u32 = 1;

/// Whether lists are nullable.
pub const LIST_NULLABLE: u32 = 2;

/// The id of an extension.
pub const EXTENSION_ID: u32 = 1;

/// The type in which an extension is stored.
pub const EXTENSION_STORAGE: u32 = 2;

/// The metadata of an extension.
pub const EXTENSION_METADATA: u32 = 3;

/// The type of what is in a list of one length.
pub const FIXED_ELEMENT: u32 = 1;

/// How long each such list is.
pub const FIXED_SIZE: u32 = 2;

/// Whether such lists are nullable.
pub const FIXED_NULLABLE: u32 = 3;

pub(crate) const PATH_FIELDS: u32 = 1;

pub(crate) const FIELD_NAME: u32 = 1;

/// Which numbers the fields have. It does nothing when the program runs.
pub fn message_schema()
    ensures kinds { (FIRST_KIND ≡ 1) × (LAST_KIND ≡ 10) }
    ensures plain { PLAIN_NULLABLE ≡ 1 }
    ensures primitive { (PRIMITIVE_PTYPE ≡ 1) × (PRIMITIVE_NULLABLE ≡ 2) }
    ensures decimal { (DECIMAL_PRECISION ≡ 1) × (DECIMAL_SCALE ≡ 2) × (DECIMAL_NULLABLE ≡ 3) }
    ensures structs { (STRUCT_NAMES ≡ 1) × (STRUCT_DTYPES ≡ 2) × (STRUCT_NULLABLE ≡ 3) }
    ensures list { (LIST_ELEMENT ≡ 1) × (LIST_NULLABLE ≡ 2) }
    ensures extension { (EXTENSION_ID ≡ 1) × (EXTENSION_STORAGE ≡ 2) × (EXTENSION_METADATA ≡ 3) }
    ensures fixed { (FIXED_ELEMENT ≡ 1) × (FIXED_SIZE ≡ 2) × (FIXED_NULLABLE ≡ 3) }
    ensures path { (PATH_FIELDS ≡ 1) × (FIELD_NAME ≡ 1) }
{}
