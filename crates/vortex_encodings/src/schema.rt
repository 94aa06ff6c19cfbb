//! The names of the encodings.

/// The encoding of rows that are all null.
pub const NULL: &str = "vortex.null";
/// The encoding of truth values.
pub const BOOL: &str = "vortex.bool";
/// The encoding of whole numbers.
pub const PRIMITIVE: &str = "vortex.primitive";
/// The encoding of decimals.
pub const DECIMAL: &str = "vortex.decimal";
/// The encoding of texts and bytes of any length.
pub const VARBIN: &str = "vortex.varbin";
/// The encoding of lists of any length.
pub const LIST: &str = "vortex.list";
/// The encoding of lists of one length.
pub const FIXED_SIZE_LIST: &str = "vortex.fixed_size_list";
/// The encoding of structs.
pub const STRUCT: &str = "vortex.struct";
/// The encoding of extensions.
pub const EXT: &str = "vortex.ext";
/// The encoding of rows that are all the same.
pub const CONSTANT: &str = "vortex.constant";
/// The encoding of rows as places among values.
pub const DICT: &str = "vortex.dict";
