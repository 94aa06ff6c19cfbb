//! The schema of bodies: the tables of types and of arrays, this project's own, over flat buffers,
//! and the numbers of their fields.

ghost use Rattle.std.specs.Prelude.{◌≡◌};

/// The field of table `DType` that holds the kind of the type.
pub const DTYPE_KIND: u16 = 0;
/// The field of table `DType` that leads to the table of the kind.
pub const DTYPE_INNER: u16 = 1;

/// The kind of a primitive type.
pub const PRIMITIVE: u8 = 3;

/// The field of table `Primitive` that holds the ptype.
pub const PRIMITIVE_PTYPE: u16 = 0;
/// The field of table `Primitive` that tells whether rows may be null.
pub const PRIMITIVE_NULLABLE: u16 = 1;

/// The ptype of whole numbers of 64 signed bits.
pub const PTYPE_I64: u8 = 7;
/// What tells that no row is null.
pub const NEVER_NULL: u8 = 0;

/// The field of the root of an array's flat buffer that leads to the root node.
pub const BODY_NODE: u16 = 0;
/// The field of the root of an array's flat buffer that leads to the descriptors of the buffers.
pub const BODY_BUFFERS: u16 = 1;

/// The field of table `Node` that holds the place of the encoding among the names.
pub const NODE_ENCODING: u16 = 0;
/// The field of table `Node` that leads to the metadata.
pub const NODE_METADATA: u16 = 1;
/// The field of table `Node` that leads to the children.
pub const NODE_CHILDREN: u16 = 2;
/// The field of table `Node` that leads to the places of its buffers.
pub const NODE_BUFFERS: u16 = 3;

/// The name of the encoding of primitive arrays.
pub const PRIMITIVE_NAME: &str = "vortex.primitive";

/// Which numbers the schema of bodies has. It does nothing when the program runs.
pub fn body_schema()
    ensures dtype { (DTYPE_KIND ≡ 0) × (DTYPE_INNER ≡ 1) }
    ensures primitive { (PRIMITIVE ≡ 3) × (PRIMITIVE_PTYPE ≡ 0) × (PRIMITIVE_NULLABLE ≡ 1) }
    ensures column { (PTYPE_I64 ≡ 7) × (NEVER_NULL ≡ 0) }
    ensures body { (BODY_NODE ≡ 0) × (BODY_BUFFERS ≡ 1) }
    ensures node { (NODE_ENCODING ≡ 0) × (NODE_METADATA ≡ 1) × (NODE_CHILDREN ≡ 2) × (NODE_BUFFERS ≡ 3) }
{}
