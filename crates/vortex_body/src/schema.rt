//! The numbers of the fields of each table of a body.

ghost use Rattle.std.specs.Prelude.{◌≡◌};

/// The root's field that leads to the root node.
pub const ROOT_NODE: u16 = 0;

/// The root's field that leads to the descriptors of the buffers.
pub const ROOT_DESCRIPTORS: u16 = 1;

/// The place of the encoding among the names of the header.
pub const NODE_ENCODING: u16 = 0;

pub const NODE_METADATA: u16 = 1;

pub const NODE_CHILDREN: u16 = 2;

/// The places of the node's buffers among the descriptors.
pub const NODE_BUFFERS: u16 = 3;

/// Which numbers the fields have. It does nothing when the program runs.
pub fn body_schema()
    ensures root { (ROOT_NODE ≡ 0) × (ROOT_DESCRIPTORS ≡ 1) }
    ensures node { (NODE_ENCODING ≡ 0) × (NODE_METADATA ≡ 1) × (NODE_CHILDREN ≡ 2)
        × (NODE_BUFFERS ≡ 3) }
{}
