//! The encodings of arrays.

ghost use Rattle.std.specs.Prelude.{◌≡◌};
ghost use Rattle.vortex_node_rows.specs.Encodings.{encoding_name, encoding_named};

use vortex_encodings::schema;

/// How rows are laid out in a node.
#[derive(Clone, Copy, Debug, PartialEq, Eq)]
pub enum Encoding {
    Null,
    Bool,
    Primitive,
    Decimal,
    VarBin,
    List,
    FixedSizeList,
    Struct,
    Ext,
    Constant,
}

impl Encoding {
    /// The name of the encoding, as headers tell it.
    pub fn name(self) -> &'static str
        ensures { result.now ≡ encoding_name self }
    {
        match self {
            Encoding::Null => schema::NULL,
            Encoding::Bool => schema::BOOL,
            Encoding::Primitive => schema::PRIMITIVE,
            Encoding::Decimal => schema::DECIMAL,
            Encoding::VarBin => schema::VARBIN,
            Encoding::List => schema::LIST,
            Encoding::FixedSizeList => schema::FIXED_SIZE_LIST,
            Encoding::Struct => schema::STRUCT,
            Encoding::Ext => schema::EXT,
            Encoding::Constant => schema::CONSTANT,
        }
    }

    /// The encoding of this name.
    pub fn from_name(name: &str) -> Option<Encoding>
        ensures { result ≡ encoding_named name.now }
    {
        match name {
            schema::NULL => Some(Encoding::Null),
            schema::BOOL => Some(Encoding::Bool),
            schema::PRIMITIVE => Some(Encoding::Primitive),
            schema::DECIMAL => Some(Encoding::Decimal),
            schema::VARBIN => Some(Encoding::VarBin),
            schema::LIST => Some(Encoding::List),
            schema::FIXED_SIZE_LIST => Some(Encoding::FixedSizeList),
            schema::STRUCT => Some(Encoding::Struct),
            schema::EXT => Some(Encoding::Ext),
            schema::CONSTANT => Some(Encoding::Constant),
            _ => None,
        }
    }
}
