//! The kinds of types.

ghost use Rattle.std.specs.Prelude.{◌≡◌, Some};
ghost use Rattle.vortex_schema.specs.Kind.{kind_from};

/// The kind of a type, by which its table is read.
#[derive(Clone, Copy, Debug, PartialEq, Eq)]
pub enum TypeKind {
    Null = 1,
    Bool = 2,
    Primitive = 3,
    Decimal = 4,
    Utf8 = 5,
    Binary = 6,
    Struct = 7,
    List = 8,
    Extension = 9,
    FixedSizeList = 10,
}

impl TypeKind {
    /// The kind with this number, where there is one.
    pub(crate) fn from_number(number: u8) -> Option<TypeKind>
        ensures { result ≡ kind_from number }
    {
        match number {
            1 => Some(TypeKind::Null),
            2 => Some(TypeKind::Bool),
            3 => Some(TypeKind::Primitive),
            4 => Some(TypeKind::Decimal),
            5 => Some(TypeKind::Utf8),
            6 => Some(TypeKind::Binary),
            7 => Some(TypeKind::Struct),
            8 => Some(TypeKind::List),
            9 => Some(TypeKind::Extension),
            10 => Some(TypeKind::FixedSizeList),
            _ => None,
        }
    }

    /// The number of the kind where it is written.
    pub fn number(self) -> u8
        ensures { kind_from result ≡ Some self }
    {
        self as u8
    }
}
