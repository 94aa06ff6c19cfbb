//! Plain types and rows.

#[derive(Clone, Copy, Debug, PartialEq, Eq)]
pub enum WholeKind {
    U8,
    U16,
    U32,
    U64,
    I8,
    I16,
    I32,
    I64,
}

/// A type: its flag says whether its rows may be null.
#[derive(Drop)]
#[cycle(types)]
pub enum PlainType {
    Null,
    Bool(bool),
    Primitive(WholeKind, bool),
    Decimal(u8, i8, bool),
    Utf8(bool),
    Binary(bool),
    Struct(PlainFields, bool),
    ListOf(Box<PlainType>, bool),
    Extension(Vec<u8>, Box<PlainType>, Option<Vec<u8>>),
    FixedSizeList(Box<PlainType>, u32, bool),
}

/// The fields of a struct, one after another.
#[derive(Drop)]
#[cycle(types)]
pub enum PlainFields {
    End,
    Field(Vec<u8>, Box<PlainType>, Box<PlainFields>),
}

/// A row.
#[derive(Drop)]
#[cycle(rows)]
pub enum PlainRow {
    Null,
    Truth(bool),
    Whole(i128),
    Bytes(Vec<u8>),
    Items(PlainRows),
}

/// The rows inside a list, one after another.
#[derive(Drop)]
#[cycle(rows)]
pub enum PlainRows {
    End,
    Row(Box<PlainRow>, Box<PlainRows>),
}

/// A relation of a row to a constant.
#[derive(Clone, Copy, Debug, PartialEq, Eq)]
pub enum PlainRelation {
    Equal,
    NotEqual,
    Less,
    AtMost,
    Greater,
    AtLeast,
}
