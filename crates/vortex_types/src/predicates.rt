//! Which kind a type is of.

ghost use Rattle.std.specs.Prelude.{◌≡◌, false};
ghost use Rattle.vortex_terms.specs.Types.{is_extension as extension_term};
ghost use Rattle.vortex_types.specs.Predicates as term;
ghost use Rattle.vortex_types.specs.DTypes.{term_of};

use crate::dtype::DType;

impl DType {
    /// Whether its rows are truth values.
    pub fn is_boolean(&self) -> bool
        ensures { result ≡ term.is_boolean (term_of self.now) }
    {
        matches!(self, DType::Bool(_))
    }

    /// Whether its rows are whole numbers of a kind.
    pub fn is_primitive(&self) -> bool
        ensures { result ≡ term.is_primitive (term_of self.now) }
    {
        matches!(self, DType::Primitive(_, _))
    }

    /// Whether its rows are whole numbers without a sign.
    pub fn is_unsigned_int(&self) -> bool
        ensures { result ≡ term.is_unsigned_int (term_of self.now) }
    {
        match self {
            DType::Primitive(ptype, _) => ptype.is_unsigned_int(),
            _ => false,
        }
    }

    /// Whether its rows are whole numbers with a sign.
    pub fn is_signed_int(&self) -> bool
        ensures { result ≡ term.is_signed_int (term_of self.now) }
    {
        match self {
            DType::Primitive(ptype, _) => ptype.is_signed_int(),
            _ => false,
        }
    }

    /// Whether its rows are whole numbers.
    pub fn is_int(&self) -> bool
        ensures { result ≡ term.is_primitive (term_of self.now) }
    {
        match self {
            DType::Primitive(ptype, _) => ptype.is_int(),
            _ => false,
        }
    }

    /// Whether its rows are floats, as those of no type are.
    pub fn is_float(&self) -> bool
        ensures { result ≡ false }
    {
        match self {
            DType::Primitive(ptype, _) => ptype.is_float(),
            _ => false,
        }
    }

    /// Whether its rows are decimals.
    pub fn is_decimal(&self) -> bool
        ensures { result ≡ term.is_decimal (term_of self.now) }
    {
        matches!(self, DType::Decimal(_, _))
    }

    /// Whether its rows are texts.
    pub fn is_utf8(&self) -> bool
        ensures { result ≡ term.is_utf8 (term_of self.now) }
    {
        matches!(self, DType::Utf8(_))
    }

    /// Whether its rows are bytes.
    pub fn is_binary(&self) -> bool
        ensures { result ≡ term.is_binary (term_of self.now) }
    {
        matches!(self, DType::Binary(_))
    }

    /// Whether its rows are lists of any length.
    pub fn is_list(&self) -> bool
        ensures { result ≡ term.is_list (term_of self.now) }
    {
        matches!(self, DType::List(_, _))
    }

    /// Whether its rows are lists of one length.
    pub fn is_fixed_size_list(&self) -> bool
        ensures { result ≡ term.is_fixed_size_list (term_of self.now) }
    {
        matches!(self, DType::FixedSizeList(_, _, _))
    }

    /// Whether its rows are structs.
    pub fn is_struct(&self) -> bool
        ensures { result ≡ term.is_struct (term_of self.now) }
    {
        matches!(self, DType::Struct(_, _))
    }

    /// Whether it is an extension type.
    pub fn is_extension(&self) -> bool
        ensures { result ≡ extension_term (term_of self.now) }
    {
        matches!(self, DType::Extension(_))
    }
}
