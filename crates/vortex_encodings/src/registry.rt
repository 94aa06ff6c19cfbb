//! Which encodings a reader takes.

ghost use Rattle.std.specs.Prelude.{◌≡◌};
ghost use Rattle.vortex_encodings.specs.Encodings.{canonical_names, is_listed, names_of};

use crate::schema::{
    BOOL, CONSTANT, DECIMAL, EXT, FIXED_SIZE_LIST, LIST, NULL, PRIMITIVE, STRUCT, VARBIN,
};

/// The sets of encodings that a registry may hold.
#[derive(Clone, Copy, Debug, PartialEq, Eq)]
enum EncodingSet {
    Canonical,
}

/// The encodings that a reader takes, by their names.
#[derive(Clone, Copy, Debug, PartialEq, Eq)]
pub struct ArrayRegistry {
    set: EncodingSet,
}

impl ArrayRegistry {
    /// All encodings but that of dictionaries.
    pub fn canonical_only() -> ArrayRegistry
        ensures { names_of result ≡ canonical_names }
    {
        ArrayRegistry {
            set: EncodingSet::Canonical,
        }
    }

    /// Whether arrays in the encoding of this name are taken.
    pub fn holds(self, name: &str) -> bool
        ensures { result ≡ is_listed (names_of self) name.now }
    {
        match self.set {
            EncodingSet::Canonical => is_canonical(name),
        }
    }
}

/// Whether this is the name of an encoding other than that of dictionaries.
fn is_canonical(name: &str) -> bool
    ensures { result ≡ is_listed canonical_names name.now }
{
    [
        NULL,
        BOOL,
        PRIMITIVE,
        DECIMAL,
        VARBIN,
        LIST,
        FIXED_SIZE_LIST,
        STRUCT,
        EXT,
        CONSTANT,
    ]
    .contains(&name)
}
