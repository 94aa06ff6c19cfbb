//! What selects a part of a type.

ghost use Rattle.std.specs.Prelude.{◌≡◌, Some, None, IfOk, IsOkUnless, is_some};
ghost use Rattle.std.specs.Option.{option_copied};
ghost use Rattle.vortex_names.specs.Selectors.{name_of, field_text};

use crate::error::DTypeError;
use crate::name::FieldName;
use std::alloc::Global;
use std::fmt;

/// Selects a part of a struct or of a list.
#[derive(Debug, Drop, PartialEq, Eq, Hash)]
pub enum Field {
    /// The first field of this name of a struct.
    Name(FieldName),
    /// The elements of a list, also of one of fixed size.
    ElementType,
}

impl Field {
    /// The field of this name.
    pub fn from_text(alloc: Global, text: &str) -> Result<Field, DTypeError>
        ensures field { IfOk result (λ f. f ≡ Field.Name text.now) }
        ensures memory { IsOkUnless result DTypeError.OutOfMemory }
    {
        Ok(Field::Name(FieldName::from_text(alloc, text)?))
    }

    /// An equal field.
    pub fn try_clone(&self, alloc: Global) -> Result<Field, DTypeError>
        ensures field { IfOk result (λ f. f ≡ self.now) }
        ensures memory { IsOkUnless result DTypeError.OutOfMemory }
    {
        match self {
            Field::Name(name) => Ok(Field::Name(name.try_clone(alloc)?)),
            Field::ElementType => Ok(Field::ElementType),
        }
    }

    /// The name, if there is one.
    pub fn as_name(&self) -> Option<&str>
        ensures { option_copied result ≡ name_of self.now }
    {
        match self {
            Field::Name(name) => Some(name.as_str()),
            Field::ElementType => None,
        }
    }

    /// Whether there is a name.
    pub fn is_named(&self) -> bool
        ensures { result ≡ is_some (name_of self.now) }
    {
        matches!(self, Field::Name(_))
    }
}

impl From<FieldName> for Field {
    ghost from_gives = { λ name f. name_of f ≡ Some name };

    fn from(value: FieldName) -> Field {
        Field::Name(value)
    }
}

impl fmt::Display for Field {
    ghost output = { λ f. Some (field_text f) };

    ghost styled_output = { λ f _. Some (field_text f) };

    fn fmt<W: fmt::Write>(&self, f: &mut fmt::Formatter<W>) -> fmt::Result {
        match self {
            Field::Name(name) => {
                f.write_str("$")?;
                f.write_str(name.as_str())
            }
            Field::ElementType => f.write_str("[]"),
        }
    }
}
