//! The fields of a struct.

ghost use Rattle.std.specs.Prelude.{◌≡◌, ◌<◌, [], length, map, slice_get, Some, None, Ok};
ghost use Rattle.std.specs.Prelude.{Err, IfOk, IsOkUnless};
ghost use Rattle.std.specs.Option.{option_copied, option_map};
ghost use Rattle.vortex_terms.specs.Term.{no_fields};
ghost use Rattle.vortex_terms.specs.Types.{LegalFields, fields_from, field_count, names_of};
ghost use Rattle.vortex_terms.specs.Types.{types_of, field_at, field_named, place_of};
ghost use Rattle.vortex_types.specs.Answers.{Answers};
ghost use Rattle.vortex_types.specs.Made.{made_fields};
ghost use Rattle.vortex_types.specs.DTypes.{term_of};

use crate::dtype::DType;
use crate::field_dtype::{FieldDType, fields_law, owned_fields};
use crate::name_index::first_place_of;
use crate::struct_fields_iter::StructFieldsIter;
use std::alloc::Global;
use std::marker::Model;
use std::rc::Rc;
use vortex_names::{DTypeError, FieldName, FieldNames};

/// The fields of a struct, in order. Contracts see them as names and terms.
///
/// More than one field may have a name: what is found by a name is the first field of that name.
#[cycle(types)]
#[derive(Drop)]
pub struct StructFields {
    kept: KeptFields,
}

/// How the fields are kept: none take no memory, and others are shared.
#[cycle(types)]
#[derive(Drop)]
pub(crate) enum KeptFields {
    Empty(FieldNames),
    Shared(Rc<FieldNames>, Rc<Vec<FieldDType>>),
}

impl Model for StructFields {
    ghost use Rattle.vortex_terms.specs.Term.{Fields};
    ghost use Rattle.vortex_terms.specs.TermCode.{coded_fields};

    ghost Value = { Fields };

    ghost coded = { coded_fields };

    ghost use Rattle.vortex_terms.specs.Weight.{fields_weight};
    ghost use Rattle.vortex_types.specs.DTypes.{kept_fields, AreKept};

    ghost view = { λ s. kept_fields s.kept };

    ghost invariant = { λ s. AreKept s.kept };

    ghost size = { fields_weight };

    ghost use Rattle.vortex_types.specs.Falls.{fields_fall};

    ghost size_decreases = { λ s h. fields_fall s.kept h };
}

impl StructFields {
    /// No fields.
    pub fn empty() -> StructFields
        ensures { result ≡ no_fields }
    {
        StructFields {
            kept: KeptFields::Empty(FieldNames::empty()),
        }
    }

    /// The fields of these names and types.
    pub fn new(
        alloc: Global,
        names: FieldNames,
        dtypes: Vec<DType>,
    ) -> Result<StructFields, DTypeError>
        requires { length names ≡ length dtypes.items }
        ensures fields { IfOk result (λ s. s ≡ fields_from names (map term_of dtypes.items)) }
        ensures memory { IsOkUnless result DTypeError.OutOfMemory }
    {
        let dtypes = owned_fields(alloc, dtypes)?;
        StructFields::from_fields(alloc, names, dtypes)
    }

    /// The fields of these names and types, where there are as many names as types.
    pub fn try_new(
        alloc: Global,
        names: FieldNames,
        dtypes: Vec<DType>,
    ) -> Result<StructFields, DTypeError>
        ensures { Answers (λ s. s) result (made_fields names (map term_of dtypes.items)) }
    {
        if names.len() != dtypes.len() {
            return Err(DTypeError::LengthMismatch);
        }
        StructFields::new(alloc, names, dtypes)
    }

    /// The fields of these names and types, however each type is kept.
    pub fn from_fields(
        alloc: Global,
        names: FieldNames,
        dtypes: Vec<FieldDType>,
    ) -> Result<StructFields, DTypeError>
        requires { length names ≡ length dtypes.items }
        ensures fields { IfOk result (λ s. s ≡ fields_from names dtypes.items) }
        ensures memory { IsOkUnless result DTypeError.OutOfMemory }
    {
        names.law();
        fields_law(&dtypes);
        let names = Rc::new(alloc, names)?;
        let dtypes = Rc::new(alloc, dtypes)?;
        Ok(StructFields {
            kept: KeptFields::Shared(names, dtypes),
        })
    }

    /// The same fields, shared.
    pub fn try_clone(&self, _alloc: Global) -> Result<StructFields, DTypeError>
        ensures fields { IfOk result (λ s. s ≡ self.now) }
        ensures memory { IsOkUnless result DTypeError.OutOfMemory }
    {
        match &self.kept {
            KeptFields::Empty(_) => Ok(StructFields::empty()),
            KeptFields::Shared(names, dtypes) => Ok(StructFields {
                kept: KeptFields::Shared(names.clone()?, dtypes.clone()?),
            }),
        }
    }

    /// The types are legal, and the names are texts. It does nothing when the program runs.
    pub fn law(&self)
        ensures { LegalFields self.now }
    {
        let _ = &self.kept;
    }

    /// The names of the fields, in order.
    pub fn names(&self) -> &FieldNames
        ensures { result.now ≡ names_of self.now }
    {
        match &self.kept {
            KeptFields::Empty(names) => names,
            KeptFields::Shared(names, _) => names,
        }
    }

    // The types of the fields, in order.
    pub(crate) fn kinds(&self) -> &[FieldDType]
        ensures { result.now ≡ types_of self.now }
    {
        match &self.kept {
            KeptFields::Empty(_) => &[],
            KeptFields::Shared(_, dtypes) => dtypes.as_slice(),
        }
    }

    /// How many fields there are.
    pub fn nfields(&self) -> usize
        ensures { result ≡ field_count self.now }
    {
        self.names().len()
    }

    /// The name of the field at an index.
    pub fn field_name(&self, index: usize) -> Option<&FieldName>
        ensures { option_copied result ≡ slice_get (names_of self.now) index }
    {
        self.names().get(index)
    }

    /// The index of the first field of this name.
    pub fn find(&self, name: &str) -> Option<usize>
        ensures { result ≡ place_of self.now name.now }
    {
        first_place_of(self.names().as_slice(), name)
    }

    /// The type of the first field of this name.
    pub fn field(&self, alloc: Global, name: &str) -> Result<Option<DType>, DTypeError>
        ensures field { IfOk result (λ o. option_map term_of o ≡ field_named self.now name.now) }
        ensures memory { IsOkUnless result DTypeError.OutOfMemory }
    {
        match self.find(name) {
            Some(index) => self.field_by_index(alloc, index),
            None => Ok(None),
        }
    }

    /// The type of the field at an index.
    pub fn field_by_index(&self, alloc: Global, index: usize) -> Result<Option<DType>, DTypeError>
        ensures field { IfOk result (λ o. option_map term_of o ≡ field_at self.now index) }
        ensures memory { IsOkUnless result DTypeError.OutOfMemory }
    {
        match self.kinds().get(index) {
            Some(field) => Ok(Some(field.value(alloc)?)),
            None => Ok(None),
        }
    }

    /// The types of the fields one after the other.
    pub fn fields(&self, alloc: Global) -> StructFieldsIter<'_>
        ensures { result ≡ types_of self.now }
    {
        StructFieldsIter::new(alloc, self.kinds())
    }
}
