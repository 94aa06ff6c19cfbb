//! The types of a struct's fields, one after the other.

ghost use Rattle.std.specs.Prelude.{◌≡◌, ◌∷◌, [], length, nat_eq, None, MatchOption, MatchResult};
ghost use Rattle.vortex_types.specs.DTypes.{term_of};

use crate::dtype::DType;
use crate::field_dtype::FieldDType;
use std::alloc::Global;
use std::marker::Model;
use vortex_names::DTypeError;

/// The types that are left. Contracts see it as the list of their terms.
#[derive(Drop)]
pub struct StructFieldsIter<'a> {
    alloc: Global,
    left: &'a [FieldDType],
}

impl<'a> Model for StructFieldsIter<'a> {
    ghost use Rattle.std.specs.Prelude.{List};
    ghost use Rattle.std.specs.Coded.{coded_list};
    ghost use Rattle.vortex_terms.specs.Term.{Term};
    ghost use Rattle.vortex_terms.specs.TermCode.{coded_term};

    ghost Value = { List Term };

    ghost coded = { coded_list coded_term };

    ghost view = { λ it. it.left.now };
}

impl<'a> StructFieldsIter<'a> {
    // The types of these fields.
    pub(crate) fn new(alloc: Global, fields: &'a [FieldDType]) -> StructFieldsIter<'a>
        ensures { result ≡ fields.now }
    {
        StructFieldsIter {
            alloc,
            left: fields,
        }
    }

    /// The type of the next field. Where memory runs out, it stays at its field.
    pub fn next(&mut self) -> Option<Result<DType, DTypeError>>
        ensures next { MatchOption result ((self.old ≡ []) × (self.new ≡ [])) (λ r.
            MatchResult r (λ t. self.old ≡ term_of t ∷ self.new)
            (λ e. (e ≡ DTypeError.OutOfMemory) × (self.new ≡ self.old))) }
        ensures end { self.old ≡ [] → result ≡ None }
    {
        let (first, left) = self.left.split_first()?;
        match first.value(self.alloc) {
            Ok(dtype) => {
                self.left = left;
                Some(Ok(dtype))
            }
            Err(e) => Some(Err(e)),
        }
    }

    /// How many fields are left.
    pub fn len(&self) -> usize
        ensures { result ≡ length self.now }
    {
        self.left.len()
    }

    /// Whether none is left.
    pub fn is_empty(&self) -> bool
        ensures { result ≡ nat_eq (length self.now) 0 }
    {
        self.left.is_empty()
    }
}
