//! The encodings that a header names.

ghost use Rattle.std.specs.Prelude.{◌≡◌, map, IfOk, IsOkUnless};
ghost use Rattle.vortex_node_rows.specs.Encodings.{encoding_in};

use std::alloc::Global;
use std::marker::Model;
use vortex_array_data::ArrayError;
use vortex_names::{FieldName, FieldNames};
use vortex_node_rows::Encoding;

/// The names of encodings, in the order in which a header tells them. Contracts see them as the
/// list of their texts.
#[derive(Drop)]
pub struct ArrayContext {
    ids: FieldNames,
}

impl Model for ArrayContext {
    ghost use Rattle.std.specs.Prelude.{ℕ, List};

    ghost Value = { List (List ℕ) };

    ghost view = { λ c. c.ids };
}

impl ArrayContext {
    /// The names of these texts. They may be any texts.
    pub fn from_ids(alloc: Global, ids: &[&str]) -> Result<ArrayContext, ArrayError>
        ensures ids { IfOk result (λ c. c ≡ map (λ t. t.now) ids.now) }
        ensures memory { IsOkUnless result ArrayError.OutOfMemory }
    {
        match FieldNames::from_texts(alloc, ids) {
            Ok(ids) => Ok(ArrayContext { ids }),
            Err(_) => Err(ArrayError::OutOfMemory),
        }
    }

    /// The names.
    pub fn ids(&self) -> &[FieldName]
        ensures { result.now ≡ self.now }
    {
        self.ids.as_slice()
    }

    /// The encoding at a place among the names.
    pub(crate) fn encoding(&self, place: u16) -> Option<Encoding>
        ensures { result ≡ encoding_in self.now place }
    {
        let name = self.ids.get(place as usize)?;
        Encoding::from_name(name.as_str())
    }
}
