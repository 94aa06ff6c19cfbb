//! What arrays tell of their rows and of the arrays in them.

ghost use Rattle.std.specs.Prelude.{◌≡◌, ◌<◌, is_some, length, slice_get, IfOk, IfSome, IsOkUnless, Some};
ghost use Rattle.vortex_node_rows.specs.Encodings.{encoding_name};
ghost use Rattle.vortex_array_data.specs.ArrayNode.{array_encoding};
ghost use Rattle.vortex_array_data.specs.PartColumns.{has_field, has_storage, IsField, IsStorage};
ghost use Rattle.vortex_array_data.specs.ValidRows.{met, valid_at, valid_rows};

use crate::error::ArrayError;
use crate::held::{Array, Content};
use std::alloc::Global;
use vortex_mask::{Mask, MaskError};
use vortex_node_rows::Encoding;

/// What the mask says of row `i`.
pub fn is_unmasked(validity: &Option<Mask>, i: usize) -> bool
    requires { IfSome validity.now (λ m. i < length m) }
    ensures { result ≡ valid_at validity.now i }
{
    match validity {
        Some(mask) => mask.value(i),
        None => true,
    }
}

/// The truth values, false where the mask is.
fn meet(alloc: Global, validity: &Option<Mask>, valid: Mask) -> Result<Mask, ArrayError>
    requires { IfSome validity.now (λ m. length m ≡ length valid) }
    ensures mask { IfOk result (λ m. m ≡ met validity.now valid) }
    ensures memory { IsOkUnless result ArrayError.OutOfMemory }
{
    let Some(mask) = validity else {
        return Ok(valid);
    };
    match mask.and(alloc, &valid) {
        Ok(mask) => Ok(mask),
        Err(MaskError::OutOfMemory) => Err(ArrayError::OutOfMemory),
    }
}

impl Array {
    /// How the rows are laid out.
    fn encoding(&self) -> Encoding
        ensures { result ≡ array_encoding self.now.node }
    {
        match &self.held.content {
            Content::Nulls => Encoding::Null,
            Content::Truths(_) => Encoding::Bool,
            Content::Numbers(_) => Encoding::Primitive,
            Content::Decimals(_) => Encoding::Decimal,
            Content::Texts(_) => Encoding::VarBin,
            Content::Lists(_, _) => Encoding::List,
            Content::FixedLists(_, _) => Encoding::FixedSizeList,
            Content::Structs(_) => Encoding::Struct,
            Content::Storage(_) => Encoding::Ext,
            Content::Constant(_) => Encoding::Constant,
        }
    }

    /// The name of the encoding.
    pub fn encoding_id(&self) -> &'static str
        ensures { result.now ≡ encoding_name (array_encoding self.now.node) }
    {
        self.encoding().name()
    }

    /// Whether row `i` is not null.
    pub fn is_valid(&self, i: usize) -> bool
        requires { i < length self.now.rows }
        ensures { slice_get (valid_rows self.now.rows) i ≡ Some result }
    {
        match &self.held.content {
            Content::Nulls => false,
            Content::Truths(_) => is_unmasked(&self.held.validity, i),
            Content::Numbers(_) => is_unmasked(&self.held.validity, i),
            Content::Decimals(_) => is_unmasked(&self.held.validity, i),
            Content::Texts(_) => is_unmasked(&self.held.validity, i),
            Content::Lists(_, _) => is_unmasked(&self.held.validity, i),
            Content::FixedLists(_, _) => is_unmasked(&self.held.validity, i),
            Content::Structs(_) => is_unmasked(&self.held.validity, i),
            Content::Storage(storage) => storage.is_valid(i),
            Content::Constant(value) => {
                if value.is_null() {
                    return false;
                }
                is_unmasked(&self.held.validity, i)
            }
        }
    }

    /// For each row whether it is not null. Where all or none are it takes no memory.
    pub fn validity_mask(&self, alloc: Global) -> Result<Mask, ArrayError>
        ensures mask { IfOk result (λ m. m ≡ valid_rows self.now.rows) }
        ensures memory { IsOkUnless result ArrayError.OutOfMemory }
    {
        match &self.held.content {
            Content::Nulls => Ok(Mask::new_false(self.len)),
            Content::Truths(_) => { meet(alloc, &self.held.validity, Mask::new_true(self.len)) }
            Content::Numbers(_) => { meet(alloc, &self.held.validity, Mask::new_true(self.len)) }
            Content::Decimals(_) => { meet(alloc, &self.held.validity, Mask::new_true(self.len)) }
            Content::Texts(_) => { meet(alloc, &self.held.validity, Mask::new_true(self.len)) }
            Content::Lists(_, _) => { meet(alloc, &self.held.validity, Mask::new_true(self.len)) }
            Content::FixedLists(_, _) => {
                meet(alloc, &self.held.validity, Mask::new_true(self.len))
            }
            Content::Structs(_) => { meet(alloc, &self.held.validity, Mask::new_true(self.len)) }
            Content::Storage(storage) => storage.validity_mask(alloc),
            Content::Constant(value) => {
                if value.is_null() {
                    return Ok(Mask::new_false(self.len));
                }
                meet(alloc, &self.held.validity, Mask::new_true(self.len))
            }
        }
    }

    /// Field `i` of structs that are held by their fields, and None where there is no such field,
    /// or the rows are held otherwise.
    pub fn struct_field_opt(&self, i: usize) -> Option<&Array>
        ensures there { is_some result ≡ has_field self.now i }
        ensures field { IfSome result (λ f. IsField self.now i f.now) }
    {
        match &self.held.content {
            Content::Structs(fields) => match fields.get(i) {
                Some(field) => Some(field),
                None => None,
            },
            _ => None,
        }
    }

    /// The storage of extensions that are held by it, and None where the rows are held otherwise.
    pub fn ext_storage_opt(&self) -> Option<&Array>
        ensures there { is_some result ≡ has_storage self.now }
        ensures storage { IfSome result (λ s. IsStorage self.now s.now) }
    {
        match &self.held.content {
            Content::Storage(storage) => Some(storage),
            _ => None,
        }
    }
}
