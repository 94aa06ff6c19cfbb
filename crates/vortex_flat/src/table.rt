//! Tables and their fields.

ghost use Rattle.std.specs.Prelude.{◌≡◌, ◌≤◌, ◌⊎◌, IfOk, IfSome, Some};
ghost use Rattle.std.specs.Option.{option_copied, option_map};
ghost use Rattle.vortex_flat.specs.Answers.{Answers};
ghost use Rattle.vortex_flat.specs.Table.{field_at, root_at};
ghost use Rattle.vortex_flat.specs.Targets.{bytes_field, number_field, or_empty, signed_field, table_field, table_place, table_view, target_field, text_field, vector_field, vector_view};

use crate::error::FlatError;
use crate::numbers::{u8_at, u16_at, u32_at, u64_at};
use crate::shape::{Shape, shape_at};
use crate::targets::{bytes_at, follow, text_at};
use crate::vector::{Vector, vector_at};
use std::marker::Model;

/// A table whose vtable and inline part lie in the buffer.
#[derive(Drop)]
pub struct Table<'a> {
    bytes: &'a [u8],
    shape: Shape,
}

impl<'a> Model for Table<'a> {
    ghost use Rattle.std.specs.Prelude.{◌≡◌, Some};
    ghost use Rattle.vortex_flat.specs.Table.{table_at};
    ghost use Rattle.vortex_flat.specs.inner.Shape.{shape_of};
    ghost use Rattle.vortex_flat.specs.Targets.{TableView, table_view};

    ghost Value = { TableView };

    ghost view = { λ t. table_view t.bytes.now t.shape.place };

    ghost invariant = { λ t. table_at t.bytes.now t.shape.place ≡ Some (shape_of t.shape) };
}

/// The table that the buffer begins with the place of. The other readers answer like this one: what
/// stands there, and [`FlatError::Outside`] where nothing does.
pub fn root(bytes: &[u8]) -> Result<Table<'_>, FlatError>
    ensures { Answers (λ t. t) result
        (option_map (λ t. table_view bytes.now t.place) (root_at bytes.now)) }
{
    let place = u32_at(bytes, 0)?;
    Table::at(bytes, place as usize)
}

impl<'a> Table<'a> {
    #[tactic(auto, using(crate::proofs::TableLemmas::at_own_place))]
    /// The table at `place`.
    pub fn at(bytes: &'a [u8], place: usize) -> Result<Table<'a>, FlatError>
        ensures { Answers (λ t. t) result
            (option_map (table_view bytes.now) (table_place bytes.now place)) }
    {
        let shape = shape_at(bytes, place)?;
        Ok(Table { bytes, shape })
    }

    /// A table stands at its place. This does nothing when the program runs.
    pub fn law(&self)
        ensures { table_place self.now.buffer self.now.place ≡ Some self.now.place }
    {
        let _ = &self.shape;
    }

    /// The place of the table in its buffer.
    pub fn place(&self) -> usize
        ensures { result ≡ self.now.place }
    {
        self.shape.place
    }

    #[tactic(auto, using(crate::proofs::TableLemmas::table_sized, crate::proofs::TableLemmas::field_past, crate::proofs::TableLemmas::field_no_entry, crate::proofs::TableLemmas::field_zero, crate::proofs::TableLemmas::field_off, crate::proofs::TableLemmas::field_here, crate::proofs::NumbersLemmas::passes_on))]
    /// The place of field `k`, where it is there.
    fn field(&self, k: u16, width: usize) -> Result<Option<usize>, FlatError>
        requires { width ≤ 8 }
        ensures { Answers (λ x. x) result (field_at self.now.buffer self.now.place k width) }
    {
        let entry_place = 4 + 2 * usize::from(k);
        if usize::from(self.shape.vtable_size) <= entry_place {
            return Ok(None);
        }
        let entry = usize::from(u16_at(self.bytes, self.shape.vtable + entry_place)?);
        if entry == 0 {
            return Ok(None);
        }
        if entry < 4 || usize::from(self.shape.inline_size) < entry + width {
            return Err(FlatError::Outside);
        }
        Ok(Some(self.shape.place + entry))
    }

    /// The place that field `k` leads to.
    fn target(&self, k: u16) -> Result<Option<usize>, FlatError>
        ensures { Answers (λ x. x) result (target_field self.now.buffer self.now.place k) }
    {
        let Some(place) = self.field(k, 4)? else {
            return Ok(None);
        };
        Ok(Some(follow(self.bytes, place)?))
    }

    /// Field `k`, a number of one byte, and None where it is absent.
    pub fn field_u8(&self, k: u16) -> Result<Option<u8>, FlatError>
        ensures { Answers (λ x. x) result (number_field self.now.buffer self.now.place k 1) }
    {
        let Some(place) = self.field(k, 1)? else {
            return Ok(None);
        };
        Ok(Some(u8_at(self.bytes, place)?))
    }

    /// Field `k`, a number of two bytes.
    pub fn field_u16(&self, k: u16) -> Result<Option<u16>, FlatError>
        ensures { Answers (λ x. x) result (number_field self.now.buffer self.now.place k 2) }
    {
        let Some(place) = self.field(k, 2)? else {
            return Ok(None);
        };
        Ok(Some(u16_at(self.bytes, place)?))
    }

    /// Field `k`, a number of four bytes.
    pub fn field_u32(&self, k: u16) -> Result<Option<u32>, FlatError>
        ensures { Answers (λ x. x) result (number_field self.now.buffer self.now.place k 4) }
    {
        let Some(place) = self.field(k, 4)? else {
            return Ok(None);
        };
        Ok(Some(u32_at(self.bytes, place)?))
    }

    /// Field `k`, a number of eight bytes.
    pub fn field_u64(&self, k: u16) -> Result<Option<u64>, FlatError>
        ensures { Answers (λ x. x) result (number_field self.now.buffer self.now.place k 8) }
    {
        let Some(place) = self.field(k, 8)? else {
            return Ok(None);
        };
        Ok(Some(u64_at(self.bytes, place)?))
    }

    /// Field `k`, a signed byte.
    pub fn field_i8(&self, k: u16) -> Result<Option<i8>, FlatError>
        ensures { Answers (λ x. x) result (signed_field self.now.buffer self.now.place k) }
    {
        let Some(place) = self.field(k, 1)? else {
            return Ok(None);
        };
        Ok(Some(u8_at(self.bytes, place)?.cast_signed()))
    }

    /// The table that field `k` leads to.
    pub fn field_table(&self, k: u16) -> Result<Option<Table<'a>>, FlatError>
        ensures { Answers (λ x. x) result
            (option_map (option_map (table_view self.now.buffer))
            (table_field self.now.buffer self.now.place k)) }
    {
        let Some(place) = self.target(k)? else {
            return Ok(None);
        };
        Ok(Some(Table::at(self.bytes, place)?))
    }

    /// The bytes of the vector that field `k` leads to.
    pub fn field_bytes(&self, k: u16) -> Result<Option<&'a [u8]>, FlatError>
        ensures { Answers option_copied result (bytes_field self.now.buffer self.now.place k) }
    {
        let Some(place) = self.target(k)? else {
            return Ok(None);
        };
        Ok(Some(bytes_at(self.bytes, place)?))
    }

    /// The text that field `k` leads to.
    pub fn field_str(&self, k: u16) -> Result<Option<&'a str>, FlatError>
        ensures { Answers option_copied result (text_field self.now.buffer self.now.place k) }
    {
        let Some(place) = self.target(k)? else {
            return Ok(None);
        };
        Ok(Some(text_at(self.bytes, place)?))
    }

    /// The vector that field `k` leads to, each of whose elements is `width` bytes wide: 1, 4 or 8.
    /// No vector of the schemas here has elements of two bytes, and [`Vector`] has no call that
    /// reads them.
    pub fn field_vector(&self, k: u16, width: usize) -> Result<Option<Vector<'a>>, FlatError>
        requires { (width ≡ 1) ⊎ (width ≡ 4) ⊎ (width ≡ 8) }
        ensures found { Answers (λ x. x) result
            (option_map (option_map (vector_view self.now.buffer))
            (vector_field self.now.buffer self.now.place k width)) }
        ensures width { IfOk result (λ field. IfSome field (λ vector. vector.shape.width ≡ width)) }
    {
        let Some(place) = self.target(k)? else {
            return Ok(None);
        };
        Ok(Some(vector_at(self.bytes, place, width)?))
    }

    /// The same, and a vector without elements where the field is absent.
    pub fn field_vector_or_empty(&self, k: u16, width: usize) -> Result<Vector<'a>, FlatError>
        requires { (width ≡ 1) ⊎ (width ≡ 4) ⊎ (width ≡ 8) }
        ensures found { Answers (λ x. x) result
            (option_map (vector_view self.now.buffer)
            (or_empty width (vector_field self.now.buffer self.now.place k width))) }
        ensures width { IfOk result (λ vector. vector.shape.width ≡ width) }
    {
        let Some(place) = self.target(k)? else {
            return Ok(Vector::empty(self.bytes, width));
        };
        vector_at(self.bytes, place, width)
    }
}
