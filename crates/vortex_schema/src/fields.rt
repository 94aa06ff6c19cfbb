//! The fields of a struct, left where they stand.

ghost use Rattle.std.specs.Prelude.{◌≡◌, ◌<◌, ◌==◌, IsSome, Some, is_some, slice_get, true};
ghost use Rattle.vortex_flat.specs.Targets.{table_element, text_element};
ghost use Rattle.vortex_schema.specs.inner.InPlace.{fields_in};

use crate::place::TypeAt;
use vortex_flat::{Table, Vector};

/// The fields of a struct, whose names and types are left where they stand.
#[derive(Drop)]
pub struct FieldsAt<'a> {
    pub(crate) bytes: &'a [u8],
    pub(crate) names: Vector<'a>,
    pub(crate) dtypes: Vector<'a>,
    ghost names_buffer: { names.buffer ≡ bytes.now },
    ghost dtypes_buffer: { dtypes.buffer ≡ bytes.now },
    ghost names_width: { names.shape.width ≡ 4 },
    ghost dtypes_width: { dtypes.shape.width ≡ 4 },
    ghost counts: { dtypes.shape.count ≡ names.shape.count },
    ghost stand: { is_some (fields_in bytes.now names.shape dtypes.shape) ≡ true },
}

/// The text of element `i`, where it is one.
fn text_of<'a>(names: &Vector<'a>, i: usize) -> &'a str
    requires width { names.now.shape.width ≡ 4 }
    requires index { i < names.now.shape.count }
    requires there { IsSome (text_element names.now.buffer names.now.shape i) }
    ensures { text_element names.now.buffer names.now.shape i ≡ Some result.now }
{
    match names.str(i) {
        Ok(text) => text,
        Err(_) => unreachable!(),
    }
}

/// The table that element `i` leads to, where it is one.
fn table_of<'a>(dtypes: &Vector<'a>, i: usize) -> Table<'a>
    requires width { dtypes.now.shape.width ≡ 4 }
    requires index { i < dtypes.now.shape.count }
    requires there { IsSome (table_element dtypes.now.buffer dtypes.now.shape i) }
    ensures buffer { result.buffer ≡ dtypes.now.buffer }
    ensures place { table_element dtypes.now.buffer dtypes.now.shape i ≡ Some result.place }
{
    match dtypes.table(i) {
        Ok(table) => table,
        Err(_) => unreachable!(),
    }
}

impl<'a> FieldsAt<'a> {
    ghost use Rattle.vortex_terms.specs.Types.{field_at, field_count, names_of};
    ghost use Rattle.vortex_schema.specs.Views.{fields_of, term_at};

    /// How many fields there are.
    #[tactic(auto, using(crate::proofs::InPlace::count_of))]
    pub fn len(&self) -> usize
        ensures { result ≡ field_count (fields_of self.now) }
    {
        self.names.len()
    }

    /// Whether there is no field.
    pub fn is_empty(&self) -> bool
        ensures { result ≡ (field_count (fields_of self.now) == 0) }
    {
        self.len() == 0
    }

    /// The name of field `i`.
    pub fn name(&self, i: usize) -> &'a str
        requires { i < field_count (fields_of self.now) }
        ensures { slice_get (names_of (fields_of self.now)) i ≡ Some result.now }
    {
        text_of(&self.names, i)
    }

    /// The type of field `i`.
    pub fn dtype(&self, i: usize) -> TypeAt<'a>
        requires { i < field_count (fields_of self.now) }
        ensures { field_at (fields_of self.now) i ≡ Some (term_at result) }
    {
        TypeAt::known(self.bytes, table_of(&self.dtypes, i).place())
    }
}
