//! What types feed a hasher.

ghost use Rattle.std.specs.Prelude.{◌≡◌, ◌++◌, [], fold, option_copied};
ghost use Rattle.std.specs.Option.{option_map_or};
ghost use Rattle.std.specs.Hash as fed;
ghost use Rattle.vortex_terms.specs.Types.{field_at};
ghost use Rattle.vortex_names.specs.Nullable.{is_nullable};
ghost use Rattle.vortex_types.specs.DTypes.{term_of};
ghost use Rattle.vortex_types.specs.EqualLaws.{dtype_alike, ext_alike, fields_alike, term_alike};
ghost use Rattle.vortex_types.specs.ExtTerm.{ext_type};
ghost use Rattle.vortex_types.specs.HashInput.{field_writes, struct_writes, term_writes};
ghost use Rattle.vortex_types.specs.TypeRefs.{fields_term, ref_term};

use crate::dtype::DType;
use crate::element::Element;
use crate::extension::ExtDType;
use crate::field_dtype::FieldDType;
use crate::shape::{FieldsRef, Shape};
use crate::struct_fields::StructFields;
use crate::type_ref::TypeRef;
use std::hash::{Hash, Hasher};
use vortex_names::Nullability;

impl Hash for DType {
    ghost hash_input = { λ t. term_writes (term_of t) };

    ghost respects_eq = { dtype_alike.fed };

    fn hash<H: Hasher>(&self, state: &mut H) {
        hash_type(self.type_ref(), state);
    }
}

impl Hash for Element {
    ghost hash_input = { term_writes };

    ghost respects_eq = { term_alike.fed };

    fn hash<H: Hasher>(&self, state: &mut H) {
        hash_type(self.as_dtype().type_ref(), state);
    }
}

impl Hash for FieldDType {
    ghost hash_input = { term_writes };

    ghost respects_eq = { term_alike.fed };

    fn hash<H: Hasher>(&self, state: &mut H) {
        hash_type(self.type_ref(), state);
    }
}

impl Hash for StructFields {
    ghost hash_input = { struct_writes };

    ghost respects_eq = { fields_alike.fed };

    fn hash<H: Hasher>(&self, state: &mut H) {
        hash_fields(FieldsRef::Owned(self), state);
    }
}

impl Hash for ExtDType {
    ghost hash_input = { λ e. term_writes (ext_type e) };

    ghost respects_eq = { ext_alike.fed };

    fn hash<H: Hasher>(&self, state: &mut H) {
        9u8.hash(state);
        self.id().as_str().hash(state);
        self.metadata().map(|m| m.as_slice()).hash(state);
        hash_type(self.storage_dtype().type_ref(), state);
    }
}

/// Feeds a type.
#[cycle(hashing)]
fn hash_type<H: Hasher>(r: TypeRef<'_>, state: &mut H)
    ensures { state.new ≡ fold H.write state.old (term_writes (ref_term r.entry)) }
{
    match r.shape() {
        Shape::Null => 1u8.hash(state),
        Shape::Bool(n) => hash_head(2, n, state),
        Shape::Primitive(ptype, n) => {
            hash_head(3, n, state);
            ptype.number().hash(state);
        }
        Shape::Decimal(decimal, n) => {
            hash_head(4, n, state);
            decimal.precision().hash(state);
            decimal.scale().hash(state);
        }
        Shape::Utf8(n) => hash_head(5, n, state),
        Shape::Binary(n) => hash_head(6, n, state),
        Shape::Struct(fields, n) => {
            hash_head(7, n, state);
            hash_fields(fields, state);
        }
        Shape::List(element, n) => {
            hash_head(8, n, state);
            hash_type(element, state);
        }
        Shape::Extension(id, storage, metadata) => {
            9u8.hash(state);
            id.hash(state);
            metadata.hash(state);
            hash_type(storage, state);
        }
        Shape::FixedSizeList(element, size, n) => {
            hash_head(10, n, state);
            size.hash(state);
            hash_type(element, state);
        }
    }
}

/// Feeds the number of a kind of type, and whether a row may be null.
fn hash_head<H: Hasher>(kind: u8, nullability: Nullability, state: &mut H)
    ensures { let writes = fed.u8 kind ++ fed.bool (is_nullable nullability) in
        state.new ≡ fold H.write state.old writes }
{
    kind.hash(state);
    bool::from(nullability).hash(state);
}

/// Feeds the fields of a struct.
#[cycle(hashing)]
fn hash_fields<H: Hasher>(fields: FieldsRef<'_>, state: &mut H)
    ensures { state.new ≡ fold H.write state.old (struct_writes (fields_term fields.entry)) }
{
    let n = fields.len();
    n.hash(state);
    for i in 0..n {
        hash_field(fields, i, state);
    }
}

/// Feeds the field at an index.
#[cycle(hashing)]
fn hash_field<H: Hasher>(fields: FieldsRef<'_>, i: usize, state: &mut H)
    ensures { state.new ≡ fold H.write state.old (field_writes (fields_term fields.entry) i) }
{
    hash_name(fields.name(i), state);
    hash_part(fields, i, state);
}

/// Feeds a name, if there is one.
fn hash_name<H: Hasher>(name: Option<&str>, state: &mut H)
    ensures { let writes = option_map_or fed.str (option_copied name.entry) [] in
        state.new ≡ fold H.write state.old writes }
{
    match name {
        Some(name) => name.hash(state),
        None => {}
    }
}

/// Feeds the type of the field at an index.
#[cycle(hashing)]
#[tactic(auto, using(crate::proofs::Fields::part_lighter))]
fn hash_part<H: Hasher>(fields: FieldsRef<'_>, i: usize, state: &mut H)
    ensures { let writes = option_map_or term_writes (field_at (fields_term fields.entry) i) [] in
        state.new ≡ fold H.write state.old writes }
{
    match fields.part(i) {
        Some(part) => hash_type(part, state),
        None => {}
    }
}
