//! How types are printed.

ghost use Rattle.std.specs.Prelude.{◌<◌, [], length, map, option_copied, slice_index, Some};
ghost use Rattle.std.specs.Option.{option_map_or};
ghost use Rattle.std.specs.Fmt.{decimal, WritesOnOk};
ghost use Rattle.vortex_terms.specs.Types.{field_at};
ghost use Rattle.vortex_types.specs.DTypes.{term_of};
ghost use Rattle.vortex_types.specs.Text.{bare_text, field_text, listed, metadata_text, separator};
ghost use Rattle.vortex_types.specs.Text.{struct_text, type_mark, type_text};
ghost use Rattle.vortex_types.specs.TypeRefs.{fields_term, ref_term};

use crate::dtype::DType;
use crate::shape::{FieldsRef, Shape};
use crate::struct_fields::StructFields;
use crate::type_ref::TypeRef;
use std::fmt;

impl fmt::Display for DType {
    ghost output = { λ t. Some (type_text (term_of t)) };

    fn fmt<W: fmt::Write>(&self, f: &mut fmt::Formatter<W>) -> fmt::Result {
        write_type(self.type_ref(), f)
    }
}

impl fmt::Display for StructFields {
    ghost output = { λ s. Some (struct_text s) };

    fn fmt<W: fmt::Write>(&self, f: &mut fmt::Formatter<W>) -> fmt::Result {
        write_fields(FieldsRef::Owned(self), f)
    }
}

/// Writes a type.
#[cycle(printing)]
fn write_type<W: fmt::Write>(r: TypeRef<'_>, f: &mut fmt::Formatter<W>) -> fmt::Result
    ensures { WritesOnOk W.write_str_gives f.old result (type_text (ref_term r.entry)) f.new }
{
    write_bare(r, f)?;
    write_mark(r, f)
}

/// Writes the mark behind a nullable type.
fn write_mark<W: fmt::Write>(r: TypeRef<'_>, f: &mut fmt::Formatter<W>) -> fmt::Result
    ensures { WritesOnOk W.write_str_gives f.old result (type_mark (ref_term r.entry)) f.new }
{
    match r.shape() {
        Shape::Null => Ok(()),
        Shape::Extension(_, storage, _) => fmt::Display::fmt(&storage.nullability(), f),
        Shape::Bool(n)
        | Shape::Primitive(_, n)
        | Shape::Decimal(_, n)
        | Shape::Utf8(n)
        | Shape::Binary(n)
        | Shape::Struct(_, n)
        | Shape::List(_, n)
        | Shape::FixedSizeList(_, _, n) => fmt::Display::fmt(&n, f),
    }
}

/// Writes a type without the mark behind it.
#[cycle(printing)]
fn write_bare<W: fmt::Write>(r: TypeRef<'_>, f: &mut fmt::Formatter<W>) -> fmt::Result
    ensures { WritesOnOk W.write_str_gives f.old result (bare_text (ref_term r.entry)) f.new }
{
    match r.shape() {
        Shape::Null => f.write_str("null"),
        Shape::Bool(_) => f.write_str("bool"),
        Shape::Primitive(ptype, _) => fmt::Display::fmt(&ptype, f),
        Shape::Decimal(decimal, _) => fmt::Display::fmt(&decimal, f),
        Shape::Utf8(_) => f.write_str("utf8"),
        Shape::Binary(_) => f.write_str("binary"),
        Shape::Struct(fields, _) => write_fields(fields, f),
        Shape::List(element, _) => {
            f.write_str("list(")?;
            write_type(element, f)?;
            f.write_str(")")
        }
        Shape::Extension(id, storage, metadata) => {
            f.write_str("ext(")?;
            f.write_str(id)?;
            f.write_str(", ")?;
            write_bare(storage, f)?;
            write_metadata(metadata, f)?;
            f.write_str(")")
        }
        Shape::FixedSizeList(element, size, _) => {
            f.write_str("fixed_size_list(")?;
            write_type(element, f)?;
            write!(f, ")[{size}]")
        }
    }
}

/// Writes metadata behind a storage, where there is any.
fn write_metadata<W: fmt::Write>(metadata: Option<&[u8]>, f: &mut fmt::Formatter<W>) -> fmt::Result
    ensures { let text = metadata_text (option_copied metadata.entry) in
        WritesOnOk W.write_str_gives f.old result text f.new }
{
    match metadata {
        Some(bytes) => {
            f.write_str(", [")?;
            write_bytes(bytes, f)?;
            f.write_str("]")
        }
        None => Ok(()),
    }
}

/// Writes bytes as numbers.
fn write_bytes<W: fmt::Write>(bytes: &[u8], f: &mut fmt::Formatter<W>) -> fmt::Result
    ensures { let text = listed (map decimal bytes.now) in
        WritesOnOk W.write_str_gives f.old result text f.new }
{
    for i in 0..bytes.len() {
        write_separator(i, f)?;
        write_byte(bytes, i, f)?;
    }
    Ok(())
}

/// Writes the byte at an index as a number.
fn write_byte<W: fmt::Write>(bytes: &[u8], i: usize, f: &mut fmt::Formatter<W>) -> fmt::Result
    requires { i < length bytes.now }
    ensures { let text = decimal (slice_index bytes.now i) in
        WritesOnOk W.write_str_gives f.old result text f.new }
{
    let byte = bytes[i];
    write!(f, "{byte}")
}

/// Writes the fields of a struct in braces.
#[cycle(printing)]
fn write_fields<W: fmt::Write>(fields: FieldsRef<'_>, f: &mut fmt::Formatter<W>) -> fmt::Result
    ensures { let text = struct_text (fields_term fields.entry) in
        WritesOnOk W.write_str_gives f.old result text f.new }
{
    f.write_str("{")?;
    for i in 0..fields.len() {
        write_separator(i, f)?;
        write_field(fields, i, f)?;
    }
    f.write_str("}")
}

/// Writes what stands before the field at an index.
fn write_separator<W: fmt::Write>(i: usize, f: &mut fmt::Formatter<W>) -> fmt::Result
    ensures { WritesOnOk W.write_str_gives f.old result (separator i) f.new }
{
    if i == 0 { Ok(()) } else { f.write_str(", ") }
}

/// Writes the name and the type of the field at an index.
#[cycle(printing)]
fn write_field<W: fmt::Write>(
    fields: FieldsRef<'_>,
    i: usize,
    f: &mut fmt::Formatter<W>,
) -> fmt::Result
    ensures { let text = field_text (fields_term fields.entry) i in
        WritesOnOk W.write_str_gives f.old result text f.new }
{
    write_name(fields.name(i), f)?;
    f.write_str("=")?;
    write_part(fields, i, f)
}

/// Writes a name, if there is one.
fn write_name<W: fmt::Write>(name: Option<&str>, f: &mut fmt::Formatter<W>) -> fmt::Result
    ensures { let text = option_map_or (λ x. x) (option_copied name.entry) [] in
        WritesOnOk W.write_str_gives f.old result text f.new }
{
    match name {
        Some(name) => f.write_str(name),
        None => Ok(()),
    }
}

/// Writes the type of the field at an index.
#[cycle(printing)]
#[tactic(auto, using(crate::proofs::Fields::part_lighter))]
fn write_part<W: fmt::Write>(
    fields: FieldsRef<'_>,
    i: usize,
    f: &mut fmt::Formatter<W>,
) -> fmt::Result
    ensures { let text = option_map_or type_text (field_at (fields_term fields.entry) i) [] in
        WritesOnOk W.write_str_gives f.old result text f.new }
{
    match fields.part(i) {
        Some(part) => write_type(part, f),
        None => Ok(()),
    }
}
