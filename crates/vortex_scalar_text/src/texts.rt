//! How scalars are printed.

ghost use Rattle.std.specs.Prelude.{◌≡◌, ◌++◌, ◌<◌, ◌*◌, [], codes, false, length, map};
ghost use Rattle.std.specs.Prelude.{option_copied, slice_index};
ghost use Rattle.std.specs.Option.{option_map, option_map_or};
ghost use Rattle.std.specs.Fmt.{digits, WritesOnOk};
ghost use Rattle.vortex_terms.specs.Types.{field_at};
ghost use Rattle.vortex_number.specs.WholeKind.{whole_kind};
ghost use Rattle.vortex_types.specs.TypeRefs.{fields_term, ref_term};
ghost use Rattle.vortex_value.specs.DecimalValue.{width_of};
ghost use Rattle.vortex_scalar_value.specs.Value.{bytes_value};
ghost use Rattle.vortex_value_rows.specs.RowOf.{number_of_bytes};
ghost use Rattle.vortex_scalar_value.specs.Joined.{between, joined};
ghost use Rattle.vortex_scalar_text.specs.ScalarText.{bytes_in, decimal_end, decimal_in};
ghost use Rattle.vortex_scalar_text.specs.ScalarText.{decimal_start, decimal_text};
ghost use Rattle.vortex_scalar_text.specs.ScalarText.{field_texts, hex_text, null_text};
ghost use Rattle.vortex_scalar_text.specs.ScalarText.{number_text, quoted, scalar_text};
ghost use Rattle.vortex_scalar_text.specs.ScalarText.{text_in, truth_text, values_of, width_bits};
ghost use Rattle.vortex_scalar_text.specs.inner.FieldTexts.{field_text};

use crate::temporal::{temporal_in, write_shown};
use std::{fmt, str};
use vortex_names::DecimalDType;
use vortex_number::PType;
use vortex_scalar_value::{ScalarValue, ValueRef};
use vortex_types::{FieldsRef, Shape, TypeRef};
use vortex_value::{DecimalValue, DecimalValueType};
use vortex_value_rows::{number_of_bytes, value_at};

/// Writes the scalar of a type and a value. It takes no memory.
#[cycle(printing)]
pub fn write_scalar<W: fmt::Write>(
    of: TypeRef<'_>,
    value: &ScalarValue,
    f: &mut fmt::Formatter<W>,
) -> fmt::Result
    ensures { let text = scalar_text (ref_term of.entry) value.now in
        WritesOnOk W.write_str_gives f.old result text f.new }
{
    match of.shape() {
        Shape::Null => f.write_str("null"),
        Shape::Bool(_) => write_truth(value, f),
        Shape::Primitive(ptype, _) => write_number(ptype, value, f),
        Shape::Decimal(dtype, _) => write_decimal(dtype, value, f),
        Shape::Utf8(_) => write_utf8(value, f),
        Shape::Binary(_) => write_binary(value, f),
        Shape::Struct(fields, _) => match values_in(value) {
            Some(values) => write_struct(fields, values, f),
            None => f.write_str("null"),
        },
        Shape::List(element, _) => match values_in(value) {
            Some(values) => write_list(element, values, f),
            None => f.write_str("null"),
        },
        Shape::Extension(id, storage, metadata) => {
            match temporal_in(id, storage, metadata, value) {
                Some(shown) => write_shown(shown, f),
                None => write_stored(id, storage, value, f),
            }
        }
        Shape::FixedSizeList(element, size, _) => match values_in(value) {
            Some(values) => {
                write!(f, "fixed_size<{size}>")?;
                write_list(element, values, f)
            }
            None => f.write_str("null"),
        },
    }
}

/// Writes an id and the scalar of a storage.
#[cycle(printing)]
fn write_stored<W: fmt::Write>(
    id: &str,
    storage: TypeRef<'_>,
    value: &ScalarValue,
    f: &mut fmt::Formatter<W>,
) -> fmt::Result
    ensures { let stored = scalar_text (ref_term storage.entry) value.now in
        let text = id.now ++ codes "(" ++ stored ++ codes ")" in
        WritesOnOk W.write_str_gives f.old result text f.new }
{
    f.write_str(id)?;
    f.write_str("(")?;
    write_scalar(storage, value, f)?;
    f.write_str(")")
}

/// Writes a list.
#[cycle(printing)]
fn write_list<W: fmt::Write>(
    element: TypeRef<'_>,
    values: &[ScalarValue],
    f: &mut fmt::Formatter<W>,
) -> fmt::Result
    ensures { let texts = map (scalar_text (ref_term element.entry)) values.now in
        let text = codes "[" ++ joined (codes ", ") texts ++ codes "]" in
        WritesOnOk W.write_str_gives f.old result text f.new }
{
    f.write_str("[")?;
    for i in 0..values.len() {
        write_comma(i, f)?;
        write_scalar(element, value_at(values, i), f)?;
    }
    f.write_str("]")
}

/// Writes a struct.
#[cycle(printing)]
fn write_struct<W: fmt::Write>(
    fields: FieldsRef<'_>,
    values: &[ScalarValue],
    f: &mut fmt::Formatter<W>,
) -> fmt::Result
    ensures { let texts = field_texts (fields_term fields.entry) values.now in
        let text = codes "{" ++ joined (codes ", ") texts ++ codes "}" in
        WritesOnOk W.write_str_gives f.old result text f.new }
{
    f.write_str("{")?;
    let count = fields.len().min(values.len());
    for i in 0..count {
        write_comma(i, f)?;
        write_field(fields, i, value_at(values, i), f)?;
    }
    f.write_str("}")
}

/// Writes the name of the field at an index, and a value under its type.
#[cycle(printing)]
fn write_field<W: fmt::Write>(
    fields: FieldsRef<'_>,
    i: usize,
    value: &ScalarValue,
    f: &mut fmt::Formatter<W>,
) -> fmt::Result
    ensures { let text = field_text (fields_term fields.entry) i value.now in
        WritesOnOk W.write_str_gives f.old result text f.new }
{
    write_name(fields.name(i), f)?;
    f.write_str(": ")?;
    write_part(fields, i, value, f)
}

/// Writes a value under the type of the field at an index.
#[cycle(printing)]
#[tactic(auto, using(crate::proofs::Sized::part_lighter))]
fn write_part<W: fmt::Write>(
    fields: FieldsRef<'_>,
    i: usize,
    value: &ScalarValue,
    f: &mut fmt::Formatter<W>,
) -> fmt::Result
    ensures { let part = field_at (fields_term fields.entry) i in
        let text = option_map_or (λ t. scalar_text t value.now) part [] in
        WritesOnOk W.write_str_gives f.old result text f.new }
{
    match fields.part(i) {
        Some(part) => write_scalar(part, value, f),
        None => Ok(()),
    }
}

/// Writes a name, if there is one.
fn write_name<W: fmt::Write>(name: Option<&str>, f: &mut fmt::Formatter<W>) -> fmt::Result
    ensures { let text = option_map_or (λ x. x) (option_copied name.entry) [] in
        WritesOnOk W.write_str_gives f.old result text f.new }
{
    match name {
        Some(name) => f.write_str(name),
        None => Ok(()),
    }
}

/// Writes what stands before the text at an index.
fn write_comma<W: fmt::Write>(i: usize, f: &mut fmt::Formatter<W>) -> fmt::Result
    ensures { WritesOnOk W.write_str_gives f.old result (between (codes ", ") i) f.new }
{
    if i == 0 { Ok(()) } else { f.write_str(", ") }
}

/// The values inside a list or a struct.
fn values_in(value: &ScalarValue) -> Option<&[ScalarValue]>
    ensures { option_copied result ≡ values_of value.now }
{
    match value.value_ref() {
        ValueRef::List(values) => Some(values),
        _ => None,
    }
}

fn write_truth<W: fmt::Write>(value: &ScalarValue, f: &mut fmt::Formatter<W>) -> fmt::Result
    ensures { WritesOnOk W.write_str_gives f.old result (truth_text value.now) f.new }
{
    match value.value_ref() {
        ValueRef::Bool(truth) => fmt::Display::fmt(&truth, f),
        _ => f.write_str("null"),
    }
}

fn write_number<W: fmt::Write>(
    ptype: PType,
    value: &ScalarValue,
    f: &mut fmt::Formatter<W>,
) -> fmt::Result
    ensures { let text = number_text (whole_kind ptype) value.now in
        WritesOnOk W.write_str_gives f.old result text f.new }
{
    match value.value_ref() {
        ValueRef::Primitive(number) => {
            fmt::Display::fmt(&number.as_i128(), f)?;
            fmt::Display::fmt(&ptype, f)
        }
        _ => f.write_str("null"),
    }
}

fn write_decimal<W: fmt::Write>(
    dtype: DecimalDType,
    value: &ScalarValue,
    f: &mut fmt::Formatter<W>,
) -> fmt::Result
    ensures { let text = option_map_or (decimal_text dtype.precision dtype.scale)
        (decimal_in value.now) null_text in
        WritesOnOk W.write_str_gives f.old result text f.new }
{
    match decimal_of(value) {
        Some((bits, number)) => write_decimal_number(dtype, bits, number, f),
        None => f.write_str("null"),
    }
}

/// Writes a decimal whose number is kept in so many bits.
fn write_decimal_number<W: fmt::Write>(
    dtype: DecimalDType,
    bits: usize,
    number: i128,
    f: &mut fmt::Formatter<W>,
) -> fmt::Result
    ensures { let text = decimal_text dtype.precision dtype.scale (bits, number) in
        WritesOnOk W.write_str_gives f.old result text f.new }
{
    write_decimal_start(bits, number, f)?;
    write_decimal_end(dtype, f)
}

fn write_decimal_start<W: fmt::Write>(
    bits: usize,
    number: i128,
    f: &mut fmt::Formatter<W>,
) -> fmt::Result
    ensures { let text = decimal_start (bits, number) in
        WritesOnOk W.write_str_gives f.old result text f.new }
{
    write!(f, "decimal{bits}({number}")
}

fn write_decimal_end<W: fmt::Write>(dtype: DecimalDType, f: &mut fmt::Formatter<W>) -> fmt::Result
    ensures { let text = decimal_end dtype.precision dtype.scale in
        WritesOnOk W.write_str_gives f.old result text f.new }
{
    let precision = dtype.precision();
    let scale = dtype.scale();
    write!(f, ", precision={precision}, scale={scale})")
}

/// The width in bits and the number of a decimal.
fn decimal_of(value: &ScalarValue) -> Option<(usize, i128)>
    ensures { result ≡ decimal_in value.now }
{
    match value.value_ref() {
        ValueRef::Decimal(number) => Some((bits_of(number), number.as_i128())),
        ValueRef::Buffer(bytes) => decimal_of_bytes(bytes.as_slice()),
        _ => None,
    }
}

fn bits_of(value: DecimalValue) -> usize
    ensures { result ≡ width_bits (width_of value) }
{
    match value.values_type() {
        DecimalValueType::I8 => 8,
        DecimalValueType::I16 => 16,
        DecimalValueType::I32 => 32,
        DecimalValueType::I64 => 64,
        DecimalValueType::I128 => 128,
    }
}

/// The same of a number's bytes.
#[tactic(auto, using(crate::proofs::TextLemmas::few_bytes))]
fn decimal_of_bytes(bytes: &[u8]) -> Option<(usize, i128)>
    ensures { result ≡ option_map (λ z. (length bytes.now * 8, z)) (number_of_bytes bytes.now) }
{
    let number = number_of_bytes(bytes)?;
    Some((bytes.len() * 8, number))
}

fn write_utf8<W: fmt::Write>(value: &ScalarValue, f: &mut fmt::Formatter<W>) -> fmt::Result
    ensures { let text = option_map_or quoted (text_in value.now) null_text in
        WritesOnOk W.write_str_gives f.old result text f.new }
{
    match value.value_ref() {
        ValueRef::Buffer(bytes) => write_text_bytes(bytes.as_slice(), f),
        ValueRef::BufferString(text) => write_quoted(text.as_str(), f),
        _ => f.write_str("null"),
    }
}

/// Writes the bytes of a text.
fn write_text_bytes<W: fmt::Write>(bytes: &[u8], f: &mut fmt::Formatter<W>) -> fmt::Result
    ensures { let text = option_map_or quoted (text_in (bytes_value bytes.now)) null_text in
        WritesOnOk W.write_str_gives f.old result text f.new }
{
    match text_of(bytes) {
        Some(text) => write_quoted(text, f),
        None => f.write_str("null"),
    }
}

/// The bytes as a text, where they are one.
fn text_of(bytes: &[u8]) -> Option<&str>
    ensures { option_copied result ≡ text_in (bytes_value bytes.now) }
{
    match str::from_utf8(bytes) {
        Ok(text) => Some(text),
        Err(_) => None,
    }
}

fn write_quoted<W: fmt::Write>(text: &str, f: &mut fmt::Formatter<W>) -> fmt::Result
    ensures { WritesOnOk W.write_str_gives f.old result (quoted text.now) f.new }
{
    f.write_str("\"")?;
    f.write_str(text)?;
    f.write_str("\"")
}

fn write_binary<W: fmt::Write>(value: &ScalarValue, f: &mut fmt::Formatter<W>) -> fmt::Result
    ensures { let text = option_map_or (λ bs. quoted (hex_text bs)) (bytes_in value.now) null_text in
        WritesOnOk W.write_str_gives f.old result text f.new }
{
    match value.value_ref() {
        ValueRef::Buffer(bytes) => write_hex(bytes.as_slice(), f),
        ValueRef::BufferString(text) => write_hex(text.as_str().as_bytes(), f),
        _ => f.write_str("null"),
    }
}

/// Writes bytes in quotes.
fn write_hex<W: fmt::Write>(bytes: &[u8], f: &mut fmt::Formatter<W>) -> fmt::Result
    ensures { WritesOnOk W.write_str_gives f.old result (quoted (hex_text bytes.now)) f.new }
{
    f.write_str("\"")?;
    for i in 0..bytes.len() {
        write_blank(i, f)?;
        write_byte(bytes, i, f)?;
    }
    f.write_str("\"")
}

/// Writes what stands before the byte at an index.
fn write_blank<W: fmt::Write>(i: usize, f: &mut fmt::Formatter<W>) -> fmt::Result
    ensures { WritesOnOk W.write_str_gives f.old result (between (codes " ") i) f.new }
{
    if i == 0 { Ok(()) } else { f.write_str(" ") }
}

/// Writes the byte at an index.
fn write_byte<W: fmt::Write>(bytes: &[u8], i: usize, f: &mut fmt::Formatter<W>) -> fmt::Result
    requires { i < length bytes.now }
    ensures { let text = digits 16 false (slice_index bytes.now i) in
        WritesOnOk W.write_str_gives f.old result text f.new }
{
    let byte = bytes[i];
    fmt::LowerHex::fmt(&byte, f)
}
