//! How values are printed.

ghost use Rattle.std.specs.Prelude.{◌≡◌, ◌<◌, ◌-◌, ◌++◌, [], drop, length, map, nat_le, slice_get};
ghost use Rattle.std.specs.Prelude.{codes, if◌then◌else◌, take, Some};
ghost use Rattle.std.specs.Char.{encode_utf8};
ghost use Rattle.std.specs.Str.{chars, encode_utf8_all};
ghost use Rattle.std.specs.List.{flat_map};
ghost use Rattle.std.specs.Fmt.{WritesOnOk};
ghost use Rattle.vortex_scalar_value.specs.Joined.{joined, between};
ghost use Rattle.vortex_scalar_value.specs.ValueText.{cut_bytes, cut_text};
ghost use Rattle.vortex_scalar_value.specs.ValueText.{two_digits, value_text};

use crate::scalar_value::ScalarValue;
use crate::value_ref::ValueRef;
use std::fmt;

/// The most bytes or characters that are printed whole.
const MOST_WHOLE: usize = 10;

/// How many bytes or characters are printed of each end of others.
const END: usize = 5;

impl fmt::Display for ScalarValue {
    ghost output = { λ v. Some (value_text v) };

    fn fmt<W: fmt::Write>(&self, f: &mut fmt::Formatter<W>) -> fmt::Result {
        write_value(self, f)
    }
}

/// Writes a value.
#[cycle(printing)]
fn write_value<W: fmt::Write>(value: &ScalarValue, f: &mut fmt::Formatter<W>) -> fmt::Result
    ensures { WritesOnOk W.write_str_gives f.old result (value_text value.now) f.new }
{
    match value.value_ref() {
        ValueRef::Null => f.write_str("null"),
        ValueRef::Bool(truth) => fmt::Display::fmt(&truth, f),
        ValueRef::Primitive(number) => fmt::Display::fmt(&number, f),
        ValueRef::Decimal(number) => fmt::Display::fmt(&number, f),
        ValueRef::Buffer(bytes) => write_bytes(bytes.as_slice(), f),
        ValueRef::BufferString(text) => write_text(text.as_str(), f),
        ValueRef::List(values) => write_list(values, f),
    }
}

/// Writes a list.
#[cycle(printing)]
fn write_list<W: fmt::Write>(values: &[ScalarValue], f: &mut fmt::Formatter<W>) -> fmt::Result
    ensures { let text = codes "[" ++ joined (codes ",") (map value_text values.now) ++ codes "]" in
        WritesOnOk W.write_str_gives f.old result text f.new }
{
    f.write_str("[")?;
    for i in 0..values.len() {
        write_comma(i, f)?;
        write_value(value_at(values, i), f)?;
    }
    f.write_str("]")
}

/// The value at an index.
fn value_at<'a>(values: &'a [ScalarValue], i: usize) -> &'a ScalarValue
    requires { i < length values.now }
    ensures { slice_get values.now i ≡ Some result.now }
{
    &values[i]
}

/// Writes what stands before the value at an index.
fn write_comma<W: fmt::Write>(i: usize, f: &mut fmt::Formatter<W>) -> fmt::Result
    ensures { WritesOnOk W.write_str_gives f.old result (between (codes ",") i) f.new }
{
    if i == 0 { Ok(()) } else { f.write_str(",") }
}

/// Writes bytes, or their ends.
fn write_bytes<W: fmt::Write>(bytes: &[u8], f: &mut fmt::Formatter<W>) -> fmt::Result
    ensures { WritesOnOk W.write_str_gives f.old result (cut_bytes bytes.now) f.new }
{
    if bytes.len() <= MOST_WHOLE {
        return write_hex(bytes, f);
    }
    write_hex(first_bytes(bytes), f)?;
    f.write_str("..")?;
    write_hex(last_bytes(bytes), f)
}

fn first_bytes(bytes: &[u8]) -> &[u8]
    requires { 10 < length bytes.now }
    ensures { result.now ≡ take 5 bytes.now }
{
    &bytes[..END]
}

fn last_bytes(bytes: &[u8]) -> &[u8]
    requires { 10 < length bytes.now }
    ensures { result.now ≡ drop (length bytes.now - 5) bytes.now }
{
    &bytes[bytes.len() - END..]
}

/// Writes each byte as two digits.
fn write_hex<W: fmt::Write>(bytes: &[u8], f: &mut fmt::Formatter<W>) -> fmt::Result
    ensures { WritesOnOk W.write_str_gives f.old result (flat_map two_digits bytes.now) f.new }
{
    for byte in bytes {
        write_byte(*byte, f)?;
    }
    Ok(())
}

/// Writes a byte as two digits.
fn write_byte<W: fmt::Write>(byte: u8, f: &mut fmt::Formatter<W>) -> fmt::Result
    ensures { WritesOnOk W.write_str_gives f.old result (two_digits byte) f.new }
{
    fmt::LowerHex::fmt(&(byte / 16), f)?;
    fmt::LowerHex::fmt(&(byte % 16), f)
}

/// Writes a text in quotes, or its ends.
fn write_text<W: fmt::Write>(text: &str, f: &mut fmt::Formatter<W>) -> fmt::Result
    ensures { let text = codes "\"" ++ cut_text text.now ++ codes "\"" in
        WritesOnOk W.write_str_gives f.old result text f.new }
{
    f.write_str("\"")?;
    write_cut_text(text, f)?;
    f.write_str("\"")
}

/// Writes a text, or its ends.
fn write_cut_text<W: fmt::Write>(text: &str, f: &mut fmt::Formatter<W>) -> fmt::Result
    ensures { WritesOnOk W.write_str_gives f.old result (cut_text text.now) f.new }
{
    let count = char_count(text);
    if count <= MOST_WHOLE {
        return f.write_str(text);
    }
    write_chars(text, 0, END, f)?;
    f.write_str("..")?;
    write_chars(text, count - END, count, f)
}

fn char_count(text: &str) -> usize
    ensures { result ≡ length (chars text.now) }
{
    text.chars().count()
}

/// Writes the characters of a text from one place to another.
fn write_chars<W: fmt::Write>(
    text: &str,
    from: usize,
    to: usize,
    f: &mut fmt::Formatter<W>,
) -> fmt::Result
    ensures { let shown = encode_utf8_all (drop from (take to (chars text.now))) in
        WritesOnOk W.write_str_gives f.old result shown f.new }
{
    let mut rest = text.chars();
    for i in 0..to {
        match rest.next() {
            Some(c) => write_char(c, from, i, f)?,
            None => return Ok(()),
        }
    }
    Ok(())
}

/// Writes the character at an index, where that is not before the first place.
fn write_char<W: fmt::Write>(
    c: char,
    from: usize,
    i: usize,
    f: &mut fmt::Formatter<W>,
) -> fmt::Result
    ensures { let shown = if nat_le from i then encode_utf8 c else [] in
        WritesOnOk W.write_str_gives f.old result shown f.new }
{
    if from <= i { f.write_char(c) } else { Ok(()) }
}
