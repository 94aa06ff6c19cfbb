//! Numbers, decimals, texts and offsets of values.

ghost use Rattle.std.specs.Prelude.{◌≡◌, length, map, IsTrue, MatchResult};
ghost use Rattle.std.specs.List.{AllByRecursion, flat_map};
ghost use Rattle.std.specs.Int.{w128};
ghost use Rattle.vortex_number.specs.Format.{fits, signed};
ghost use Rattle.vortex_number.specs.PType.{format_of};
ghost use Rattle.vortex_value.specs.PValue.{number_of};
ghost use Rattle.vortex_terms.specs.Row.{whole_row};
ghost use Rattle.vortex_leaves.specs.Selected.{joined_offsets, AreNumbersOf};
ghost use Rattle.vortex_leaves.specs.Texts.{text_pieces};
ghost use Rattle.vortex_array_plain.specs.PlainValues.{bytes_in, decimal_in, number_in, values_in, RefusesSizes};

use crate::plain_values::inside;
use bytes::Bytes;
use std::alloc::Global;
use vortex_array_data::{ArrayError, MOST_ROWS};
use vortex_leaves::{Decimals, Numbers, Offsets, OffsetsBuilder, Texts};
use vortex_number::PType;
use vortex_scalar_value::{ScalarValue, ValueRef};
use vortex_value::{NativePType, PValue};
use vortex_value_rows::number_of_bytes;

/// The number in the value, and 0 where there is none.
fn primitive_in(value: &ScalarValue) -> PValue
    ensures { number_of result ≡ number_in value.now }
{
    match value.value_ref() {
        ValueRef::Primitive(number) => number,
        _ => PValue::U8(0),
    }
}

fn decimal_in(value: &ScalarValue) -> i128
    ensures { result ≡ decimal_in value.now }
{
    match value.value_ref() {
        ValueRef::Decimal(number) => number.as_i128(),
        ValueRef::Buffer(bytes) => match number_of_bytes(bytes.as_slice()) {
            Some(number) => number,
            None => 0,
        },
        _ => 0,
    }
}

fn bytes_in<'a>(value: &'a ScalarValue) -> &'a [u8]
    ensures { result.now ≡ bytes_in value.now }
{
    match value.value_ref() {
        ValueRef::Buffer(bytes) => bytes.as_slice(),
        ValueRef::BufferString(text) => text.as_str().as_bytes(),
        _ => &[],
    }
}

/// The number, where it is one of the type.
fn native<T: NativePType>(value: &ScalarValue) -> T
    requires { IsTrue (fits (format_of T.PTYPE) (number_in value.now)) }
    ensures { T.number result ≡ number_in value.now }
{
    primitive_in(value).as_primitive::<T>()
}

/// The numbers.
fn natives<T: NativePType>(alloc: Global, values: &[ScalarValue]) -> Result<Vec<T>, ArrayError>
    requires { AllByRecursion (λ v. IsTrue (fits (format_of T.PTYPE) (number_in v))) values.now }
    ensures { MatchResult result (λ xs. map T.number xs.items ≡ map number_in values.now)
        (λ e. e ≡ ArrayError.OutOfMemory) }
{
    let mut out = Vec::with_capacity(alloc, values.len())?;
    for value in values {
        out.push(native::<T>(value))?;
    }
    Ok(out)
}

/// The numbers, one behind the other.
fn native_numbers<T: NativePType>(
    alloc: Global,
    values: &[ScalarValue],
) -> Result<Numbers, ArrayError>
    requires { AllByRecursion (λ v. IsTrue (fits (format_of T.PTYPE) (number_in v))) values.now }
    ensures { MatchResult result
        (AreNumbersOf (format_of T.PTYPE) (map (λ v. whole_row (number_in v)) values.now))
        (λ e. e ≡ ArrayError.OutOfMemory) }
{
    let natives = natives::<T>(alloc, values)?;
    Ok(Numbers::from_values(alloc, &natives)?)
}

/// The numbers of a kind.
pub(crate) fn number_values(
    alloc: Global,
    ptype: PType,
    values: &[ScalarValue],
) -> Result<Numbers, ArrayError>
    requires { AllByRecursion (λ v. IsTrue (fits (format_of ptype) (number_in v))) values.now }
    ensures { MatchResult result
        (AreNumbersOf (format_of ptype) (map (λ v. whole_row (number_in v)) values.now))
        (λ e. e ≡ ArrayError.OutOfMemory) }
{
    match ptype {
        PType::U8 => native_numbers::<u8>(alloc, values),
        PType::U16 => native_numbers::<u16>(alloc, values),
        PType::U32 => native_numbers::<u32>(alloc, values),
        PType::U64 => native_numbers::<u64>(alloc, values),
        PType::I8 => native_numbers::<i8>(alloc, values),
        PType::I16 => native_numbers::<i16>(alloc, values),
        PType::I32 => native_numbers::<i32>(alloc, values),
        PType::I64 => native_numbers::<i64>(alloc, values),
    }
}

/// The numbers of decimals.
fn decimals_in(alloc: Global, values: &[ScalarValue]) -> Result<Vec<i128>, ArrayError>
    ensures { MatchResult result (λ xs. xs.items ≡ map decimal_in values.now)
        (λ e. e ≡ ArrayError.OutOfMemory) }
{
    let mut out = Vec::with_capacity(alloc, values.len())?;
    for value in values {
        out.push(decimal_in(value))?;
    }
    Ok(out)
}

/// The decimals, held in 128 bits.
pub(crate) fn decimal_values(alloc: Global, values: &[ScalarValue]) -> Result<Decimals, ArrayError>
    ensures { MatchResult result
        (AreNumbersOf (signed w128) (map (λ v. whole_row (decimal_in v)) values.now))
        (λ e. e ≡ ArrayError.OutOfMemory) }
{
    let numbers = decimals_in(alloc, values)?;
    Ok(Decimals::from_values(alloc, &numbers)?)
}

/// The offsets of pieces of these sizes.
fn offsets_of(alloc: Global, sizes: &[usize]) -> Result<Offsets, ArrayError>
    ensures { MatchResult result (λ os. os ≡ joined_offsets sizes.now)
        (RefusesSizes sizes.now) }
{
    let mut offsets = OffsetsBuilder::new(alloc)?;
    let mut end: usize = 0;
    for size in sizes {
        let next = end.saturating_add(*size);
        if next > MOST_ROWS {
            return Err(ArrayError::TooLarge);
        }
        offsets.push(next as u32)?;
        end = next;
    }
    Ok(offsets.finish()?)
}

/// How many values are in each list.
fn list_sizes(alloc: Global, values: &[ScalarValue]) -> Result<Vec<usize>, ArrayError>
    ensures { MatchResult result (λ xs. xs.items ≡ map (λ v. length (values_in v)) values.now)
        (λ e. e ≡ ArrayError.OutOfMemory) }
{
    let mut out = Vec::with_capacity(alloc, values.len())?;
    for value in values {
        out.push(inside(value).len())?;
    }
    Ok(out)
}

/// The offsets of the lists.
pub(crate) fn list_offsets(alloc: Global, values: &[ScalarValue]) -> Result<Offsets, ArrayError>
    ensures { MatchResult result
        (λ os. os ≡ joined_offsets (map (λ v. length (values_in v)) values.now))
        (RefusesSizes (map (λ v. length (values_in v)) values.now)) }
{
    let sizes = list_sizes(alloc, values)?;
    offsets_of(alloc, &sizes)
}

/// How many bytes are in each text.
fn text_sizes(alloc: Global, values: &[ScalarValue]) -> Result<Vec<usize>, ArrayError>
    ensures { MatchResult result (λ xs. xs.items ≡ map (λ v. length (bytes_in v)) values.now)
        (λ e. e ≡ ArrayError.OutOfMemory) }
{
    let mut out = Vec::with_capacity(alloc, values.len())?;
    for value in values {
        out.push(bytes_in(value).len())?;
    }
    Ok(out)
}

/// The bytes of all texts.
fn all_bytes(alloc: Global, values: &[ScalarValue]) -> Result<Vec<u8>, ArrayError>
    ensures { MatchResult result (λ bs. bs.items ≡ flat_map bytes_in values.now)
        (λ e. e ≡ ArrayError.OutOfMemory) }
{
    let mut out = Vec::new(alloc);
    for value in values {
        out.extend_from_slice(bytes_in(value))?;
    }
    Ok(out)
}

/// The texts, joined.
pub(crate) fn text_values(alloc: Global, values: &[ScalarValue]) -> Result<Texts, ArrayError>
    ensures { MatchResult result (λ a. text_pieces a ≡ map bytes_in values.now)
        (RefusesSizes (map (λ v. length (bytes_in v)) values.now)) }
{
    let sizes = text_sizes(alloc, values)?;
    let offsets = offsets_of(alloc, &sizes)?;
    let bytes = Bytes::from_vec(all_bytes(alloc, values)?)?;
    Ok(Texts::from_parts(offsets, bytes))
}
