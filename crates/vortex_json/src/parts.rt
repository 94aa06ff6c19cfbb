//! Values taken apart. Each call answers None, or Malformed, where a value has no such part.

ghost use Rattle.std.specs.Prelude.{◌≡◌};
ghost use Rattle.std.specs.Option.{option_map};
ghost use Rattle.serde_json.specs.Find.{as_array, as_str, get};
ghost use Rattle.serde_json.specs.View.{items_view, members_view, view};
ghost use Rattle.vortex_names.specs.Nullable.{is_nullable};
ghost use Rattle.vortex_number.specs.WholeKind.{whole_kind};
ghost use Rattle.vortex_types.specs.Standing.{IsFoundAs};
ghost use Rattle.vortex_json.specs.Found.{bits_found, count_found, flag_found, kind_found};
ghost use Rattle.vortex_json.specs.Found.{only_member, pair_found, three_items, triple_found};
ghost use Rattle.vortex_json.specs.Found.{two_items, whole_found};

use crate::kinds::kind_of;
use serde_json::{Map, Value};
use vortex_names::{DTypeError, Nullability};
use vortex_number::PType;

/// The name and the value of the one member of an object.
#[tactic(auto, using(crate::proofs::Taken::other_members, crate::proofs::Taken::one_member))]
pub(crate) fn only_member(members: &Map<String, Value>) -> Option<(&str, &Value)>
    ensures { option_map (λ p. (p.0.now, view p.1.now)) result
        ≡ only_member (members_view members.now.entries) }
{
    if members.len() != 1 {
        return None;
    }
    let (name, value) = members.first_key_value()?;
    Some((name.as_str(), value))
}

/// The member of this name.
pub(crate) fn member<'a>(value: &'a Value, name: &str) -> Result<&'a Value, DTypeError>
    ensures { IsFoundAs (λ v. view v.now) result (get name.now (view value.now)) }
{
    match value.get(name) {
        Some(member) => Ok(member),
        None => Err(DTypeError::Malformed),
    }
}

/// The items of a list.
pub(crate) fn items(value: &Value) -> Result<&[Value], DTypeError>
    ensures { IsFoundAs (λ items. items_view items.now) result (as_array (view value.now)) }
{
    match value.as_array() {
        Some(items) => Ok(items.as_slice()),
        None => Err(DTypeError::Malformed),
    }
}

/// A list of two.
pub(crate) fn pair(value: &Value) -> Result<(&Value, &Value), DTypeError>
    ensures { IsFoundAs (λ p. (view p.0.now, view p.1.now)) result (pair_found (view value.now)) }
{
    match two_items(items(value)?) {
        Some(both) => Ok(both),
        None => Err(DTypeError::Malformed),
    }
}

#[tactic(auto, using(crate::proofs::Taken::not_two, crate::proofs::Taken::both))]
fn two_items(items: &[Value]) -> Option<(&Value, &Value)>
    ensures { option_map (λ p. (view p.0.now, view p.1.now)) result
        ≡ two_items (items_view items.now) }
{
    if items.len() != 2 {
        return None;
    }
    Some((&items[0], &items[1]))
}

/// A list of three.
pub(crate) fn triple(value: &Value) -> Result<(&Value, &Value, &Value), DTypeError>
    ensures { IsFoundAs (λ p. (view p.0.now, view p.1.now, view p.2.now)) result
        (triple_found (view value.now)) }
{
    match three_items(items(value)?) {
        Some(all) => Ok(all),
        None => Err(DTypeError::Malformed),
    }
}

#[tactic(auto, using(crate::proofs::Taken::not_three, crate::proofs::Taken::all_three))]
fn three_items(items: &[Value]) -> Option<(&Value, &Value, &Value)>
    ensures { option_map (λ p. (view p.0.now, view p.1.now, view p.2.now)) result
        ≡ three_items (items_view items.now) }
{
    if items.len() != 3 {
        return None;
    }
    Some((&items[0], &items[1], &items[2]))
}

/// A text.
pub(crate) fn text(value: &Value) -> Result<&str, DTypeError>
    ensures { IsFoundAs (λ text. text.now) result (as_str (view value.now)) }
{
    match value.as_str() {
        Some(text) => Ok(text),
        None => Err(DTypeError::Malformed),
    }
}

/// A kind of whole numbers.
#[tactic(auto, using(crate::proofs::Taken::kind_back))]
pub(crate) fn kind(value: &Value) -> Result<PType, DTypeError>
    ensures { IsFoundAs whole_kind result (kind_found (view value.now)) }
{
    match kind_of(value) {
        Some(ptype) => Ok(ptype),
        None => Err(DTypeError::Malformed),
    }
}

/// Whether rows may be null.
pub(crate) fn flag(value: &Value) -> Result<Nullability, DTypeError>
    ensures { IsFoundAs is_nullable result (flag_found (view value.now)) }
{
    match value.as_bool() {
        Some(true) => Ok(Nullability::Nullable),
        Some(false) => Ok(Nullability::NonNullable),
        None => Err(DTypeError::Malformed),
    }
}

/// A whole number that is not below zero.
pub(crate) fn count(value: &Value) -> Result<u64, DTypeError>
    ensures { IsFoundAs (λ n. n) result (count_found (view value.now)) }
{
    match value.as_u64() {
        Some(number) => Ok(number),
        None => Err(DTypeError::Malformed),
    }
}

/// A whole number.
pub(crate) fn whole(value: &Value) -> Result<i64, DTypeError>
    ensures { IsFoundAs (λ n. n) result (whole_found (view value.now)) }
{
    match value.as_i64() {
        Some(number) => Ok(number),
        None => Err(DTypeError::Malformed),
    }
}

/// A number of 32 bits.
pub(crate) fn size(value: &Value) -> Result<u32, DTypeError>
    ensures { IsFoundAs (λ n. n) result (bits_found 32 (view value.now)) }
{
    let number = count(value)?;
    if number < 1 << 32 {
        Ok(number as u32)
    } else {
        Err(DTypeError::Malformed)
    }
}

/// A byte.
pub(crate) fn byte(value: &Value) -> Result<u8, DTypeError>
    ensures { IsFoundAs (λ n. n) result (bits_found 8 (view value.now)) }
{
    let number = count(value)?;
    if number < 256 {
        Ok(number as u8)
    } else {
        Err(DTypeError::Malformed)
    }
}
