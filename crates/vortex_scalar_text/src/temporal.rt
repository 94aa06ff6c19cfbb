//! Scalars of times, dates and timestamps, which are printed as `jiff` prints them.

ghost use Rattle.std.specs.Prelude.{◌≡◌, if◌then◌else◌, Some, None};
ghost use Rattle.std.specs.Option.{option_copied, option_map};
ghost use Rattle.std.specs.Fmt.{WritesOnOk};
ghost use Rattle.vortex_terms.specs.Term.{signed_64};
ghost use Rattle.vortex_terms.specs.Tests.{is_in_range};
ghost use Rattle.vortex_types.specs.TypeRefs.{ref_term};
ghost use Rattle.vortex_time.specs.Metadata.{metadata_of};
ghost use Rattle.vortex_scalar_text.specs.ScalarText.{null_text};
ghost use Rattle.vortex_scalar_text.specs.TemporalText.{is_read, is_whole, number_shown};
ghost use Rattle.vortex_scalar_text.specs.TemporalText.{temporal_text};
ghost use Rattle.vortex_scalar_text.specs.inner.Shown.{is_of_metadata, shown_text};

use std::fmt;
use vortex_scalar_value::{ScalarValue, ValueRef};
use vortex_time::{CivilJiff, TemporalError, TemporalMetadata};
use vortex_types::{Shape, TypeRef};

/// What is printed in place of the id and the storage, where something is: a time, or null.
pub(crate) fn temporal_in(
    id: &str,
    storage: TypeRef<'_>,
    metadata: Option<&[u8]>,
    value: &ScalarValue,
) -> Option<Option<CivilJiff>>
    ensures { option_map shown_text result
        ≡ temporal_text id.now (ref_term storage.entry) (option_copied metadata.entry) value.now }
{
    match value.value_ref() {
        ValueRef::Null => null_in(id, metadata),
        ValueRef::Primitive(number) => {
            if is_whole(storage) {
                number_in(id, metadata, number.as_i128())
            } else {
                None
            }
        }
        _ => None,
    }
}

/// Null, where the metadata is read.
fn null_in(id: &str, metadata: Option<&[u8]>) -> Option<Option<CivilJiff>>
    ensures { let metadata = metadata_of id.now (option_copied metadata.entry) in
        option_map shown_text result ≡ (if is_read metadata then Some null_text else None) }
{
    if is_read(id, metadata) {
        Some(None)
    } else {
        None
    }
}

/// Whether the metadata of an id is read.
fn is_read(id: &str, metadata: Option<&[u8]>) -> bool
    ensures { result ≡ is_read (metadata_of id.now (option_copied metadata.entry)) }
{
    match TemporalMetadata::unzoned(id, metadata, 0) {
        Ok(_) => true,
        Err(error) => !is_of_metadata(error),
    }
}

/// Whether the error tells that metadata is not read.
fn is_of_metadata(error: TemporalError) -> bool
    ensures { result ≡ is_of_metadata error }
{
    match error {
        TemporalError::MissingMetadata
        | TemporalError::NotTemporal
        | TemporalError::ShortMetadata
        | TemporalError::BadUnit
        | TemporalError::BadZone => true,
        _ => false,
    }
}

/// Whether it is a type of whole numbers.
fn is_whole(of: TypeRef<'_>) -> bool
    ensures { result ≡ is_whole (ref_term of.entry) }
{
    match of.shape() {
        Shape::Primitive(_, _) => true,
        _ => false,
    }
}

/// The time that a number is, where it is one in no zone.
fn number_in(id: &str, metadata: Option<&[u8]>, number: i128) -> Option<Option<CivilJiff>>
    ensures { option_map shown_text result
        ≡ number_shown id.now (option_copied metadata.entry) number }
{
    let number = in_i64(number)?;
    match TemporalMetadata::unzoned(id, metadata, number) {
        Ok(moment) => Some(Some(moment)),
        Err(_) => None,
    }
}

fn in_i64(number: i128) -> Option<i64>
    ensures { result ≡ (if is_in_range signed_64 number then Some number else None) }
{
    i64::try_from(number).ok()
}

/// Writes a time, or null.
pub(crate) fn write_shown<W: fmt::Write>(
    shown: Option<CivilJiff>,
    f: &mut fmt::Formatter<W>,
) -> fmt::Result
    ensures { WritesOnOk W.write_str_gives f.old result (shown_text shown) f.new }
{
    match shown {
        Some(moment) => fmt::Display::fmt(&moment, f),
        None => f.write_str("null"),
    }
}
