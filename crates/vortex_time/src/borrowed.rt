//! Metadata in place: read from bytes without a copy.

ghost use Rattle.std.specs.Prelude.{◌≡◌, ◌≤◌, length, take, if◌then◌else◌, Ok, Err};
ghost use Rattle.std.specs.Option.{option_copied};
ghost use Rattle.std.specs.Result.{result_map_both};
ghost use Rattle.std.specs.Str.{is_utf8};
ghost use Rattle.vortex_time.specs.Metadata.{metadata_of, first_unit, second_zone, named_zone};
ghost use Rattle.vortex_time.specs.inner.Borrowed.{borrowed_term};

use crate::error::TemporalError;
use crate::ids::{DATE_ID, TIME_ID, TIMESTAMP_ID};
use crate::unit::TimeUnit;

// The metadata of a type of times, whose zone is left where it stands.
#[derive(Clone, Copy)]
pub(crate) enum BorrowedMetadata<'a> {
    Time(TimeUnit),
    Date(TimeUnit),
    Timestamp(TimeUnit, Option<&'a str>),
}

// What the metadata of the extension of this id says.
pub(crate) fn read<'a>(
    id: &str,
    metadata: Option<&'a [u8]>,
) -> Result<BorrowedMetadata<'a>, TemporalError>
    ensures { result_map_both borrowed_term (λ e. e) result
        ≡ metadata_of id.now (option_copied metadata.entry) }
{
    let Some(bytes) = metadata else {
        return Err(TemporalError::MissingMetadata);
    };
    if id == TIME_ID {
        return Ok(BorrowedMetadata::Time(first_unit(bytes)?));
    }
    if id == DATE_ID {
        return Ok(BorrowedMetadata::Date(first_unit(bytes)?));
    }
    if id == TIMESTAMP_ID {
        let unit = first_unit(bytes)?;
        return Ok(BorrowedMetadata::Timestamp(unit, second_zone(bytes)?));
    }
    Err(TemporalError::NotTemporal)
}

// The unit whose tag comes first.
fn first_unit(bytes: &[u8]) -> Result<TimeUnit, TemporalError>
    ensures { result ≡ first_unit bytes.now }
{
    match bytes {
        [tag, ..] => TimeUnit::try_from_u8(*tag),
        [] => Err(TemporalError::ShortMetadata),
    }
}

// The name of the zone behind the tag, if it is not empty.
fn second_zone(bytes: &[u8]) -> Result<Option<&str>, TemporalError>
    ensures { result_map_both option_copied (λ e. e) result ≡ second_zone bytes.now }
{
    match bytes {
        [_, low, high, rest @ ..] => named_zone(*low as usize + 256 * *high as usize, rest),
        _ => Err(TemporalError::ShortMetadata),
    }
}

// The name of a zone that the first so many bytes are, none for 0.
fn named_zone(count: usize, bytes: &[u8]) -> Result<Option<&str>, TemporalError>
    ensures { result_map_both option_copied (λ e. e) result ≡ named_zone count bytes.now }
{
    if count == 0 {
        return Ok(None);
    }
    if bytes.len() < count {
        return Err(TemporalError::ShortMetadata);
    }
    let name = text_in(first(count, bytes))?;
    Ok(Some(name))
}

fn first(count: usize, bytes: &[u8]) -> &[u8]
    requires { count ≤ length bytes.now }
    ensures { result.now ≡ take count bytes.now }
{
    &bytes[..count]
}

fn text_in(bytes: &[u8]) -> Result<&str, TemporalError>
    ensures { result_map_both (λ t. t.now) (λ e. e) result
        ≡ (if is_utf8 bytes.now then Ok bytes.now else Err TemporalError.BadZone) }
{
    match str::from_utf8(bytes) {
        Ok(text) => Ok(text),
        Err(_) => Err(TemporalError::BadZone),
    }
}
