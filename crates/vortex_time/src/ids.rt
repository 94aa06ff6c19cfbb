//! The ids of the types of times.

ghost use Rattle.std.specs.Prelude.{◌≡◌};
ghost use Rattle.vortex_time.specs.Metadata.{is_temporal};

use vortex_names::ExtID;

/// The id of the type of times of day.
pub const TIME_ID: &str = "vortex.time";
/// The id of the type of dates.
pub const DATE_ID: &str = "vortex.date";
/// The id of the type of timestamps.
pub const TIMESTAMP_ID: &str = "vortex.timestamp";

/// Whether this is the id of a type of times.
pub fn is_temporal_ext_type(id: &ExtID) -> bool
    ensures { result ≡ is_temporal id.now }
{
    let id = id.as_str();
    id == TIME_ID || id == DATE_ID || id == TIMESTAMP_ID
}
