//! Times, dates and timestamps: their units, the metadata of their types, and their values; and types
//! as JSON.
#![tactic(auto)]

pub use vortex_json::{
    dtype_from_json, dtype_to_json, field_from_json, field_to_json, nullability_from_json,
    nullability_to_json, path_from_json, path_to_json, ptype_from_json, ptype_to_json,
    small_texts_are_read, small_types_are_written, written_json_is_read,
};
pub use vortex_time::{
    CivilJiff, DATE_ID, TIME_ID, TIMESTAMP_ID, TemporalError, TemporalJiff, TemporalMetadata,
    TimeUnit, is_temporal_ext_type, moments_are_worked, written_metadata_is_read,
};
