//! Times, dates and timestamps: their units, the metadata of their types, and their values.
#![tactic(auto)]

mod borrowed;
mod error;
mod ids;
mod laws;
mod metadata;
mod moments;
mod to_jiff;
mod unit;
mod values;

pub use error::TemporalError;
pub use ids::{DATE_ID, TIME_ID, TIMESTAMP_ID, is_temporal_ext_type};
pub use laws::{moments_are_worked, written_metadata_is_read};
pub use metadata::TemporalMetadata;
pub use unit::TimeUnit;
pub use values::{CivilJiff, TemporalJiff};
