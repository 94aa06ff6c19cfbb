//! Why there is no type at a place.

use thiserror::Error;

/// No type within the limits stands at the place.
#[derive(Clone, Copy, Debug, PartialEq, Eq, Error)]
#[error("malformed type")]
pub struct Malformed;
