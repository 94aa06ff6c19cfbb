//! Limits of dictionaries.

/// How large a dictionary may become.
#[derive(Clone, Copy, Debug, PartialEq, Eq)]
pub struct DictConstraints {
    /// How many bytes its values may count for.
    pub max_bytes: usize,
    /// How many values it may have.
    pub max_len: usize,
}

/// No limits.
pub const UNCONSTRAINED: DictConstraints = DictConstraints {
    max_bytes: usize::MAX,
    max_len: usize::MAX,
};
