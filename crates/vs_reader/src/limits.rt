//! How long a text may be.

/// How many bytes a text may have.
pub const MAX_BYTES: usize = 536_870_912;
