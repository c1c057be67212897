//! What threads may share.

/// Takes what threads may share, so that a test shows that a type is such.
pub fn share<T: Send + Sync>(_shared: &T) {}
