//! The hasher of names, which has a salt.

ghost use Rattle.std.specs.Prelude.{◌≡◌};
ghost use Rattle.vs_reader.specs.Salts.{salted_hasher};

use std::hash::{BuildHasher, DefaultHasher, Hasher};

/// Hashes the names of one text, behind a salt that comes from the whole text. Strangers choose the names. Under a
/// fixed hash they could choose names that collide; here they need the salt for that, and it depends on these names.
#[derive(Clone, Copy)]
pub struct Salted {
    /// A hasher that has taken in the salt.
    pub start: DefaultHasher,
}

impl Salted {
    /// The hasher of the names of a text.
    pub fn of_text(text: &[u8]) -> Salted
        ensures { result.start ≡ salted_hasher text.now }
    {
        let mut digest = DefaultHasher::new();
        digest.write(text);
        let mut start = DefaultHasher::new();
        start.write_u64(digest.finish());
        Salted { start }
    }
}

impl BuildHasher for Salted {
    type Hasher = DefaultHasher;

    ghost build_hasher = { λ s. s.start };

    fn build_hasher(&self) -> DefaultHasher {
        self.start
    }
}
