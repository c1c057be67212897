//! The program's own options.

use std::alloc::Global;
use vs_types::Memory;

/// The option that lets nothing be said on standard error.
pub const QUIET: &str = "--quiet";

/// The option that has lines of progress written there.
pub const LOG: &str = "--log";

/// The options that stand before the command.
#[derive(Clone, Copy)]
pub struct Own {
    /// Whether no sentence is said.
    pub quiet: bool,
    /// Whether lines say how far a search has come.
    pub log: bool,
}

impl Own {
    /// The options before the command, and the words from the command on.
    pub fn taken(alloc: Global, words: Vec<String>) -> Result<(Own, Vec<String>), Memory> {
        let mut own = Own {
            quiet: false,
            log: false,
        };
        let mut rest = Vec::new(alloc);
        for word in words {
            if !rest.is_empty() || !own.takes(word.as_str()) {
                rest.push(word)?;
            }
        }
        Ok((own, rest))
    }

    /// Takes a word where it is one of the options, and says whether it is.
    fn takes(&mut self, word: &str) -> bool {
        if word == QUIET {
            self.quiet = true;
        } else if word == LOG {
            self.log = true;
        } else {
            return false;
        }
        true
    }
}
