//! What the program says.

use vs_types::Memory;

/// What says sentences on standard error, a line each, or keeps still.
#[derive(Drop)]
pub struct Voice<'a, R: Eprint> {
    rt: &'a R,
    quiet: bool,
}

impl<'a, R: Eprint> Voice<'a, R> {
    /// One that keeps still where it is to be quiet.
    pub fn new(rt: &'a R, quiet: bool) -> Voice<'a, R> {
        Voice { rt, quiet }
    }

    /// Says a sentence. Whether standard error takes it doesn't matter.
    pub fn say(&self, words: &str) {
        if !self.quiet {
            let _ = eprintln!(self.rt; "{words}");
        }
    }

    /// Says a sentence that was made, where there was memory for it.
    pub fn say_made(&self, words: Result<String, Memory>) {
        if let Ok(words) = words {
            self.say(words.as_str());
        }
    }

    /// Says a sentence that was made, where there is one.
    pub fn say_found(&self, words: Result<Option<String>, Memory>) {
        if let Ok(Some(words)) = words {
            self.say(words.as_str());
        }
    }
}
