//! What the program knows of its commands.

use crate::usage::{COMMANDS, OPTIONS};

/// A command, as it stands in the usage.
#[derive(Clone, Copy)]
pub struct Command {
    /// The word that asks for it.
    pub name: &'static str,
    /// How many files it reads at most: none, a timetable, or a timetable and what stands behind it.
    pub files: usize,
    /// Its options, behind each of which a value stands.
    pub options: &'static [&'static str],
    /// How it is called, in a line.
    pub usage: &'static str,
    /// What it does, in lines.
    pub about: &'static str,
}

impl Command {
    /// The command that a word asks for. None where no command has that name.
    pub fn named(word: &str) -> Option<&'static Command> {
        COMMANDS.iter().find(|command| command.name == word)
    }

    /// Whether a word is one of its options.
    pub fn has_option(&self, word: &str) -> bool {
        self.options.iter().any(|option| *option == word)
    }
}

/// Which values an option takes. Nothing is said of a word that is no option.
pub fn values_of(option: &str) -> &'static str {
    match OPTIONS.iter().find(|(name, _)| *name == option) {
        Some((_, values)) => values,
        None => "",
    }
}
