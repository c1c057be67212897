//! The words that the program is called with: what they ask for, or which of them is the first bad one.
#![tactic(auto)]

mod command;
mod laws;
mod words;

pub use command::{Command, Effort, Plain, Search};
pub use laws::words_mean_one_thing;
pub use words::{
    BadWord, Counting, DEFAULT_WORKERS, MAX_DIGITS, MAX_GAP, MAX_LIMIT_DIGITS, MAX_SECONDS,
    Searching, Setting, command_of,
};
