//! The sentence for a word that is refused.

use crate::call::{Call, STANDARD};
use crate::command::{Command, values_of};
use crate::nearest::nearest;
use crate::own::{LOG, QUIET};
use crate::usage::{ABOUT, NAMES};
use std::alloc::Global;
use vs_instance::{MAX_TRIPS, USUAL_TRIPS};
use vs_messages::{Part, sentence_of};
use vs_types::Memory;

/// What is said of the first bad word of a call, whose place is counted from 1, or of one that is missing.
pub fn refused_words(alloc: Global, call: &Call, place: usize) -> Result<String, Memory> {
    let last = last_before(call, place);
    let Some(word) = call.words.get(place.saturating_sub(1)) else {
        return missing_words(alloc, call, last);
    };
    let word = word.as_str();
    let Some(command) = call.command else {
        return command_words(alloc, word);
    };
    if command.has_option(last) {
        return value_words(alloc, word, last);
    }
    if command.files == 0 && place == 2 {
        return count_words(alloc, word, command);
    }
    if word.starts_with('-') && word != STANDARD {
        return option_words(alloc, word, command);
    }
    argument_words(alloc, word, command, call)
}

/// The word before the one at this place, which is counted from 1. It is empty where there is none.
fn last_before(call: &Call, place: usize) -> &str {
    match call.words.get(place.saturating_sub(2)) {
        Some(word) if place > 1 => word.as_str(),
        _ => "",
    }
}

/// What is said of a word that is missing behind this one.
fn missing_words(alloc: Global, call: &Call, last: &str) -> Result<String, Memory> {
    let Some(command) = call.command else {
        return sentence_of(alloc, "a command is missing", &[]);
    };
    if command.has_option(last) {
        let parts = [Part::Word(last), Part::Word(values_of(last))];
        return sentence_of(alloc, "% needs a value: %", &parts);
    }
    let parts = [Part::Word(command.name), Part::Number(most_trips(command))];
    sentence_of(alloc, "% needs a number of trips: 0 to %", &parts)
}

/// How many trips a command takes at most.
fn most_trips(command: &Command) -> u64 {
    if command.name == "make" {
        u64::from(MAX_TRIPS)
    } else {
        u64::from(USUAL_TRIPS)
    }
}

/// What is said of a first word that is no command.
fn command_words(alloc: Global, word: &str) -> Result<String, Memory> {
    let shown = [Part::Bytes(word.as_bytes())];
    if ABOUT.iter().any(|it| *it == word) {
        return sentence_of(alloc, "\"%\" stands alone, or behind a command", &shown);
    }
    let words = sentence_of(alloc, "\"%\" is no command", &shown)?;
    guessed(alloc, words, word, NAMES)
}

/// What is said of a word that is no value of the option before it.
fn value_words(alloc: Global, word: &str, option: &str) -> Result<String, Memory> {
    let parts = [
        Part::Bytes(word.as_bytes()),
        Part::Word(option),
        Part::Word(values_of(option)),
    ];
    sentence_of(alloc, "\"%\" is no value of %: %", &parts)
}

/// What is said of a word that is no number of trips.
fn count_words(alloc: Global, word: &str, command: &Command) -> Result<String, Memory> {
    let parts = [
        Part::Bytes(word.as_bytes()),
        Part::Word(command.name),
        Part::Number(most_trips(command)),
    ];
    sentence_of(alloc, "\"%\" is no number of trips for %: 0 to %", &parts)
}

/// What is said of a word that would be an option.
fn option_words(alloc: Global, word: &str, command: &Command) -> Result<String, Memory> {
    let parts = [Part::Bytes(word.as_bytes()), Part::Word(command.name)];
    if word == QUIET || word == LOG {
        return sentence_of(alloc, "\"%\" has to stand before %", &parts);
    }
    if command.has_option(word) {
        return sentence_of(alloc, "\"%\" stands twice", &parts);
    }
    let words = sentence_of(alloc, "\"%\" is no option of %", &parts)?;
    guessed(alloc, words, word, command.options)
}

/// What is said of any other word.
fn argument_words(
    alloc: Global,
    word: &str,
    command: &Command,
    call: &Call,
) -> Result<String, Memory> {
    let parts = [Part::Bytes(word.as_bytes()), Part::Word(command.name)];
    if call.is_full() {
        return sentence_of(alloc, "\"%\" is one argument too many for %", &parts);
    }
    if word == STANDARD {
        return sentence_of(alloc, "\"%\" stands twice", &parts);
    }
    let words = sentence_of(alloc, "\"%\" names no file", &parts)?;
    guessed(alloc, words, word, command.options)
}

/// A sentence, and behind it the name to which the word is nearest, where there is one.
fn guessed(
    alloc: Global,
    mut words: String,
    word: &str,
    names: &[&'static str],
) -> Result<String, Memory> {
    if let Some(name) = nearest(alloc, word, names)? {
        words.push_str("; did you mean ")?;
        words.push_str(name)?;
        words.push('?')?;
    }
    Ok(words)
}
