//! What a run prints of how far it has come.

use crate::standing::{log_words, screen_words};
use crate::stopwatch::Stopwatch;
use std::rt::Clock;
use std::sync::Mutex;
use vs_crew::{Gate, Stand};

/// How progress is printed.
#[derive(Clone, Copy, PartialEq, Eq)]
pub enum Form {
    /// Not at all.
    Nothing,
    /// As one line of a terminal, which is written anew.
    Screen,
    /// As lines of a log.
    Lines,
}

impl Form {
    /// As lines where a log is asked for, else on a terminal, and nothing where it is to be quiet.
    pub fn of(log: bool, quiet: bool, terminal: bool) -> Form {
        if log {
            Form::Lines
        } else if terminal && !quiet {
            Form::Screen
        } else {
            Form::Nothing
        }
    }
}

/// What was printed last.
#[derive(Clone, Copy)]
struct Said {
    /// Where the search stood when it said so last. None before that.
    stand: Option<Stand>,
    /// The second in which it was printed, counted from 1. It is 0 where nothing was printed.
    second: u64,
}

/// A gate that never ends a search. It prints on standard error where the search stands, once a second at most.
#[derive(Drop)]
pub struct Progress<'a, R: AllocGlobal + Eprint + Clock> {
    rt: &'a R,
    form: Form,
    watch: &'a Stopwatch<'a, R>,
    said: Mutex<Said>,
}

impl<'a, R: AllocGlobal + Eprint + Clock> Progress<'a, R> {
    /// Of a run whose time this stopwatch takes.
    pub fn new(rt: &'a R, form: Form, watch: &'a Stopwatch<'a, R>) -> Progress<'a, R> {
        Progress {
            rt,
            form,
            watch,
            said: Mutex::new(Said {
                stand: None,
                second: 0,
            }),
        }
    }

    /// Prints where the search stood at last, and ends the line of a terminal.
    pub fn end(&self) {
        if let Some(stand) = self.last() {
            self.print(&stand, self.watch.seconds());
            if self.form == Form::Screen {
                let _ = eprintln!(self.rt; "");
            }
        }
    }

    /// Where the search stood at last. None where it never said so, or nothing is printed.
    fn last(&self) -> Option<Stand> {
        match self.said.try_lock() {
            Some(said) => said.stand,
            None => None,
        }
    }

    /// Keeps where the search stands, and prints it where nothing was printed in this second.
    fn say(&self, stand: &Stand) {
        let Some(mut said) = self.said.try_lock() else {
            return;
        };
        let seconds = self.watch.seconds();
        let second = seconds.saturating_add(1);
        let is_due = said.second != second;
        *said = Said {
            stand: Some(*stand),
            second,
        };
        if is_due {
            self.print(stand, seconds);
        }
    }

    /// Prints where the search stands after so many seconds, where there is memory for the words. Whether standard
    /// error takes them doesn't matter.
    fn print(&self, stand: &Stand, seconds: u64) {
        let alloc = self.rt.alloc();
        if self.form == Form::Lines {
            if let Ok(words) = log_words(alloc, stand, seconds) {
                let _ = eprintln!(self.rt; "{words}");
            }
        } else if let Ok(words) = screen_words(alloc, stand, seconds) {
            // A line that is shorter than the last one covers it with blanks.
            let _ = eprint!(self.rt; "\r{words}    ");
        }
    }
}

impl<R: AllocGlobal + Eprint + Clock> Gate for Progress<'_, R> {
    fn before(&self, _worker: u32, _leaf: u32) {}

    fn seconds(&self) -> u64 {
        self.watch.seconds()
    }

    fn is_over(&self, stand: &Stand) -> bool {
        if self.form != Form::Nothing {
            self.say(stand);
        }
        false
    }
}
