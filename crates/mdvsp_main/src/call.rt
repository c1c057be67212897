//! What the program is called for.

use crate::command::Command;
use crate::joined::Joined;
use crate::own::LOG;
use crate::stop::Stop;
use crate::stream::Stream;
use std::alloc::Global;
use std::fs::File;
use std::io::{ErrorKind, Stdin};
use std::rt::Files;
use std::thread;
use std::thread::Threads;
use vs_instance::MAX_WORKERS;
use vs_types::Memory;

/// The word for standard input.
pub const STANDARD: &str = "-";

/// The option, and the word behind it for as many workers as processors.
const WORKERS: &str = "--workers";

const AUTO: &str = "auto";

/// What the program is called for, behind its own options: the words for `run`, and the streams that stood among them.
#[derive(Drop)]
pub struct Call {
    /// The words without those that name streams.
    pub words: Vec<String>,
    /// What the first word asks for. None where it is no command.
    pub command: Option<&'static Command>,
    /// What is read first. None where no word names it.
    first: Option<Stream>,
    /// What is read behind it. None where no word names it.
    second: Option<Stream>,
    /// Whether the option for lines of progress stands behind a command that searches.
    pub log: bool,
    stdin: Stdin,
}

impl Call {
    /// What these words call for. A word that names a file opens it.
    pub fn new<R: AllocGlobal + Files<File = File> + Threads>(
        rt: &R,
        stdin: Stdin,
        words: Vec<String>,
    ) -> Result<Call, Stop> {
        let words = split(rt.alloc(), words)?;
        let mut call = Call {
            words: Vec::new(rt.alloc()),
            command: words.first().and_then(|word| Command::named(word.as_str())),
            first: None,
            second: None,
            log: false,
            stdin,
        };
        for word in words {
            call.take(rt, word)?;
        }
        Ok(call)
    }

    /// Whether the command reads standard input.
    pub fn reads_standard(&self) -> bool {
        match (&self.first, &self.second) {
            (None, _) => self.reads() > 0,
            (Some(first), None) => first.is_standard(),
            (Some(first), Some(second)) => first.is_standard() || second.is_standard(),
        }
    }

    /// The words, and what is read: the streams that stood among them, else standard input. The second has to begin
    /// with a `result` record.
    pub fn opened(self, alloc: Global) -> Result<(Vec<String>, Joined), Stop> {
        let Call {
            words,
            first,
            second,
            stdin,
            ..
        } = self;
        let first = match first {
            Some(first) => first,
            None => Stream::standard(alloc, stdin)?,
        };
        let second = match second {
            Some(second) => Some(second.behind(alloc)?),
            None => None,
        };
        Ok((words, Joined::new(first, second)))
    }

    /// Whether words name as many streams as the command reads.
    pub fn is_full(&self) -> bool {
        match self.reads() {
            0 => true,
            1 => self.first.is_some(),
            _ => self.second.is_some(),
        }
    }

    /// Whether the command has options, as each that searches.
    fn searches(&self) -> bool {
        match self.command {
            Some(command) => !command.options.is_empty(),
            None => false,
        }
    }

    /// How many streams the command reads at most.
    pub fn reads(&self) -> usize {
        match self.command {
            Some(command) => command.files,
            None => 0,
        }
    }

    /// Takes a further word: a stream, or a word for `run`.
    fn take<R: AllocGlobal + Files<File = File> + Threads>(
        &mut self,
        rt: &R,
        word: String,
    ) -> Result<(), Stop> {
        if self.is_value() {
            let value = self.value_of(rt, word)?;
            return self.pass(value);
        }
        if word.as_str() == LOG && self.searches() {
            self.log = true;
            return Ok(());
        }
        if !self.may_be_stream(word.as_str()) {
            return self.pass(word);
        }
        self.open(rt, word)
    }

    /// Adds the stream of this name, or hands the word on where no file has it.
    fn open<R: AllocGlobal + Files<File = File>>(
        &mut self,
        rt: &R,
        word: String,
    ) -> Result<(), Stop> {
        if word.as_str() == STANDARD {
            self.add(Stream::standard(rt.alloc(), self.stdin)?);
            return Ok(());
        }
        match File::open(rt, word.as_str()) {
            Ok(file) => self.add(Stream::file(rt.alloc(), word, file)),
            Err(error) => match error.kind() {
                ErrorKind::NotFound | ErrorKind::NotADirectory | ErrorKind::InvalidInput => {
                    return self.pass(word);
                }
                _ => return Err(Stop::Unread(word, error)),
            },
        }
        Ok(())
    }

    /// Hands a word on to `run`.
    fn pass(&mut self, word: String) -> Result<(), Stop> {
        match self.words.push(word) {
            Ok(()) => Ok(()),
            Err(_) => Err(Stop::Memory),
        }
    }

    /// Adds a stream behind those that there are.
    fn add(&mut self, stream: Stream) {
        if self.first.is_none() {
            self.first = Some(stream);
        } else {
            self.second = Some(stream);
        }
    }

    /// Whether the next word is an option's value.
    fn is_value(&self) -> bool {
        match (self.command, self.words.last()) {
            (Some(command), Some(word)) => command.has_option(word.as_str()),
            _ => false,
        }
    }

    /// The value of the option that is the last word: for `auto` workers, as many as the process may use processors.
    fn value_of<R: AllocGlobal + Threads>(&self, rt: &R, word: String) -> Result<String, Memory> {
        match self.words.last() {
            Some(option) if option.as_str() == WORKERS && word.as_str() == AUTO => {
                let workers = workers_of(rt);
                Ok(format!(in rt.alloc(); "{workers}")?)
            }
            _ => Ok(word),
        }
    }

    /// Whether a word may be that of a stream. Standard input can be read once.
    fn may_be_stream(&self, word: &str) -> bool {
        if self.is_full() || self.words.is_empty() {
            return false;
        }
        match &self.first {
            Some(first) if word == STANDARD => !first.is_standard(),
            _ => word == STANDARD || !word.starts_with('-'),
        }
    }
}

/// As many workers as the process may use processors, 64 at most, and one where the system doesn't say.
fn workers_of<R: Threads>(rt: &R) -> usize {
    match thread::available_parallelism(rt) {
        Ok(count) => count.get().min(MAX_WORKERS as usize),
        Err(_) => 1,
    }
}

/// The words, with two in place of each option that has its value behind `=`.
fn split(alloc: Global, words: Vec<String>) -> Result<Vec<String>, Memory> {
    let mut all = Vec::new(alloc);
    for word in words {
        match option_in(word.as_str()) {
            Some((name, value)) => {
                all.push(String::from_str(alloc, name)?)?;
                all.push(String::from_str(alloc, value)?)?;
            }
            None => all.push(word)?,
        }
    }
    Ok(all)
}

/// The option and the value of a word such as `--nodes=3`. None where it is none.
fn option_in(word: &str) -> Option<(&str, &str)> {
    if word.starts_with("--") {
        word.split_once('=')
    } else {
        None
    }
}
