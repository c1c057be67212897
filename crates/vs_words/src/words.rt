//! Words, read as a command.

ghost use Rattle.std.specs.Prelude.{◌≡◌, ℕ, ◌<◌, ◌≤◌, length, IsSome, IsTrue, MatchOption, ◌↔◌};
ghost use Rattle.vs_words.specs.Words.{Answers, AreOptionsTaken, IsAlone, IsNumberFor, IsNumberUpTo, IsWordAt, TakesOption, Word, command_name, counted, digits_of, effort_of, given_with, least_of, most_of, most_trips, number_in, search_name, searched, setting_name, words_of};
ghost use Rattle.vs_words.specs.declared.words.Searching.{Searching};
ghost use Rattle.vs_words.specs.declared.words.Setting.{Setting};

use crate::command::{Command, Effort, Plain, Search};
use vs_instance::{MAX_BUDGET, MAX_TRIPS, MAX_WORKERS, USUAL_TRIPS};

/// The first bad word, counted from 1. Where a word is missing it is one more than there are.
#[derive(Clone, Copy, Debug, PartialEq, Eq)]
pub struct BadWord(pub usize);

/// How many digits a count of trips, workers or nodes has at most.
pub const MAX_DIGITS: usize = 6;

/// How many digits a limit in seconds, or of a gap, has at most.
pub const MAX_LIMIT_DIGITS: usize = 7;

/// How many workers share a search where the words don't say.
pub const DEFAULT_WORKERS: u32 = 4;

/// After how many seconds a search may be told to end at most: those of a day.
pub const MAX_SECONDS: u32 = 86_400;

/// The gap between plan and bound that every plan with a cost has, in parts per million of that cost.
pub const MAX_GAP: u32 = 1_000_000;

/// An option of a search, behind which a number stands.
#[derive(Clone, Copy, Debug, PartialEq, Eq)]
pub enum Setting {
    /// How many workers share the search.
    Workers,
    /// On how many nodes it may work at most.
    Nodes,
    /// After how many seconds it ends.
    Seconds,
    /// At which gap between plan and bound it ends, in parts per million of the plan's cost.
    Gap,
}

impl Setting {
    /// The word that it begins with.
    fn name(self) -> &'static str
        ensures { result.now ≡ setting_name self }
    {
        match self {
            Setting::Workers => "--workers",
            Setting::Nodes => "--nodes",
            Setting::Seconds => "--seconds",
            Setting::Gap => "--gap",
        }
    }

    /// The least number that it takes.
    fn least(self) -> u32
        ensures { result ≡ least_of self }
    {
        match self {
            Setting::Workers | Setting::Seconds => 1,
            Setting::Nodes | Setting::Gap => 0,
        }
    }

    /// The greatest number that it takes.
    fn most(self) -> u32
        ensures { result ≡ most_of self }
    {
        match self {
            Setting::Workers => MAX_WORKERS,
            Setting::Nodes => MAX_BUDGET,
            Setting::Seconds => MAX_SECONDS,
            Setting::Gap => MAX_GAP,
        }
    }

    /// How many digits its number has at most.
    fn digits(self) -> usize
        ensures digits { result ≡ digits_of self }
        ensures few { result ≤ MAX_LIMIT_DIGITS }
    {
        match self {
            Setting::Workers | Setting::Nodes => MAX_DIGITS,
            Setting::Seconds | Setting::Gap => MAX_LIMIT_DIGITS,
        }
    }
}

/// The numbers of the options that were given so far.
#[derive(Clone, Copy)]
struct Given {
    workers: Option<u32>,
    nodes: Option<u32>,
    seconds: Option<u32>,
    gap: Option<u32>,
}

/// No option was given.
const NONE_GIVEN: Given = Given {
    workers: None,
    nodes: None,
    seconds: None,
    gap: None,
};

impl Given {
    /// Whether the option was.
    fn has(self, setting: Setting) -> bool
        ensures { IsTrue result ↔ IsSome (number_in setting self) }
    {
        match setting {
            Setting::Workers => self.workers.is_some(),
            Setting::Nodes => self.nodes.is_some(),
            Setting::Seconds => self.seconds.is_some(),
            Setting::Gap => self.gap.is_some(),
        }
    }

    /// The same with the option's number.
    fn with(self, setting: Setting, n: u32) -> Given
        ensures { result ≡ given_with setting self n }
    {
        match setting {
            Setting::Workers => Given {
                workers: Some(n),
                ..self
            },
            Setting::Nodes => Given {
                nodes: Some(n),
                ..self
            },
            Setting::Seconds => Given {
                seconds: Some(n),
                ..self
            },
            Setting::Gap => Given {
                gap: Some(n),
                ..self
            },
        }
    }

    /// The effort of a search with these options.
    fn effort(self) -> Effort
        ensures { result ≡ effort_of self }
    {
        Effort {
            workers: self.workers.unwrap_or(DEFAULT_WORKERS),
            nodes: self.nodes,
            seconds: self.seconds,
            gap: self.gap,
        }
    }
}

/// A command that takes a count of trips.
#[derive(Clone, Copy, Debug, PartialEq, Eq)]
pub enum Counting {
    Make,
    Trial,
}

impl Counting {
    /// The command of so many trips.
    fn command(self, n: u32) -> Command
        ensures { result ≡ counted self n }
    {
        match self {
            Counting::Make => Command::Plain(Plain::Make(n)),
            Counting::Trial => Command::Search(Search::Trial(n)),
        }
    }

    /// How many trips it takes at most.
    fn most(self) -> u32
        ensures { result ≡ most_trips self }
    {
        match self {
            Counting::Make => MAX_TRIPS,
            Counting::Trial => USUAL_TRIPS,
        }
    }
}

/// A command that takes the options of a search.
#[derive(Clone, Copy, Debug, PartialEq, Eq)]
pub enum Searching {
    Solve,
    Resume,
    Trace,
}

impl Searching {
    /// The command with this effort.
    fn command(self, effort: Effort) -> Command
        ensures { result ≡ searched self effort }
    {
        let search = match self {
            Searching::Solve => Search::Solve(effort),
            Searching::Resume => Search::Resume(effort),
            Searching::Trace => Search::Trace(effort),
        };
        Command::Search(search)
    }
}

/// What the words ask for. They are one of `check`, `network`, `blocks`, `peak`, `peakcheck` and `replay`, or `solve`,
/// `resume` or `trace` with or without options. Or they are `make` or `trial` and a number.
#[tactic(auto, using(crate::proofs::CommandWords::no_command))]
pub fn command_of(words: &[String]) -> Result<Command, BadWord>
    ensures { Answers (words_of words.now) result }
{
    if is_word(words, 0, "check") {
        alone(words, Plain::Check)
    } else if is_word(words, 0, "network") {
        alone(words, Plain::Network)
    } else if is_word(words, 0, "blocks") {
        alone(words, Plain::Blocks)
    } else if is_word(words, 0, "solve") {
        search_of(words, Searching::Solve)
    } else if is_word(words, 0, "make") {
        count_of(words, Counting::Make)
    } else if is_word(words, 0, "trial") {
        count_of(words, Counting::Trial)
    } else if is_word(words, 0, "peak") {
        alone(words, Plain::Peak)
    } else if is_word(words, 0, "peakcheck") {
        alone(words, Plain::PeakCheck)
    } else if is_word(words, 0, "resume") {
        search_of(words, Searching::Resume)
    } else if is_word(words, 0, "trace") {
        search_of(words, Searching::Trace)
    } else if is_word(words, 0, "replay") {
        alone(words, Plain::Replay)
    } else {
        Err(BadWord(1))
    }
}

/// A command that takes no further words.
fn alone(words: &[String], plain: Plain) -> Result<Command, BadWord>
    requires alone { IsAlone plain }
    requires first { IsWordAt (words_of words.now) 0 (command_name (Command.Plain plain)) }
    ensures { Answers (words_of words.now) result }
{
    if words.len() == 1 {
        Ok(Command::Plain(plain))
    } else {
        Err(BadWord(2))
    }
}

/// A search, with options or without.
fn search_of(words: &[String], kind: Searching) -> Result<Command, BadWord>
    requires { IsWordAt (words_of words.now) 0 (search_name kind) }
    ensures { Answers (words_of words.now) result }
{
    let mut given = NONE_GIVEN;
    let mut place = 1;
    while place < words.len() {
        given = with_option(words, place, given)?;
        place += 2;
    }
    Ok(kind.command(given.effort()))
}

/// The options that were given, with the one that stands at this place, counted from 0, and its number behind it.
fn with_option(words: &[String], place: usize, given: Given) -> Result<Given, BadWord>
    requires { place < length words.now }
    ensures { (kind : Searching) → AreOptionsTaken kind (words_of words.now) place given
        → TakesOption kind (words_of words.now) place result }
{
    let Some(setting) = setting_at(words, place) else {
        return Err(BadWord(place + 1));
    };
    if given.has(setting) {
        return Err(BadWord(place + 1));
    }
    match number_at(words, place + 1, setting) {
        Some(n) => Ok(given.with(setting, n)),
        None => Err(BadWord(place + 2)),
    }
}

/// The option whose name stands at this place, counted from 0. None where no option's does.
fn setting_at(words: &[String], place: usize) -> Option<Setting>
    ensures { MatchOption result ((s : Setting) → ¬ (IsWordAt (words_of words.now) place (setting_name s)))
        (λ s. IsWordAt (words_of words.now) place (setting_name s)) }
{
    let workers = is_word(words, place, "--workers");
    let nodes = is_word(words, place, "--nodes");
    let seconds = is_word(words, place, "--seconds");
    let gap = is_word(words, place, "--gap");
    if workers {
        Some(Setting::Workers)
    } else if nodes {
        Some(Setting::Nodes)
    } else if seconds {
        Some(Setting::Seconds)
    } else if gap {
        Some(Setting::Gap)
    } else {
        None
    }
}

/// The number that the word at this place, counted from 0, writes for the option. None where there is no word, or it
/// isn't one of the option's numbers.
fn number_at(words: &[String], place: usize, setting: Setting) -> Option<u32>
    ensures { MatchOption result
        ((word : Word) (n : ℕ) → IsWordAt (words_of words.now) place word
        → ¬ (IsNumberFor setting word n))
        (λ n. (word : Word) × IsWordAt (words_of words.now) place word × IsNumberFor setting word n) }
{
    let word = words.get(place)?;
    let n = number_up_to(word.as_str(), setting.digits(), setting.most())?;
    if setting.least() <= n { Some(n) } else { None }
}

/// `make` or `trial`, with a count of trips.
fn count_of(words: &[String], kind: Counting) -> Result<Command, BadWord>
    requires { IsWordAt (words_of words.now) 0 (command_name (counted kind 0)) }
    ensures { Answers (words_of words.now) result }
{
    let Some(count) = words.get(1) else {
        return Err(BadWord(2));
    };
    match number_up_to(count.as_str(), MAX_DIGITS, kind.most()) {
        None => Err(BadWord(2)),
        Some(n) if words.len() == 2 => Ok(kind.command(n)),
        _ => Err(BadWord(3)),
    }
}

/// The number that a word of 1 to so many digits writes. None where it isn't one, or the number is greater than `most`.
fn number_up_to(word: &str, digits: usize, most: u32) -> Option<u32>
    requires { digits ≤ MAX_LIMIT_DIGITS }
    ensures { MatchOption result ((n : ℕ) → ¬ (IsNumberUpTo digits most word.now n))
        (IsNumberUpTo digits most word.now) }
{
    if word.is_empty() || word.len() > digits {
        return None;
    }
    if !word.bytes().all(|byte| byte.is_ascii_digit()) {
        return None;
    }
    let n = word.parse::<u32>().ok()?;
    if n <= most { Some(n) } else { None }
}

/// Whether there is a word at this place, counted from 0, and it is the one wanted.
fn is_word(words: &[String], place: usize, wanted: &str) -> bool
    ensures { IsTrue result ↔ IsWordAt (words_of words.now) place wanted.now }
{
    match words.get(place) {
        Some(word) => word.as_str() == wanted,
        None => false,
    }
}
