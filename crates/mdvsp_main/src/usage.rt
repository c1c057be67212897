//! What the program says of itself. tools/usage.py writes this file from packaging/commands.txt.

use crate::command::Command;

/// The version of the program.
pub const VERSION: &str = "1.0.0";

/// The toolchain whose proof the sources pass.
pub const TOOLCHAIN: &str = "rattle-kit-13b logic dac8208d650f15bf";

/// How the program is called, in a line.
pub const USAGE_LINE: &str = "usage: mdvsp [--quiet] [--log] COMMAND [ARGUMENTS] > output";

/// How the program is called.
pub const USAGE: &str = "\
usage: mdvsp [--quiet] [--log] COMMAND [ARGUMENTS] > output

commands:
  solve [TIMETABLE] [--workers N] [--nodes N] [--seconds S] [--gap G]
            plan the vehicles of a timetable; so many workers, 1 to 64 or auto, share the search, 4 where none are
            told. It ends after so many cases, 0 to 100000, after S seconds, 1 to 86400, or at a gap of G parts per
            million of the cost, 0 to 1000000
  resume [TIMETABLE] [PLAN] [--workers N] [--nodes N] [--seconds S] [--gap G]
            go on from the plan's document behind the timetable, where it ended, in the same way
  trace [TIMETABLE] [--workers N] [--nodes N] [--seconds S] [--gap G]
            plan as solve does, and write each step of the search in place of the plan's document
  replay [TIMETABLE] [TRACE]
            make the steps of such a trace behind its timetable again, and write the document to which they lead
  check [TIMETABLE] [PLAN]
            judge a plan's document behind its timetable
  blocks [TIMETABLE] [PLAN]
            print the timetable of a plan's vehicles
  network [TIMETABLE]
            report how large a timetable's networks are
  peak [TIMETABLE]
            report how few vehicles each layer needs for all that it may run, whatever its fleet
  peakcheck [TIMETABLE] [PEAKS]
            judge such a text behind its timetable
  make N    write a timetable of N trips, 0 to 10000, to try the program on
  trial N   make such a timetable, plan it by one worker and 20 cases, check the plan, and report how it went
  --help, --version
            print this, or the version of the program; behind a command, --help prints what that command does
  --quiet   before the command: say nothing on standard error
  --log     before the command: write there, in lines, how far a search has come

exit status:
  0 done, solve, resume, trace, trial: the plan is optimal   1 check, resume, replay, blocks, peakcheck: no
  2 wrong words   3 the input is refused   4 reading failed   5 writing failed   6 no memory
  7 the input is too long   10 solve, resume, trace, trial: there is no plan   11 they are open";

/// The words that are answered of the program itself.
pub const ABOUT: &[&str] = &["--help", "--version", "-h"];

/// The names of the commands.
pub const NAMES: &[&str] = &[
    "solve",
    "resume",
    "trace",
    "replay",
    "check",
    "blocks",
    "network",
    "peak",
    "peakcheck",
    "make",
    "trial",
];

/// The options of commands, and which values they take.
pub const OPTIONS: &[(&str, &str)] = &[
    ("--workers", "1 to 64, or auto for all processors"),
    ("--nodes", "0 to 100000"),
    ("--seconds", "1 to 86400"),
    ("--gap", "0 to 1000000"),
];

/// The commands.
pub const COMMANDS: &[Command] = &[
    Command {
        name: "solve",
        files: 1,
        options: &["--workers", "--nodes", "--seconds", "--gap"],
        usage: "usage: mdvsp solve [TIMETABLE] [--workers N] [--nodes N] [--seconds S] [--gap G]",
        about: "\
Plan the vehicles of a timetable; so many workers, 1 to 64 or auto, share the search, 4 where none are told. It
ends after so many cases, 0 to 100000, after S seconds, 1 to 86400, or at a gap of G parts per million of the cost,
0 to 1000000.
  --workers N  threads that share the search, 4 where none are given: 1 to 64, or auto for all processors
  --nodes N  cases of the search at most: 0 to 100000
  --seconds S  seconds of the search at most, counted from the end of the input: 1 to 86400
  --gap G  gap between cost and bound at which the search ends, in parts per million of the cost: 0 to 1000000",
    },
    Command {
        name: "resume",
        files: 2,
        options: &["--workers", "--nodes", "--seconds", "--gap"],
        usage: "usage: mdvsp resume [TIMETABLE] [PLAN] [--workers N] [--nodes N] [--seconds S] [--gap G]",
        about: "\
Go on from the plan's document behind the timetable, where it ended, in the same way.
  --workers N  threads that share the search, 4 where none are given: 1 to 64, or auto for all processors
  --nodes N  cases of the search at most: 0 to 100000
  --seconds S  seconds of the search at most, counted from the end of the input: 1 to 86400
  --gap G  gap between cost and bound at which the search ends, in parts per million of the cost: 0 to 1000000",
    },
    Command {
        name: "trace",
        files: 1,
        options: &["--workers", "--nodes", "--seconds", "--gap"],
        usage: "usage: mdvsp trace [TIMETABLE] [--workers N] [--nodes N] [--seconds S] [--gap G]",
        about: "\
Plan as solve does, and write each step of the search in place of the plan's document.
  --workers N  threads that share the search, 4 where none are given: 1 to 64, or auto for all processors
  --nodes N  cases of the search at most: 0 to 100000
  --seconds S  seconds of the search at most, counted from the end of the input: 1 to 86400
  --gap G  gap between cost and bound at which the search ends, in parts per million of the cost: 0 to 1000000",
    },
    Command {
        name: "replay",
        files: 2,
        options: &[],
        usage: "usage: mdvsp replay [TIMETABLE] [TRACE]",
        about: "Make the steps of such a trace behind its timetable again, and write the document to which they lead.",
    },
    Command {
        name: "check",
        files: 2,
        options: &[],
        usage: "usage: mdvsp check [TIMETABLE] [PLAN]",
        about: "Judge a plan's document behind its timetable.",
    },
    Command {
        name: "blocks",
        files: 2,
        options: &[],
        usage: "usage: mdvsp blocks [TIMETABLE] [PLAN]",
        about: "Print the timetable of a plan's vehicles.",
    },
    Command {
        name: "network",
        files: 1,
        options: &[],
        usage: "usage: mdvsp network [TIMETABLE]",
        about: "Report how large a timetable's networks are.",
    },
    Command {
        name: "peak",
        files: 1,
        options: &[],
        usage: "usage: mdvsp peak [TIMETABLE]",
        about: "Report how few vehicles each layer needs for all that it may run, whatever its fleet.",
    },
    Command {
        name: "peakcheck",
        files: 2,
        options: &[],
        usage: "usage: mdvsp peakcheck [TIMETABLE] [PEAKS]",
        about: "Judge such a text behind its timetable.",
    },
    Command {
        name: "make",
        files: 0,
        options: &[],
        usage: "usage: mdvsp make N",
        about: "Write a timetable of N trips, 0 to 10000, to try the program on.",
    },
    Command {
        name: "trial",
        files: 0,
        options: &[],
        usage: "usage: mdvsp trial N",
        about: "Make such a timetable, plan it by one worker and 20 cases, check the plan, and report how it went.",
    },
];
