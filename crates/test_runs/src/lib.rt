//! Tests of whole runs: one run of each command, runs over streams that fail, two workers that meet, and searches that
//! are told to stop. Also plans compared with a count of all plans. Most whole runs stand in tests/cases, and are made
//! of the built program.
#![tactic(auto)]

#[cfg(test)]
mod audited;
#[cfg(test)]
mod commands;
#[cfg(test)]
mod counted;
#[cfg(test)]
mod runs;
#[cfg(test)]
mod stopped;
#[cfg(test)]
mod streams;
#[cfg(test)]
mod traces;
#[cfg(test)]
mod two_workers;
