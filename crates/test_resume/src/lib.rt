//! Tests of searches that are carried on from their documents, by a solver of parts that is one worker without threads.
//! Also tests of traces: how one is read, where it is refused, and what it replays to.
#![tactic(auto)]

#[cfg(test)]
mod carried;
#[cfg(test)]
mod chains;
mod one_worker;
#[cfg(test)]
mod replays;
#[cfg(test)]
mod runs;
mod searching;
#[cfg(test)]
mod trace_rows;
#[cfg(test)]
mod traces;

pub use one_worker::OneWorker;
