//! Tests of turns: threads that hold one alternately, what each finds then, and how it waits.
#![tactic(auto)]

#[cfg(test)]
mod turns;
