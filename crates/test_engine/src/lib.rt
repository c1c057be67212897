//! Tests of the engine: least paths and least circulations on worked examples and against all ways to choose.
#![tactic(auto)]

#[cfg(test)]
mod circulations;
#[cfg(test)]
mod paths;
