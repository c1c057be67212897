//! Tests of what both components depend on: sets of layers, streams, texts, instances and nets. Also tests of the count
//! of all plans, with which other tests compare what is found.
#![tactic(auto)]

#[cfg(test)]
mod instances;
#[cfg(test)]
mod nets;
#[cfg(test)]
mod refusals;
#[cfg(test)]
mod sets;
#[cfg(test)]
mod small;
#[cfg(test)]
mod streams;
