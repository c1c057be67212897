//! Tests of what searches: blocks of a flow, multipliers, layers that agree, and the work on a root. Also tests of sums
//! at the ends of the limits, and of peaks that are found.
#![tactic(auto)]

#[cfg(test)]
mod agreeing;
#[cfg(test)]
mod agreements;
#[cfg(test)]
mod climbs;
#[cfg(test)]
mod counted_peaks;
#[cfg(test)]
mod decompositions;
#[cfg(test)]
mod limits;
#[cfg(test)]
mod multipliers;
#[cfg(test)]
mod peaks;
#[cfg(test)]
mod rays;
#[cfg(test)]
mod roots;
