//! Tests of what judges: worked examples of documents, plans, prices, verdicts and claims of peaks, and that each call
//! can answer something else than `Memory`. Also of the sentences that say why there is no plan and what is refused.
//! Others say why a document, a trace or a text of peaks doesn't hold.
#![tactic(auto)]

#[cfg(test)]
mod documents;
#[cfg(test)]
mod peak_claims;
#[cfg(test)]
mod peak_rows;
#[cfg(test)]
mod peaks;
#[cfg(test)]
mod plans;
#[cfg(test)]
mod prices;
#[cfg(test)]
mod reasons;
#[cfg(test)]
mod refusals;
#[cfg(test)]
mod traces;
#[cfg(test)]
mod verdicts;
