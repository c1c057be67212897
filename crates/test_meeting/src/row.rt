//! How a search stood that a crew was given, and the row of what the crew made of it.

use std::alloc::{AllocError, Global};
use std::fmt;
use vs_tree::{Claim, Report, Spot, Step, Tree};

/// How far a search is.
#[derive(Clone, Copy)]
struct Counted {
    steps: usize,
    spots: u32,
    report: Report,
}

/// How far a search is now.
fn counts(tree: &Tree) -> Counted {
    Counted {
        steps: tree.history().len(),
        spots: tree.spots(),
        report: tree.report(),
    }
}

/// A search as it stood when a crew was given it.
#[derive(Drop)]
pub struct Stood {
    counts: Counted,
    steps: Vec<Step>,
}

impl Stood {
    /// How a search stands now.
    pub fn of(alloc: Global, tree: &Tree) -> Result<Stood, AllocError> {
        Ok(Stood {
            counts: counts(tree),
            steps: tree.history().to_vec(alloc)?,
        })
    }
}

/// What a crew made of a search.
#[derive(Clone, Copy)]
pub struct Row {
    /// Whether the crew said that the search is over, and not that it found no memory.
    over: bool,
    /// How many workers met at the gate.
    met: u32,
    /// Whether a worker holds a leaf.
    held: bool,
    /// Whether its history begins with the steps that stood.
    stands: bool,
    before: Counted,
    after: Counted,
}

impl Row {
    /// What a crew made of a search that stood so. Takes no memory.
    pub fn of(tree: &Tree, over: bool, met: u32, stood: &Stood) -> Row {
        Row {
            over,
            met,
            held: is_held(tree),
            stands: tree.history().starts_with(&stood.steps),
            before: stood.counts,
            after: counts(tree),
        }
    }

    /// Whether the crew said that the search is over.
    pub fn is_over(&self) -> bool {
        self.over
    }
}

impl fmt::Display for Row {
    fn fmt<W: fmt::Write>(&self, f: &mut fmt::Formatter<W>) -> fmt::Result {
        let answer = if self.over { "ok" } else { "memory" };
        let (held, stands) = (yes_or_no(self.held), yes_or_no(self.stands));
        let met = self.met;
        write!(f, "{answer},met,{met},held,{held},stands,{stands}")?;
        let (before, after) = (self.before, self.after);
        let (was, is) = (before.report, after.report);
        write!(f, ",steps,{},{}", before.steps, after.steps)?;
        write!(f, ",spots,{},{}", before.spots, after.spots)?;
        write!(f, ",finished,{},{}", was.finished, is.finished)?;
        write!(f, ",cost,{},{}", Figure(cost_of(was)), Figure(cost_of(is)))?;
        write!(f, ",bound,{},{}", Figure(was.bound), Figure(is.bound))?;
        write!(f, ",claim,{}", word(is.claim))
    }
}

/// Whether a worker holds a leaf of a search.
fn is_held(tree: &Tree) -> bool {
    for k in 0..tree.spots() {
        if let Spot::Held { .. } = tree.spot(k) {
            return true;
        }
    }
    false
}

fn yes_or_no(is: bool) -> &'static str {
    if is { "yes" } else { "no" }
}

/// The word of a claim, as documents have it.
fn word(claim: Claim) -> &'static str {
    match claim {
        Claim::Optimal => "optimal",
        Claim::Infeasible => "infeasible",
        Claim::StillOpen => "open",
    }
}

/// The cost that a report gives.
fn cost_of(report: Report) -> Option<i128> {
    report.cost.map(i128::from)
}

/// A cost or a bound as documents have them.
#[derive(Clone, Copy)]
struct Figure(Option<i128>);

impl fmt::Display for Figure {
    fn fmt<W: fmt::Write>(&self, f: &mut fmt::Formatter<W>) -> fmt::Result {
        match self.0 {
            Some(number) => write!(f, "{number}"),
            None => write!(f, "none"),
        }
    }
}
