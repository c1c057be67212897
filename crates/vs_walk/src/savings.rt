//! What each kind of mending saves for its effort.

ghost use Rattle.std.specs.Prelude.{◌<◌};

/// How many kinds of mending there are.
pub(crate) const KINDS: usize = 4;

/// What a kind of mending has saved, in 1/1000 of a cost unit, and the effort of that.
#[derive(Clone, Copy, Debug)]
struct Saving {
    saved: u64,
    effort: u64,
}

impl Saving {
    /// Whether it has saved more for its effort than another one.
    fn is_better(self, other: Saving) -> bool {
        let here = self.saved.saturating_mul(other.effort.saturating_add(1));
        let there = other.saved.saturating_mul(self.effort.saturating_add(1));
        here > there
    }
}

/// What each kind of mending has saved.
#[derive(Clone, Copy, Debug)]
pub(crate) struct Savings {
    by_kind: [Saving; KINDS],
}

impl Savings {
    /// No kind was tried.
    pub fn new() -> Savings {
        let none = Saving {
            saved: 0,
            effort: 0,
        };
        Savings {
            by_kind: [none; KINDS],
        }
    }

    /// Notes what a try has saved, and its effort.
    pub fn note(&mut self, kind: usize, saved: u64, effort: u64)
        requires { kind < KINDS }
    {
        let saving = &mut self.by_kind[kind];
        saving.saved = saving.saved.saturating_add(saved);
        saving.effort = saving.effort.saturating_add(effort);
    }

    /// Lets what was noted so far count half as much.
    pub fn fade(&mut self) {
        for saving in self.by_kind.iter_mut() {
            saving.saved /= 2;
            saving.effort /= 2;
        }
    }

    /// The kind that has saved most for its effort, the first of those that are alike.
    pub fn best(&self) -> usize
        ensures { result < KINDS }
    {
        let mut best = 0;
        for kind in 1..KINDS {
            if self.by_kind[kind].is_better(self.by_kind[best]) {
                best = kind;
            }
        }
        best
    }
}
