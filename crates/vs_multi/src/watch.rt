//! Who may end the work at the root of a search early.

ghost use Rattle.std.specs.Prelude.{◌≡◌, ◌<◌, ℕ, true, length, slice_index_or};
ghost use Rattle.std.specs.Fork.{AcceptsAt, ChangesAt};

/// Work at the nets has taken long after so much effort, as `Work::effort` counts it, which is a tenth of a second.
/// From then on the watch is asked between two layers.
pub const LONG: u64 = 500_000;

/// Who may end the work at the root of a search before its effort is spent. When it ends decides how good plans and
/// multipliers become, and nothing else.
pub trait Watch {
    /// What is so of a watch that may end the work. It is so of none where this isn't said.
    ghost may_end: { Self → Type 0 } = { λ _. ⊥ };

    /// Takes notice of what a plan costs that was found, in cost units, and of a value that no plan costs less than, in
    /// 1/1000 of a cost unit. They are None and `i64::MIN` where there is nothing new.
    fn tell(&self, cost: Option<i64>, value: i64);

    /// Whether the work is to end.
    fn is_over(&self) -> bool
        ensures { result ≡ true → may_end self.now };
}

/// A watch that ends nothing. Who has no other does one job after the other.
pub struct NoWatch;

impl Watch for NoWatch {
    fn tell(&self, _cost: Option<i64>, _value: i64) {}

    fn is_over(&self) -> bool {
        false
    }
}

/// A watch that is told nothing, since those who ask it work on another instance.
#[derive(Drop)]
pub struct Untold<'a, W: Watch> {
    pub watch: &'a W,
}

impl<W: Watch> Watch for Untold<'_, W> {
    ghost may_end = { λ untold. W.may_end untold.watch.now };

    fn tell(&self, _cost: Option<i64>, _value: i64) {}

    fn is_over(&self) -> bool {
        self.watch.is_over()
    }
}

/// Does a job at each of these items, one after the other. The job is told the item's place.
pub fn in_turn<T, F: Fn(usize, &mut T)>(items: &mut [T], job: &F)
    requires { (k : ℕ) (d : T) → k < length items.old
        → AcceptsAt F.Fn job.now k (slice_index_or items.old k d) }
    ensures { (k : ℕ) (d : T) → k < length items.old
        → ChangesAt F.Fn job.now k (slice_index_or items.old k d) (slice_index_or items.new k d) }
{
    for k in 0..items.len() {
        do_at(job, k, &mut items[k]);
    }
}

/// Does a job at one item.
fn do_at<T, F: Fn(usize, &mut T)>(job: &F, k: usize, item: &mut T)
    requires { AcceptsAt F.Fn job.now k item.old }
    ensures { ChangesAt F.Fn job.now k item.old item.new }
{
    job(k, item);
}
