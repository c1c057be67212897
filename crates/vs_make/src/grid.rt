//! The stops of a made instance, in three rows of four, and where its depots are.

ghost use Rattle.std.specs.Prelude.{◌≡◌, ◌-◌, ◌<◌, ◌≤◌};
ghost use Rattle.vs_make.specs.Generator.{depot_of, distance, other_stop};

/// How many stops there are.
pub const STOPS: u32 = 12;

/// How many layers there are, each with a depot of its own.
pub const DEPOTS: u32 = 4;

/// A number below the count of stops less one, as a stop other than `from`.
pub fn other_stop(from: u32, other: u32) -> u32
    requires { other < STOPS - 1 }
    ensures { result ≡ other_stop from other }
{
    if other >= from { other + 1 } else { other }
}

/// How many steps of the grid two stops are apart: they stand in three rows of four.
pub fn distance(k: u32, s: u32) -> u32
    requires from { k < STOPS }
    requires to { s < STOPS }
    ensures steps { result ≡ distance k s }
    ensures few { result ≤ 5 }
{
    (k % 4).abs_diff(s % 4) + (k / 4).abs_diff(s / 4)
}

/// The stop at which a layer has its depot.
pub fn depot_of(l: u32) -> u32
    ensures { result ≡ depot_of l }
{
    match l {
        0 => 0,
        1 => 3,
        2 => 8,
        _ => 11,
    }
}
