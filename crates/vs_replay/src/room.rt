//! How many prices the tables of a search may have.

ghost use Rattle.std.specs.Prelude.{◌≤◌, ◌↔◌, IsTrue};
ghost use Rattle.vs_instance.specs.declared.limits.TheConstants.{MAX_BUDGET};
ghost use Rattle.vs_replay.specs.Room.{HasRoom};

use vs_instance::{Instance, MAX_LAYERS, MAX_TRIPS};

/// How many entering prices the tables of a search may have together, with one table for each leaf of its budget.
pub const MAX_ENTRIES: u32 = 3_000_000;

/// Whether the tables of a search of so many nodes have few enough entries.
pub(crate) fn has_room(instance: &Instance, nodes: u32) -> bool
    requires { nodes ≤ MAX_BUDGET }
    ensures { IsTrue result ↔ HasRoom instance.now nodes }
{
    prove!(instance.trips() <= MAX_TRIPS);
    prove!(instance.layers() <= MAX_LAYERS);
    let entries = instance.trips() * instance.layers();
    u64::from(entries) * u64::from(nodes.max(1)) <= u64::from(MAX_ENTRIES)
}
