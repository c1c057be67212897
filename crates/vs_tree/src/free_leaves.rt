//! The free leaves of a search, of which the next to be taken is found at once.

ghost use Rattle.std.specs.Prelude.{◌≡◌, ◌+◌, ◌*◌, ◌<◌, length, set, drop, replicate, IfOk, MatchOption, None};
ghost use Rattle.vs_tree.specs.Free.{IsEmpty, IsFirst, IsTournament};

use crate::entry::{Entry, first_of};
use std::alloc::Global;
use std::marker::Model;
use vs_types::Memory;

/// The free leaves of a tree, of which the one that is to be taken next is found at once. It is a tournament: each
/// inner place has the leaf that is taken first of the two below it. See Knuth, The Art of Computer Programming, volume
/// 3, section 5.2.3.
#[derive(Drop)]
pub struct FreeLeaves {
    /// How many leaves there can be.
    count: u32,
    /// The tree: below place k stand places 2k and 2k + 1, and spot v has the place `count + v`.
    entries: Vec<Option<Entry>>,
}

impl Model for FreeLeaves {
    ghost use Rattle.std.specs.Prelude.{drop};
    ghost use Rattle.vs_tree.specs.Free.{Entries, IsTournament};

    ghost Value = { Entries };

    ghost view = { λ h. drop h.count h.entries.items };

    ghost invariant = { λ h. IsTournament h.count h.entries.items };
}

impl FreeLeaves {
    /// No free leaf among so many spots.
    pub fn new(alloc: Global, count: u32) -> Result<FreeLeaves, Memory>
        requires { 0 < count }
        ensures { IfOk result (λ free. free ≡ replicate count None) }
    {
        let entries = vec![in alloc; None; 2 * count as usize]?;
        Ok(FreeLeaves { count, entries })
    }

    /// The leaf that is to be taken next. None where none is free.
    pub fn next(&self) -> Option<Entry>
        ensures { MatchOption result (IsEmpty self.now) (IsFirst self.now) }
    {
        self.entries[1]
    }

    /// Gives a spot this entry, or none.
    pub fn put(&mut self, spot: u32, entry: Option<Entry>)
        requires { spot < length self.old }
        ensures { self.new ≡ set self.old spot entry }
    {
        put(&mut self.entries, self.count as usize, spot as usize, entry);
    }
}

/// Gives a spot of so many this entry, and plays its matches again.
fn put(entries: &mut [Option<Entry>], count: usize, spot: usize, entry: Option<Entry>)
    requires tournament { IsTournament count entries.old }
    requires spot { spot < count }
    ensures tournament { IsTournament count entries.new }
    ensures leaves { drop count entries.new ≡ set (drop count entries.old) spot entry }
{
    let mut place = count + spot;
    entries[place] = entry;
    while place > 1 {
        place /= 2;
        entries[place] = first_of(entries[2 * place], entries[2 * place + 1]);
    }
}
