//! The passes of a table, each with its place in the scratch.

ghost use Rattle.std.specs.Prelude.{◌≡◌, ℕ, ◌+◌, ◌<◌, ◌≤◌, length};
ghost use Rattle.vs_instance.specs.Problem.{Problem};
ghost use Rattle.vs_instance.specs.Pieces.{in_piece, link_piece, out_piece};
ghost use Rattle.vs_match.specs.Events.{MayRun};
ghost use Rattle.vs_match.specs.LayerNets.{net_at};
ghost use Rattle.vs_match.specs.LayerGraph.{arcs_in};
ghost use Rattle.vs_need.specs.Needs.{AreNeeds, AreWorths};
ghost use Rattle.vs_need.specs.Room.{CanNeed, IsKept};

use crate::aim::{Aim, LayerAim};
use crate::arc_reader::ArcReader;
use crate::finding::find;
use crate::scratch::Scratch;
use vs_prices::Table;
use vs_types::{LayerNo, TripNo};

impl Scratch {
    /// Finds what the pull-out to each trip is worth.
    pub(crate) fn find_outs<N: ArcReader>(
        &mut self,
        nets: &mut N,
        table: &Table,
        trips: usize,
        l: LayerNo,
    )
        ghost p: { Problem }
        requires { CanNeed p (N.nets nets.old) table.now l.0 self.old trips }
        ensures found { AreWorths p l.0 table.now.ray (out_piece p l.0) self.new.outs.items }
        ensures kept { IsKept self.old self.new }
        ensures nets { N.nets nets.new ≡ N.nets nets.old }
        ensures reads { N.reads nets.new
            ≤ N.reads nets.old + arcs_in (net_at (N.nets nets.old) l.0) }
    {
        let found = &mut self.outs;
        let at = LayerAim {
            l,
            aim: Aim::PullOut,
        };
        find(nets, table, trips, at, &mut self.values, found);
    }

    /// Finds what the best trip after each trip is worth.
    pub(crate) fn find_nexts<N: ArcReader>(
        &mut self,
        nets: &mut N,
        table: &Table,
        trips: usize,
        l: LayerNo,
    )
        ghost p: { Problem }
        requires { CanNeed p (N.nets nets.old) table.now l.0 self.old trips }
        ensures found { AreNeeds p table.now l.0 self.new.nexts.items }
        ensures outs { self.new.outs ≡ self.old.outs }
        ensures kept { IsKept self.old self.new }
        ensures nets { N.nets nets.new ≡ N.nets nets.old }
        ensures reads { N.reads nets.new
            ≤ N.reads nets.old + arcs_in (net_at (N.nets nets.old) l.0) }
    {
        let found = &mut self.nexts;
        let at = LayerAim { l, aim: Aim::Next };
        find(nets, table, trips, at, &mut self.values, found);
    }

    /// Finds what the pull-in from each trip is worth.
    pub(crate) fn find_ins<N: ArcReader>(
        &mut self,
        nets: &mut N,
        table: &Table,
        trips: usize,
        l: LayerNo,
    )
        ghost p: { Problem }
        requires { CanNeed p (N.nets nets.old) table.now l.0 self.old trips }
        ensures found { AreWorths p l.0 table.now.ray (in_piece p l.0) self.new.ins.items }
        ensures outs { self.new.outs ≡ self.old.outs }
        ensures nexts { self.new.nexts ≡ self.old.nexts }
        ensures kept { IsKept self.old self.new }
        ensures nets { N.nets nets.new ≡ N.nets nets.old }
        ensures reads { N.reads nets.new
            ≤ N.reads nets.old + arcs_in (net_at (N.nets nets.old) l.0) }
    {
        let found = &mut self.ins;
        let at = LayerAim {
            l,
            aim: Aim::PullIn,
        };
        find(nets, table, trips, at, &mut self.values, found);
    }

    /// Finds what the link from one trip to each is worth.
    pub(crate) fn find_links<N: ArcReader>(
        &mut self,
        nets: &mut N,
        table: &Table,
        trips: usize,
        l: LayerNo,
        i: TripNo,
    )
        ghost p: { Problem }
        requires { CanNeed p (N.nets nets.old) table.now l.0 self.old trips }
        ensures found { MayRun p l.0 i.0
            → AreWorths p l.0 table.now.ray (link_piece p l.0 i.0) self.new.links.items }
        ensures kept { IsKept self.old self.new }
        ensures nets { N.nets nets.new ≡ N.nets nets.old }
        ensures reads { N.reads nets.new
            ≤ N.reads nets.old + arcs_in (net_at (N.nets nets.old) l.0) }
    {
        let found = &mut self.links;
        let at = LayerAim {
            l,
            aim: Aim::After(i),
        };
        find(nets, table, trips, at, &mut self.values, found);
    }
}
