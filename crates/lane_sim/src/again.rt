//! Settles again only what a change of the fault reaches.
ghost use Rattle.std.specs.Prelude.{◌≡◌, ◌≢◌, ℕ, ◌+◌, ◌*◌, ◌<◌, ◌≤◌, false, length, IfSome, unwrap_or};
ghost use Rattle.fault_secure.specs.Circuit.{nets};
ghost use Rattle.std.specs.Option.{option_map};
ghost use Rattle.fault_secure.specs.StuckAt.{StuckAt};
ghost use Rattle.fault_secure.specs.Settle.{Acyclic};
ghost use Rattle.tsc_net.specs.Fault.{stuck_at_or_none};
ghost use Rattle.tsc_net.specs.Order.{fan_ins, evaluation_order, IsOrder};
ghost use Rattle.lane_rows.specs.Alive.{source_count};
ghost use Rattle.lane_sim.specs.Along.{row_there, place_bit};
ghost use Rattle.lane_sim.specs.Points.{ArePointsOf, source_bit};
ghost use Rattle.lane_sim.specs.Readers.{AreReaders};
ghost use Rattle.lane_sim.specs.Again.{HoldsRows, IsAtNets, IsWalked, net_there};
ghost use Rattle.lane_sim.specs.FaultBenchView.{WatchesNodes};

use crate::place_set::PlaceSet;
use crate::points::Points;
use crate::program::Program;
use crate::readers::Readers;
use crate::step_again::change_step;
use tsc_net::Fault;

impl<'a> Program<'a> {
    /// Settles again where the rows have what the nets have under an old fault, if there was one: afterwards they have what the nets
    /// have under the new one. Of the places it takes only those that the faults are at, and those that read a net which changed.
    pub(crate) fn settle_again(
        &self,
        readers: &Readers,
        marked: &mut PlaceSet,
        points: &Points,
        old: Option<Fault>,
        fault: Option<Fault>,
        block: &mut [u64],
    )
        requires points { ArePointsOf self.now.circuit points.now }
        requires rows { length block.old ≡ self.now.rows.count * 16 }
        requires watches { WatchesNodes self.now }
        requires readers { AreReaders self.now.circuit readers.now }
        requires room { length self.now.circuit.nodes ≤ length marked.old.words.items * 64 }
        requires old { IsAtNets self.now.circuit (stuck_at_or_none old) }
        requires fault { IsAtNets self.now.circuit (stuck_at_or_none fault) }
        requires held { HoldsRows self.now (stuck_at_or_none old) points.now block.old 0 (length self.now.circuit.nodes) }
        ensures held { HoldsRows self.now (stuck_at_or_none fault) points.now block.new 0 (length self.now.circuit.nodes) }
        ensures rows { length block.new ≡ self.now.rows.count * 16 }
        ensures room { length marked.new.words.items ≡ length marked.old.words.items }
    {
        let before = readers.mark_fault(self.net, old, marked);
        let now = readers.mark_fault(self.net, fault, marked);
        let mut place = before.min(now);
        while let Some(taken) = self.settle_next(place, readers, marked, points, fault, block) {
            place = taken + 1;
        }
    }

    /// Settles the first marked place from a place on, and marks the readers of its net if that changed.
    fn settle_next(
        &self,
        from: usize,
        readers: &Readers,
        marked: &mut PlaceSet,
        points: &Points,
        fault: Option<Fault>,
        block: &mut [u64],
    ) -> Option<usize>
        requires points { ArePointsOf self.now.circuit points.now }
        requires from { from ≤ length self.now.circuit.nodes }
        requires rows { length block.old ≡ self.now.rows.count * 16 }
        requires watches { WatchesNodes self.now }
        requires readers { AreReaders self.now.circuit readers.now }
        requires room { length self.now.circuit.nodes ≤ length marked.old.words.items * 64 }
        ensures walked { (e : StuckAt) → IsWalked self.now e (stuck_at_or_none fault) points.now block.old marked.old from
            → IsWalked self.now e (stuck_at_or_none fault) points.now block.new marked.new (unwrap_or (option_map (λ place. place + 1) result) (length self.now.circuit.nodes)) }
        ensures place { IfSome result (λ place. (from ≤ place) × (place < length self.now.circuit.nodes)) }
        ensures rows { length block.new ≡ self.now.rows.count * 16 }
        ensures room { length marked.new.words.items ≡ length marked.old.words.items }
    {
        // That the order is whole is known from here on.
        let _order = self.net.order();
        let place = marked.take_from(from, self.net.nodes())?;
        if self.settle_place(place, points, fault, block) {
            readers.mark(self.net_there(place), marked);
        }
        Some(place)
    }

    /// Settles the node at a place of the order, and says whether its row changed.
    fn settle_place(
        &self,
        place: usize,
        points: &Points,
        fault: Option<Fault>,
        block: &mut [u64],
    ) -> bool
        requires place { place < length self.now.circuit.nodes }
        requires points { ArePointsOf self.now.circuit points.now }
        requires rows { length block.old ≡ self.now.rows.count * 16 }
        ensures here { (p : ℕ) → p < 1024 → source_bit block.new (row_there self.now place) p ≡ place_bit self.now (stuck_at_or_none fault) points.now.words block.old place p }
        ensures others { (row p : ℕ) → row ≢ row_there self.now place → p < 1024 → source_bit block.new row p ≡ source_bit block.old row p }
        ensures same { result ≡ false → (p : ℕ) → p < 1024 → source_bit block.new (row_there self.now place) p ≡ source_bit block.old (row_there self.now place) p }
        ensures rows { length block.new ≡ self.now.rows.count * 16 }
    {
        let first = self.net.inputs() + self.net.latches();
        change_step(
            &self.steps.list[place],
            &self.steps.flat,
            self.steps.masks.as_slice(),
            first,
            points.words(),
            block,
            fault,
        )
    }

    /// The net of the node at a place of the order.
    fn net_there(&self, place: usize) -> usize
        requires place { place < length self.now.circuit.nodes }
        ensures net { result ≡ net_there self.now.circuit place }
        ensures below { result < nets self.now.circuit }
    {
        self.steps.list[place].driver as usize
    }

    /// The net of the first node: how many inputs and latch outputs there are.
    pub(crate) fn first_node(&self) -> usize
        ensures first { result ≡ source_count self.now.circuit }
        ensures whole { IsOrder (fan_ins self.now.circuit) (evaluation_order (fan_ins self.now.circuit)) }
        ensures acyclic { Acyclic self.now.circuit }
    {
        // That the order is whole, and that there is no ring, is known from here on.
        let _order = self.net.order();
        self.net.inputs() + self.net.latches()
    }
}
