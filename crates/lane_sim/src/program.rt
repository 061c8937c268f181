//! A netlist made ready for settles: its nodes as steps along their order, and where each net's lanes are.
ghost use Rattle.std.specs.Prelude.{◌≡◌, ℕ, ◌*◌, ◌<◌, ◌≤◌, true, Some, length, All, IfOk};
ghost use Rattle.fault_secure.specs.Circuit.{nets};
ghost use Rattle.fault_secure.specs.Settle.{Acyclic};
ghost use Rattle.tsc_net.specs.Fault.{stuck_at_or_none};
ghost use Rattle.tsc_net.specs.Order.{has_place};
ghost use Rattle.tsc_net.specs.PlanView.{net_numbers};
ghost use Rattle.tsc_net.specs.Limits.{most_nets};
ghost use Rattle.fault_secure.specs.StuckAt.{on_stem};
ghost use Rattle.lane_rows.specs.Alive.{peak, source_count};
ghost use Rattle.lane_rows.specs.Rows.{row_of};
ghost use Rattle.lane_sim.specs.Points.{ArePointsOf, source_bit};
ghost use Rattle.lane_sim.specs.Program.{row_at, ShowsWatched};
ghost use Rattle.lane_sim.specs.Along.{HoldsSources, HoldsNodes};

use crate::kernel::at_stem;
use crate::lanes::{load, store};
use crate::points::Points;
use crate::steps::{Steps, settle_step};
use lane_rows::{Assignment, assigned};
use std::alloc::{AllocError, Global};
use std::marker::Model;
use tsc_net::{Fault, NetId, Netlist, Nets};

/// A netlist, which it borrows, ready to settle over rows. Contracts see it without its names.
#[derive(Drop)]
pub(crate) struct Program<'a> {
    pub(crate) net: &'a Netlist,
    pub(crate) steps: Steps,
    formulas: bool,
    watched: Nets,
    rows: Assignment,
}

impl<'a> Model for Program<'a> {
    ghost use Rattle.lane_sim.specs.Program.{ProgramState};

    ghost Value = { ProgramState };

    ghost use Rattle.lane_sim.specs.ProgramView.{program_as, KeepsProgram};

    ghost view = { program_as };

    ghost invariant = { KeepsProgram };
}

impl<'a> Program<'a> {
    /// The program of a netlist that shows these nets.
    ///
    /// # Errors
    ///
    /// Want of memory.
    pub fn of(alloc: Global, net: &'a Netlist, watch: &Nets) -> Result<Program<'a>, AllocError>
        requires few { nets net.now.circuit ≤ most_nets }
        requires watched { All (λ watched. watched.number < nets net.now.circuit) watch.now }
        ensures circuit { IfOk result (λ program. program.circuit ≡ net.now.circuit) }
        ensures watched { IfOk result (λ program. program.watched ≡ net_numbers watch.now) }
        ensures count { IfOk result (λ program. program.rows.count ≡ peak net.now.circuit (net_numbers watch.now)) }
    {
        // What a checked netlist keeps is known from here on.
        let _nets = net.nets();
        let rows = assigned(alloc, net, watch.as_slice())?;
        let steps = Steps::of(alloc, net, &rows)?;
        let formulas = steps.are_foreseen();
        // So is it that the order is whole, and that there is no ring.
        let _order = net.order();
        let watched = Nets::from_slice(alloc, watch.as_slice())?;
        Ok(Program {
            net,
            steps,
            formulas,
            watched,
            rows,
        })
    }

    /// How many rows it needs.
    pub fn count(&self) -> usize
        ensures count { result ≡ self.now.rows.count }
    {
        self.rows.count()
    }

    /// The row of a watched net.
    pub fn row(&self, net: NetId) -> usize
        requires watched { has_place self.now.watched net.number ≡ true }
        ensures row { result ≡ row_at self.now.rows.rows net.number }
        ensures below { result < self.now.rows.count }
    {
        self.rows.row(net).unwrap()
    }

    /// Settles at the first points, 64 for each of N words, under the fault if there is one, and leaves the lanes of each
    /// watched net in its row.
    pub fn settle<const N: usize>(&self, points: &Points, fault: Option<Fault>, block: &mut [u64])
        requires few { N ≤ 16 }
        requires points { ArePointsOf self.now.circuit points.now }
        requires rows { length block.old ≡ self.now.rows.count * 16 }
        ensures shows { ShowsWatched (N * 64) self.now points.now (stuck_at_or_none fault) block.new }
        ensures rows { length block.new ≡ self.now.rows.count * 16 }
        ensures acyclic { Acyclic self.now.circuit }
    {
        // What a program keeps is known from here on.
        let _steps = &self.steps;
        let words = points.words();
        self.settle_sources::<N>(words, fault, block);
        self.settle_nodes::<N>(words, fault, block);
    }

    /// Writes the row of each input and latch output that has one.
    fn settle_sources<const N: usize>(&self, words: &[u64], fault: Option<Fault>, block: &mut [u64])
        requires few { N ≤ 16 }
        requires sources { length words.now ≡ source_count self.now.circuit * 16 }
        requires rows { length block.old ≡ self.now.rows.count * 16 }
        ensures sources { HoldsSources (N * 64) (source_count self.now.circuit) self.now.rows.rows (stuck_at_or_none fault) words.now block.new }
        ensures rows { length block.new ≡ self.now.rows.count * 16 }
    {
        if !self.steps.sources {
            return;
        }
        for net in 0..self.net.inputs() + self.net.latches() {
            self.settle_source::<N>(net, words, fault, block);
        }
    }

    /// Writes the row of an input or a latch output, if it has one.
    fn settle_source<const N: usize>(
        &self,
        net: usize,
        words: &[u64],
        fault: Option<Fault>,
        block: &mut [u64],
    )
        requires few { N ≤ 16 }
        requires net { net < source_count self.now.circuit }
        requires sources { length words.now ≡ source_count self.now.circuit * 16 }
        requires rows { length block.old ≡ self.now.rows.count * 16 }
        ensures here { (row p : ℕ) → row_of self.now.rows.rows net ≡ Some row → p < N * 64 → source_bit block.new row p ≡ on_stem (stuck_at_or_none fault) net (source_bit words.now net p) }
        ensures others { (row p : ℕ) → (row_of self.now.rows.rows net ≡ Some row → ⊥) → p < N * 64 → source_bit block.new row p ≡ source_bit block.old row p }
        ensures rows { length block.new ≡ self.now.rows.count * 16 }
    {
        if let Some(row) = self.rows.rows()[net] {
            store(
                block,
                row as usize,
                at_stem::<N>(fault, net, load(words, net)),
            );
        }
    }

    /// Writes the rows of the nodes' nets. Sixteen words are settled by formulas where it is foreseen by which.
    fn settle_nodes<const N: usize>(&self, words: &[u64], fault: Option<Fault>, block: &mut [u64])
        requires few { N ≤ 16 }
        requires sources { length words.now ≡ source_count self.now.circuit * 16 }
        requires rows { length block.old ≡ self.now.rows.count * 16 }
        requires held { HoldsSources (N * 64) (source_count self.now.circuit) self.now.rows.rows (stuck_at_or_none fault) words.now block.old }
        ensures sources { HoldsSources (N * 64) (source_count self.now.circuit) self.now.rows.rows (stuck_at_or_none fault) words.now block.new }
        ensures nodes { HoldsNodes (N * 64) self.now (stuck_at_or_none fault) words.now block.new (length self.now.circuit.nodes) }
        ensures rows { length block.new ≡ self.now.rows.count * 16 }
    {
        if N == 16 && self.formulas {
            self.take_steps::<N, true>(words, fault, block);
        } else {
            self.take_steps::<N, false>(words, fault, block);
        }
    }

    /// Takes one step after another, that is node after node along the evaluation order. FORMULAS says whether gates of two pins
    /// are settled by the formulas of their functions.
    fn take_steps<const N: usize, const FORMULAS: bool>(
        &self,
        words: &[u64],
        fault: Option<Fault>,
        block: &mut [u64],
    )
        requires few { N ≤ 16 }
        requires sources { length words.now ≡ source_count self.now.circuit * 16 }
        requires rows { length block.old ≡ self.now.rows.count * 16 }
        requires held { HoldsSources (N * 64) (source_count self.now.circuit) self.now.rows.rows (stuck_at_or_none fault) words.now block.old }
        ensures sources { HoldsSources (N * 64) (source_count self.now.circuit) self.now.rows.rows (stuck_at_or_none fault) words.now block.new }
        ensures nodes { HoldsNodes (N * 64) self.now (stuck_at_or_none fault) words.now block.new (length self.now.circuit.nodes) }
        ensures rows { length block.new ≡ self.now.rows.count * 16 }
    {
        let first = self.net.inputs() + self.net.latches();
        let Steps {
            sources: _,
            list,
            flat,
            masks,
        } = &self.steps;
        let masks = masks.as_slice();
        let mut rest = list.as_slice();
        while let Some((step, behind)) = rest.split_first() {
            settle_step::<N, FORMULAS>(step, flat, masks, first, words, block, fault);
            rest = behind;
        }
    }
}
