//! The bench: a netlist that settles at 1,024 points at once.
ghost use Rattle.std.specs.Prelude.{◌≡◌, ◌*◌, ◌<◌, ◌≤◌, true, None, length, All, IfOk, IsSome};
ghost use Rattle.std.specs.Option.{option_copied};
ghost use Rattle.fault_secure.specs.Circuit.{nets};
ghost use Rattle.tsc_net.specs.Fault.{stuck_at_or_none};
ghost use Rattle.tsc_net.specs.Order.{has_place};
ghost use Rattle.tsc_net.specs.PlanView.{net_numbers};
ghost use Rattle.tsc_net.specs.Limits.{most_nets};
ghost use Rattle.fault_secure.specs.Settle.{Acyclic};
ghost use Rattle.lane_rows.specs.Alive.{peak};
ghost use Rattle.lane_sim.specs.Points.{ArePointsOf};
ghost use Rattle.lane_sim.specs.Program.{ShowsWatched};
ghost use Rattle.lane_sim.specs.Bench.{lane_of, ShowsSettled, HasOneValuationEach};

use crate::points::Points;
use crate::program::Program;
use crate::row_block::RowBlock;
use std::alloc::{AllocError, Global};
use std::marker::Model;
use tsc_net::{Fault, NetId, Netlist, Nets};

/// A netlist, which it borrows, that settles at 1,024 points at once, and shows what the watched nets have there. It can't be
/// dropped: `close` ends it. Contracts see the netlist without its names, the watched nets, the sixteen words of each of them
/// once it was settled, and the number of rows that it took.
pub struct Bench<'a> {
    program: Program<'a>,
    block: RowBlock,
    settled: bool,
}

impl<'a> Model for Bench<'a> {
    ghost use Rattle.lane_sim.specs.Bench.{BenchState};

    ghost Value = { BenchState };

    ghost use Rattle.lane_sim.specs.BenchView.{bench_as, HasRows};

    ghost view = { bench_as };

    ghost invariant = { HasRows };
}

impl<'a> Bench<'a> {
    /// A bench of the netlist that shows these nets. It takes all the memory that it will ever have.
    ///
    /// # Errors
    ///
    /// Want of memory.
    pub fn open(alloc: Global, net: &'a Netlist, watch: &Nets) -> Result<Bench<'a>, AllocError>
        requires nets { nets net.now.circuit ≤ most_nets }
        requires watched { All (λ watched. watched.number < nets net.now.circuit) watch.now }
        ensures circuit { IfOk result (λ bench. bench.circuit ≡ net.now.circuit) }
        ensures watched { IfOk result (λ bench. bench.watched ≡ net_numbers watch.now) }
        ensures lanes { IfOk result (λ bench. bench.lanes ≡ None) }
        ensures rows { IfOk result (λ bench. bench.rows ≡ peak net.now.circuit (net_numbers watch.now)) }
    {
        let program = Program::of(alloc, net, watch)?;
        let block = RowBlock::open(alloc, program.count())?;
        Ok(Bench {
            program,
            block,
            settled: false,
        })
    }

    /// Settles at these points, under the fault if there is one. It takes no memory. A pin of a latch changes nothing here:
    /// it acts on the next state.
    pub fn settle(&mut self, points: &Points, fault: Option<&Fault>)
        requires points { ArePointsOf self.old.circuit points.now }
        ensures shows { ShowsSettled 1024 self.new points.now (stuck_at_or_none (option_copied fault.entry)) }
        ensures one { HasOneValuationEach self.old.circuit (stuck_at_or_none (option_copied fault.entry)) points.now }
        ensures circuit { self.new.circuit ≡ self.old.circuit }
        ensures watched { self.new.watched ≡ self.old.watched }
        ensures rows { self.new.rows ≡ self.old.rows }
    {
        settle_rows::<16>(&self.program, points, fault.copied(), &mut self.block);
        self.settled = true;
    }

    /// Settles at the first 64 points alone; what the watched nets have at the others isn't told then. It takes no memory.
    pub fn settle_first(&mut self, points: &Points, fault: Option<&Fault>)
        requires points { ArePointsOf self.old.circuit points.now }
        ensures shows { ShowsSettled 64 self.new points.now (stuck_at_or_none (option_copied fault.entry)) }
        ensures one { HasOneValuationEach self.old.circuit (stuck_at_or_none (option_copied fault.entry)) points.now }
        ensures circuit { self.new.circuit ≡ self.old.circuit }
        ensures watched { self.new.watched ≡ self.old.watched }
        ensures rows { self.new.rows ≡ self.old.rows }
    {
        settle_rows::<1>(&self.program, points, fault.copied(), &mut self.block);
        self.settled = true;
    }

    /// The sixteen words of a watched net: point p is bit p mod 64 of word p / 64.
    pub fn lane(&self, net: NetId) -> &[u64]
        requires watched { has_place self.now.watched net.number ≡ true }
        requires settled { IsSome self.now.lanes }
        ensures lane { result.now ≡ lane_of self.now net.number }
        ensures sized { length result.now ≡ 16 }
    {
        self.block.row(self.program.row(net))
    }

    /// How many rows the bench took.
    pub fn rows(&self) -> usize
        ensures rows { result ≡ self.now.rows }
    {
        self.block.len()
    }

    /// Ends the bench.
    pub fn close(self) {
        let Bench {
            program: _,
            block,
            settled: _,
        } = self;
        block.close();
    }
}

/// Settles a program over its rows at the first points, 64 for each of N words.
pub(crate) fn settle_rows<const N: usize>(
    program: &Program,
    points: &Points,
    fault: Option<Fault>,
    block: &mut RowBlock,
)
    requires few { N ≤ 16 }
    requires points { ArePointsOf program.now.circuit points.now }
    requires rows { length block.old ≡ program.now.rows.count * 16 }
    ensures shows { ShowsWatched (N * 64) program.now points.now (stuck_at_or_none fault) block.new }
    ensures rows { length block.new ≡ program.now.rows.count * 16 }
    ensures acyclic { Acyclic program.now.circuit }
{
    program.settle::<N>(points, fault, block.words_mut());
}
