//! The bench of faults: a netlist that is settled once at 1,024 points, and then again under one fault after another.
ghost use Rattle.std.specs.Prelude.{◌≡◌, ℕ, ◌*◌, ◌<◌, ◌≤◌, Bool, true, List, length, None, Some, All, IfOk, IfSome, IsSome, IsTrue};
ghost use Rattle.fault_secure.specs.Circuit.{nets, node_net, bit};
ghost use Rattle.fault_secure.specs.StuckAt.{is_listed};
ghost use Rattle.tsc_net.specs.Fault.{stuck_at, stuck_at_or_none};
ghost use Rattle.tsc_net.specs.Order.{has_place};
ghost use Rattle.tsc_net.specs.PlanView.{net_numbers};
ghost use Rattle.tsc_net.specs.Limits.{most_nets};
ghost use Rattle.lane_sim.specs.Lanes.{lane_bit};
ghost use Rattle.lane_sim.specs.Points.{ArePointsOf, PointsState};
ghost use Rattle.lane_sim.specs.Readers.{AreReaders};
ghost use Rattle.lane_sim.specs.First.{IsFirstIn};
ghost use Rattle.lane_sim.specs.Again.{HoldsRows, IsAtNets, SettlesThere};
ghost use Rattle.lane_sim.specs.FaultBench.{AgreeUnder, HaveLanesUnder};
ghost use Rattle.lane_sim.specs.FaultBenchView.{WatchesNodes};

use crate::bench::settle_rows;
use crate::changing::is_somewhere;
use crate::first_bit::first_bit;
use crate::kernel::at_stem;
use crate::lanes::{differ, load, signed};
use crate::place_set::PlaceSet;
use crate::points::Points;
use crate::program::Program;
use crate::readers::Readers;
use crate::row_block::RowBlock;
use crate::shown_lanes::write_lanes;
use std::alloc::{AllocError, Global};
use std::marker::Model;
use std::simd::Simd;
use tsc_net::{Fault, NetId, Netlist, Nets};

/// A netlist, which it borrows, that is settled at 1,024 points, and that says for one fault after another where two nets agree there.
/// It can't be dropped: `close` ends it. Contracts see the netlist without its names, and the points at which it is settled.
pub struct FaultBench<'a> {
    program: Program<'a>,
    block: RowBlock,
    readers: Readers,
    marked: PlaceSet,
    points: Points,
    fault: Option<Fault>,
    settled: bool,
}

impl<'a> Model for FaultBench<'a> {
    ghost use Rattle.lane_sim.specs.FaultBench.{FaultBenchState};

    ghost Value = { FaultBenchState };

    ghost use Rattle.lane_sim.specs.FaultBenchView.{fault_bench_as, KeepsFaultBench};

    ghost view = { fault_bench_as };

    ghost invariant = { KeepsFaultBench };
}

impl<'a> FaultBench<'a> {
    /// A bench of the netlist. It takes all the memory that it will ever have.
    ///
    /// # Errors
    ///
    /// Want of memory.
    pub fn open(alloc: Global, net: &'a Netlist) -> Result<FaultBench<'a>, AllocError>
        requires nets { nets net.now.circuit ≤ most_nets }
        ensures circuit { IfOk result (λ bench. bench.circuit ≡ net.now.circuit) }
        ensures points { IfOk result (λ bench. bench.points ≡ None) }
    {
        let watch = node_nets(alloc, net)?;
        let program = Program::of(alloc, net, &watch)?;
        let readers = Readers::of(alloc, net)?;
        let marked = PlaceSet::with_room(alloc, net.nodes())?;
        let points = Points::new(alloc, net)?;
        let block = RowBlock::open(alloc, program.count())?;
        Ok(FaultBench {
            program,
            block,
            readers,
            marked,
            points,
            fault: None,
            settled: false,
        })
    }

    /// Settles at these points without a fault. It takes no memory.
    pub fn settle(&mut self, points: &Points)
        requires points { ArePointsOf self.old.circuit points.now }
        ensures circuit { self.new.circuit ≡ self.old.circuit }
        ensures points { self.new.points ≡ Some points.now }
    {
        // That the order is whole is known from here on.
        let _first = self.program.first_node();
        self.points.copy_from(points);
        settle_rows::<16>(&self.program, &self.points, None, &mut self.block);
        self.fault = None;
        self.settled = true;
    }

    /// The first of the first `many` points at which two nets agree under a fault. Of the netlist only what the fault changes is
    /// settled again, and what the fault before it had changed. It takes no memory. A pin of a latch changes nothing here: it acts on
    /// the next state.
    pub fn first_agreement(
        &mut self,
        fault: Fault,
        one: NetId,
        other: NetId,
        many: usize,
    ) -> Option<usize>
        requires settled { IsSome self.old.points }
        requires fault { IsTrue (is_listed self.old.circuit (stuck_at fault)) }
        requires one { one.number < nets self.old.circuit }
        requires other { other.number < nets self.old.circuit }
        requires many { many ≤ 1024 }
        ensures found { (points : PointsState) → self.old.points ≡ Some points → IsFirstIn (AgreeUnder self.old.circuit (stuck_at fault) points one.number other.number) 0 many result }
        ensures kept { self.new ≡ self.old }
    {
        let old = self.fault;
        self.fault = Some(fault);
        settle_rows_again(
            &self.program,
            &self.readers,
            &mut self.marked,
            &self.points,
            old,
            self.fault,
            &mut self.block,
        );
        agreement(
            &self.program,
            &self.points,
            fault,
            one,
            other,
            many,
            &self.block,
        )
    }

    /// Writes what some nets have at the points under a fault, or without one: sixteen words per net, one net after another. It settles
    /// again as `first_agreement` does, and takes no memory.
    pub fn write_lanes(&mut self, fault: Option<Fault>, shown: &[NetId], lanes: &mut [u64])
        requires settled { IsSome self.old.points }
        requires fault { IfSome fault (λ fault. IsTrue (is_listed self.old.circuit (stuck_at fault))) }
        requires shown { All (λ net. net.number < nets self.old.circuit) shown.now }
        requires room { length lanes.old ≡ length shown.now * 16 }
        ensures lanes { (points : PointsState) → self.old.points ≡ Some points → HaveLanesUnder self.old.circuit (stuck_at_or_none fault) points (net_numbers shown.now) (length shown.now) lanes.new }
        ensures kept { self.new ≡ self.old }
        ensures room { length lanes.new ≡ length lanes.old }
    {
        let old = self.fault;
        self.fault = fault;
        settle_rows_again(
            &self.program,
            &self.readers,
            &mut self.marked,
            &self.points,
            old,
            self.fault,
            &mut self.block,
        );
        write_lanes(
            &self.program,
            &self.points,
            fault,
            shown,
            &self.block,
            lanes,
        );
    }

    /// Ends the bench.
    pub fn close(self) {
        let FaultBench {
            program: _,
            block,
            readers: _,
            marked: _,
            points: _,
            fault: _,
            settled: _,
        } = self;
        block.close();
    }
}

/// The nets that nodes drive.
fn node_nets(alloc: Global, net: &Netlist) -> Result<Nets, AllocError>
    ensures within { IfOk result (λ watch. All (λ watched. watched.number < nets net.now.circuit) watch) }
    ensures each { IfOk result (λ watch. (j : ℕ) → j < length net.now.circuit.nodes → has_place (net_numbers watch) (node_net net.now.circuit j) ≡ true) }
{
    let mut watch = Nets::with_room(alloc, net.nodes())?;
    for node in 0..net.nodes() {
        watch.push(net.node_net(node))?;
    }
    Ok(watch)
}

/// Settles the rows of a program again where they have what the nets have under an old fault, if there was one.
fn settle_rows_again(
    program: &Program,
    readers: &Readers,
    marked: &mut PlaceSet,
    points: &Points,
    old: Option<Fault>,
    fault: Option<Fault>,
    block: &mut RowBlock,
)
    requires points { ArePointsOf program.now.circuit points.now }
    requires rows { length block.old ≡ program.now.rows.count * 16 }
    requires watches { WatchesNodes program.now }
    requires readers { AreReaders program.now.circuit readers.now }
    requires room { length program.now.circuit.nodes ≤ length marked.old.words.items * 64 }
    requires old { IsAtNets program.now.circuit (stuck_at_or_none old) }
    requires fault { IsAtNets program.now.circuit (stuck_at_or_none fault) }
    requires held { HoldsRows program.now (stuck_at_or_none old) points.now block.old 0 (length program.now.circuit.nodes) }
    ensures held { HoldsRows program.now (stuck_at_or_none fault) points.now block.new 0 (length program.now.circuit.nodes) }
    ensures rows { length block.new ≡ program.now.rows.count * 16 }
    ensures room { length marked.new.words.items ≡ length marked.old.words.items }
{
    program.settle_again(readers, marked, points, old, fault, block.words_mut());
}

/// The first of the first `many` points at which two nets agree, where the rows have what the nets have under the fault.
fn agreement(
    program: &Program,
    points: &Points,
    fault: Fault,
    one: NetId,
    other: NetId,
    many: usize,
    block: &RowBlock,
) -> Option<usize>
    requires points { ArePointsOf program.now.circuit points.now }
    requires rows { length block.now ≡ program.now.rows.count * 16 }
    requires watches { WatchesNodes program.now }
    requires held { HoldsRows program.now (stuck_at fault) points.now block.now 0 (length program.now.circuit.nodes) }
    requires one { one.number < nets program.now.circuit }
    requires other { other.number < nets program.now.circuit }
    requires many { many ≤ 1024 }
    ensures found { IsFirstIn (AgreeUnder program.now.circuit (stuck_at fault) points.now one.number other.number) 0 many result }
{
    // That there is no ring is known from here on.
    let _first = program.first_node();
    let a = lanes_under(program, points, Some(fault), one, block);
    let b = lanes_under(program, points, Some(fault), other, block);
    let agree = signed(false, differ(a, b));
    if !is_somewhere(agree) {
        return None;
    }
    first_bit(&agree.to_array(), 0, many)
}

/// The lanes of a net, where the rows have what the nodes' nets have under the fault, if there is one.
pub(crate) fn lanes_under(
    program: &Program,
    points: &Points,
    fault: Option<Fault>,
    net: NetId,
    block: &RowBlock,
) -> Simd<u64, 16>
    requires points { ArePointsOf program.now.circuit points.now }
    requires rows { length block.now ≡ program.now.rows.count * 16 }
    requires watches { WatchesNodes program.now }
    requires held { HoldsRows program.now (stuck_at_or_none fault) points.now block.now 0 (length program.now.circuit.nodes) }
    requires net { net.number < nets program.now.circuit }
    ensures lanes { (p : ℕ) (v : List Bool) → p < 1024 → SettlesThere program.now.circuit (stuck_at_or_none fault) points.now p v → lane_bit result p ≡ bit v net.number }
    ensures sized { length result ≡ 16 }
{
    let at = net.number as usize;
    if at < program.first_node() {
        return at_stem(fault, at, load(points.words(), at));
    }
    load(block.row(program.row(net)), 0)
}
