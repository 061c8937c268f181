//! The rows of a netlist's nets.
ghost use Rattle.std.specs.Prelude.{◌≡◌, ℕ, ◌+◌, ◌<◌, ◌≤◌, ◌^◌, List, [], None, All, IfOk, OnOk, length, replicate};
ghost use Rattle.fault_secure.specs.Circuit.{nets};
ghost use Rattle.fault_secure.specs.Closed.{IsClosed};
ghost use Rattle.tsc_net.specs.Order.{fan_ins, evaluation_order, IsOrder};
ghost use Rattle.tsc_net.specs.PlanView.{net_numbers};
ghost use Rattle.lane_rows.specs.Alive.{source_count, peak};
ghost use Rattle.lane_rows.specs.Along.{IsAlong};
ghost use Rattle.lane_rows.specs.Needs.{AreNeededUntil};
ghost use Rattle.lane_rows.specs.Rows.{row_of, RowsApart, AreBelow, HaveRows, OthersHaveNone};

use crate::needs::needed_until;
use crate::row_table::RowTable;
use std::alloc::{AllocError, Global};
use std::marker::Model;
use tsc_net::{NetId, Netlist};

/// The row of each net, where it has one, and the number of rows.
#[derive(Drop)]
pub struct Assignment {
    rows: Vec<Option<u32>>,
    count: usize,
}

impl Model for Assignment {
    ghost use Rattle.lane_rows.specs.Rows.{RowsOf};

    ghost Value = { RowsOf };

    ghost view = { λ assignment. record { rows = assignment.rows.items; count = assignment.count } };
}

impl Assignment {
    /// The row of each net, by the nets' numbers: none for an input or a latch output that isn't watched.
    pub fn rows(&self) -> &[Option<u32>]
        ensures rows { result.now ≡ self.now.rows }
    {
        self.rows.as_slice()
    }

    /// The row of a net.
    pub fn row(&self, net: NetId) -> Option<usize>
        requires net { net.number < length self.now.rows }
        ensures row { result ≡ row_of self.now.rows net.number }
    {
        let row = self.rows[net.number as usize]?;
        Some(row as usize)
    }

    /// The number of rows.
    pub fn count(&self) -> usize
        ensures count { result ≡ self.now.count }
    {
        self.count
    }
}

/// The rows of a netlist's nets, given out along its evaluation order. A node's net takes a row that was freed, or a new
/// one where none is free; the row is free again after the net's last reader, unless the net is watched. A watched input
/// or latch output has a row from the start on, which is never freed.
///
/// # Errors
///
/// Want of memory.
pub fn assigned(alloc: Global, net: &Netlist, watch: &[NetId]) -> Result<Assignment, AllocError>
    requires watched { All (λ w. w.number < nets net.now.circuit) watch.now }
    ensures sized { IfOk result (λ a. length a.rows ≡ nets net.now.circuit) }
    ensures apart { IfOk result (λ a. RowsApart net.now.circuit (evaluation_order (fan_ins net.now.circuit)) (net_numbers watch.now) a.rows) }
    ensures within { IfOk result (λ a. AreBelow a.count a.rows) }
    ensures some { IfOk result (λ a. HaveRows net.now.circuit (net_numbers watch.now) a.rows) }
    ensures none { IfOk result (λ a. OthersHaveNone net.now.circuit (net_numbers watch.now) a.rows) }
    ensures count { IfOk result (λ a. a.count ≡ peak net.now.circuit (net_numbers watch.now)) }
{
    let ends = needed_until(alloc, net, watch)?;
    let mut table = RowTable::new(alloc, net.nets())?;
    give_sources(&mut table, net, &ends);
    give_nodes(&mut table, net, &ends)?;
    let RowTable {
        rows,
        held: _,
        free: _,
        count,
    } = table;
    Ok(Assignment { rows, count })
}

/// Gives a row to each watched input and latch output.
fn give_sources(table: &mut RowTable, net: &Netlist, ends: &[usize])
    requires ends { length ends.now ≡ nets net.now.circuit }
    requires few { nets net.now.circuit < 2 ^ 32 }
    requires rows { table.old.rows.items ≡ replicate (nets net.now.circuit) None }
    requires held { table.old.held.items ≡ replicate (nets net.now.circuit) None }
    requires free { table.old.free.items ≡ [] }
    requires count { table.old.count ≡ 0 }
    ensures rows { length table.new.rows.items ≡ nets net.now.circuit }
    ensures count { table.new.count ≤ source_count net.now.circuit }
    ensures along { (watched : List ℕ) → AreNeededUntil net.now.circuit (evaluation_order (fan_ins net.now.circuit)) watched ends.now
        → IsAlong net.now.circuit (evaluation_order (fan_ins net.now.circuit)) watched 0 table.new.rows.items table.new.held.items table.new.free.items table.new.count }
{
    let end = net.order().len();
    for source in 0..net.inputs() + net.latches() {
        if end < ends[source] {
            table.give(source);
        }
    }
}

/// Gives a row to the net of each node, in the evaluation order.
fn give_nodes(table: &mut RowTable, net: &Netlist, ends: &[usize]) -> Result<(), AllocError>
    requires ends { length ends.now ≡ nets net.now.circuit }
    requires closed { IsClosed net.now.circuit }
    requires few { nets net.now.circuit < 2 ^ 32 }
    requires rows { length table.old.rows.items ≡ nets net.now.circuit }
    requires count { table.old.count ≤ source_count net.now.circuit }
    ensures whole { IsOrder (fan_ins net.now.circuit) (evaluation_order (fan_ins net.now.circuit)) }
    ensures along { (watched : List ℕ) → AreNeededUntil net.now.circuit (evaluation_order (fan_ins net.now.circuit)) watched ends.now
        → IsAlong net.now.circuit (evaluation_order (fan_ins net.now.circuit)) watched 0 table.old.rows.items table.old.held.items table.old.free.items table.old.count
        → OnOk result (let order = evaluation_order (fan_ins net.now.circuit) in IsAlong net.now.circuit order watched (length order) table.new.rows.items table.new.held.items table.new.free.items table.new.count) }
{
    for place in 0..net.order().len() {
        give_node(table, net, ends, place)?;
    }
    Ok(())
}

/// Gives a row to the net of the node at a place of the order, and frees the rows of that net and of those that the node
/// reads, unless they are needed at the next place or after it.
fn give_node(
    table: &mut RowTable,
    net: &Netlist,
    ends: &[usize],
    place: usize,
) -> Result<(), AllocError>
    requires ends { length ends.now ≡ nets net.now.circuit }
    requires closed { IsClosed net.now.circuit }
    requires place { place < length (evaluation_order (fan_ins net.now.circuit)) }
    requires rows { length table.old.rows.items ≡ nets net.now.circuit }
    requires count { table.old.count < 2 ^ 32 }
    ensures rows { length table.new.rows.items ≡ nets net.now.circuit }
    ensures count { table.new.count ≤ table.old.count + 1 }
    ensures along { (watched : List ℕ) → AreNeededUntil net.now.circuit (evaluation_order (fan_ins net.now.circuit)) watched ends.now
        → IsAlong net.now.circuit (evaluation_order (fan_ins net.now.circuit)) watched place table.old.rows.items table.old.held.items table.old.free.items table.old.count
        → OnOk result (IsAlong net.now.circuit (evaluation_order (fan_ins net.now.circuit)) watched (place + 1) table.new.rows.items table.new.held.items table.new.free.items table.new.count) }
{
    let node = net.order()[place];
    let own = net.node_net(node);
    table.give(own.number as usize);
    table.release_each(net.node_reads(node), ends, place + 1)?;
    table.release_each(&[own], ends, place + 1)
}
