//! From which place of the evaluation order on a net isn't needed.
ghost use Rattle.std.specs.Prelude.{◌≡◌, ℕ, ◌<◌, if◌then◌else◌, All, IfOk, length, slice_index};
ghost use Rattle.fault_secure.specs.Circuit.{nets};
ghost use Rattle.fault_secure.specs.Closed.{IsClosed};
ghost use Rattle.tsc_net.specs.Order.{fan_ins, evaluation_order, has_place};
ghost use Rattle.tsc_net.specs.PlanView.{net_numbers};
ghost use Rattle.lane_rows.specs.Needs.{AreReadUntil, AreNeededUntil};

use std::alloc::{AllocError, Global};
use tsc_net::{NetId, Netlist};

/// For each net, the place of the evaluation order from which on it isn't needed, past all places where it is watched.
pub fn needed_until(alloc: Global, net: &Netlist, watch: &[NetId]) -> Result<Vec<usize>, AllocError>
    requires watched { All (λ w. w.number < nets net.now.circuit) watch.now }
    ensures sized { IfOk result (λ ends. length ends.items ≡ nets net.now.circuit) }
    ensures until { IfOk result (λ ends. AreNeededUntil net.now.circuit (evaluation_order (fan_ins net.now.circuit)) (net_numbers watch.now) ends.items) }
{
    let mut ends = vec![in alloc; 0; net.nets()]?;
    put_ends(&mut ends, net, watch);
    Ok(ends)
}

/// Puts at each net the place from which on it isn't needed, where 0 stood.
fn put_ends(ends: &mut [usize], net: &Netlist, watch: &[NetId])
    requires sized { length ends.old ≡ nets net.now.circuit }
    requires closed { IsClosed net.now.circuit }
    requires zeros { (n : ℕ) → slice_index ends.old n ≡ 0 }
    requires watched { All (λ w. w.number < nets net.now.circuit) watch.now }
    ensures until { AreNeededUntil net.now.circuit (evaluation_order (fan_ins net.now.circuit)) (net_numbers watch.now) ends.new }
{
    put_reads(ends, net);
    put_each(ends, watch, net.order().len() + 1);
}

/// Puts at each net the place from which on no node reads it, where 0 stood.
fn put_reads(ends: &mut [usize], net: &Netlist)
    requires sized { length ends.old ≡ nets net.now.circuit }
    requires closed { IsClosed net.now.circuit }
    requires zeros { (n : ℕ) → slice_index ends.old n ≡ 0 }
    ensures until { let order = evaluation_order (fan_ins net.now.circuit) in AreReadUntil net.now.circuit order (length order) ends.new }
{
    for (place, node) in net.order().iter().enumerate() {
        put_each(ends, net.node_reads(*node), place + 1);
    }
}

/// Puts the number at each of the nets.
fn put_each(numbers: &mut [usize], nets: &[NetId], number: usize)
    requires within { All (λ net. net.number < length numbers.old) nets.now }
    ensures each { (net : ℕ) → net < length numbers.old → slice_index numbers.new net ≡ (if has_place (net_numbers nets.now) net then number else slice_index numbers.old net) }
{
    for net in nets {
        numbers[net.number as usize] = number;
    }
}
