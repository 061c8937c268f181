//! Which lines of the word depend on each node: one mask per node, made by one walk back along the evaluation order.
ghost use Rattle.std.specs.Prelude.{◌≡◌, ◌+◌, ◌^◌, ◌<◌, ◌≤◌, length, replicate, slice_index, All, IfOk};
ghost use Rattle.fault_secure.specs.Circuit.{nets, node};
ghost use Rattle.tsc_bits.specs.Bits.{bit_worth};
ghost use Rattle.tsc_net.specs.PlanView.{net_numbers};
ghost use Rattle.structure_audit.specs.Lines.{AreLineMasks, with_lines, with_all_lines, with_roots};

use std::alloc::{AllocError, Global};
use tsc_net::{NetId, Netlist};

/// For each node a mask of the lines that depend on it: its bit worth `2^k` stands for the net at place k of the word.
///
/// # Errors
///
/// Want of memory.
pub fn line_masks(alloc: Global, net: &Netlist, word: &[NetId]) -> Result<Vec<u128>, AllocError>
    requires few { length word.now ≤ 128 }
    requires nets { All (λ line. line.number < nets net.now.circuit) word.now }
    ensures masks { IfOk result (λ masks. AreLineMasks net.now.circuit (net_numbers word.now) masks.items) }
{
    let mut masks = vec![in alloc; 0; net.nodes()]?;
    fill(net, word, &mut masks);
    Ok(masks)
}

/// Gives each line to its driver, and walks back along the evaluation order.
fn fill(net: &Netlist, word: &[NetId], masks: &mut [u128])
    requires few { length word.now ≤ 128 }
    requires nets { All (λ line. line.number < nets net.now.circuit) word.now }
    requires clear { masks.old ≡ replicate (length net.now.circuit.nodes) 0 }
    ensures masks { AreLineMasks net.now.circuit (net_numbers word.now) masks.new }
{
    let first = net.nets() - net.nodes();
    add_roots(masks, first, word);
    let order = net.order();
    let mut left = order.len();
    while left > 0 {
        left -= 1;
        hand_on(net, first, order[left], masks);
    }
}

/// Adds each line at its driver.
fn add_roots(masks: &mut [u128], first: usize, word: &[NetId])
    requires few { length word.now ≤ 128 }
    requires within { All (λ line. line.number < first + length masks.old) word.now }
    ensures added { masks.new ≡ with_roots first 0 (net_numbers word.now) masks.old }
{
    for (place, line) in word.iter().enumerate() {
        add_lines(masks, first, line_bit(place), line.number as usize);
    }
}

/// Hands the lines of a node on to the drivers of its pins.
fn hand_on(net: &Netlist, first: usize, place: usize, masks: &mut [u128])
    requires first { first ≡ net.now.circuit.inputs + length net.now.circuit.latches }
    requires place { place < length net.now.circuit.nodes }
    requires sized { length masks.old ≡ length net.now.circuit.nodes }
    ensures handed { masks.new ≡ with_all_lines first (slice_index masks.old place) (node net.now.circuit place).reads masks.old }
{
    // What the netlist keeps is known from here on.
    let _nets = net.nets();
    let lines = masks[place];
    add_all_lines(masks, first, lines, net.node_reads(place));
}

/// Adds the lines at the drivers of the nets.
fn add_all_lines(masks: &mut [u128], first: usize, lines: u128, list: &[NetId])
    requires within { All (λ net. net.number < first + length masks.old) list.now }
    ensures added { masks.new ≡ with_all_lines first lines (net_numbers list.now) masks.old }
{
    for net in list {
        add_lines(masks, first, lines, net.number as usize);
    }
}

/// Adds the lines at the driver of the net, if a node drives it; the node at place 0 drives the net `first`.
fn add_lines(masks: &mut [u128], first: usize, lines: u128, net: usize)
    requires within { net < first + length masks.old }
    ensures added { masks.new ≡ with_lines first lines net masks.old }
{
    if net >= first {
        masks[net - first] |= lines;
    }
}

/// The mask of the line at `place` alone.
fn line_bit(place: usize) -> u128
    requires below { place < 128 }
    ensures bit { result ≡ 2 ^ place }
{
    1 << place
}

/// Whether the mask has the line at `place`.
pub fn has_line(mask: u128, place: usize) -> bool
    requires below { place < 128 }
    ensures bit { result ≡ bit_worth place mask }
{
    (mask >> place) & 1 == 1
}
