//! The steps of a settle: the nodes of a netlist along its evaluation order, made ready.
ghost use Rattle.std.specs.Prelude.{◌≡◌, ◌≢◌, ℕ, ◌+◌, ◌*◌, ◌/◌, ◌%◌, ◌<◌, ◌≤◌, ◌^◌, false, [], ◌∷◌, length, take, slice_index_or, All, IfOk, OnOk, IsSome, Some};
ghost use Rattle.tsc_cover.specs.Cover.{truth};
ghost use Rattle.fault_secure.specs.Circuit.{nets, node, node_net};
ghost use Rattle.tsc_net.specs.Fault.{stuck_at_or_none};
ghost use Rattle.tsc_net.specs.Order.{fan_ins, evaluation_order};
ghost use Rattle.tsc_net.specs.PlanView.{net_numbers};
ghost use Rattle.lane_rows.specs.Alive.{source_count};
ghost use Rattle.lane_rows.specs.Rows.{row_of};
ghost use Rattle.lane_sim.specs.Points.{source_bit};
ghost use Rattle.lane_sim.specs.FlatRows.{AreInside, KeepsRows};
ghost use Rattle.lane_sim.specs.Gate.{operand_at, is_in_rows, number_of};
ghost use Rattle.lane_sim.specs.Program.{AreReady, IsStep, IsTwo, IsMany, IsOperationOf};
ghost use Rattle.lane_sim.specs.TwoPins.{AreMasks, IsTableOf};
ghost use Rattle.lane_sim.specs.Operation.{two_operation, operation_bit, IsFit};

use crate::flat_rows::FlatRows;
use crate::gate::{ManyPins, Operand, Operation, Step, TwoPins};
use crate::many_pins::settle_many;
use crate::masks::{SUM, all_masks, formula_of, masks_of};
use crate::ready::{is_in_rows, number_of, operand_of, terms_of};
use crate::two_pins::settle_two;
use lane_rows::Assignment;
use std::alloc::{AllocError, Global};
use tsc_cover::{Cover, Row01};
use tsc_net::{Fault, NetId, Netlist};

/// The steps of a settle, and the lists that they point into.
#[derive(Drop)]
pub(crate) struct Steps {
    /// Whether some input or latch output has a row.
    pub sources: bool,
    /// The steps, in the order in which they are taken.
    pub list: Vec<Step>,
    /// The rows of terms of gates of more than two pins.
    pub flat: FlatRows,
    /// The masks of the functions of the other gates: ten words for each function.
    pub masks: Vec<u64>,
}

impl Steps {
    /// The steps of a netlist.
    ///
    /// # Errors
    ///
    /// Want of memory.
    pub fn of(alloc: Global, net: &Netlist, rows: &Assignment) -> Result<Steps, AllocError>
        requires sized { length rows.now.rows ≡ nets net.now.circuit }
        requires small { nets net.now.circuit < 2 ^ 28 }
        requires few { (net row : ℕ) → row_of rows.now.rows net ≡ Some row → row < 2 ^ 28 }
        requires some { (j : ℕ) → j < length net.now.circuit.nodes → IsSome (row_of rows.now.rows (node_net net.now.circuit j)) }
        ensures ready { IfOk result (AreReady net.now.circuit rows.now.rows (evaluation_order (fan_ins net.now.circuit)) (length net.now.circuit.nodes)) }
    {
        let sources = some_has_row(rows, net.inputs() + net.latches());
        let mut list = Vec::with_capacity(alloc, net.nodes())?;
        let (gates_wide, rows_wide, terms_wide) = room_of(net);
        let mut flat = FlatRows::with_room(alloc, gates_wide, rows_wide, terms_wide)?;
        let masks = all_masks(alloc)?;
        for place in net.order() {
            list.push(step_of(alloc, net, rows, *place, &mut flat)?)?;
        }
        Ok(Steps {
            sources,
            list,
            flat,
            masks,
        })
    }

    /// Whether a processor foresees by which formula each gate of two pins is settled: there are few steps, or most such gates are
    /// settled by the same one as the gate before them. Where it doesn't, to take in the right instructions after the wrong ones
    /// costs more time than the shortest formula saves.
    pub fn are_foreseen(&self) -> bool {
        let mut changes: usize = 0;
        let mut last = SUM;
        for step in &self.list {
            let formula = formula_after(last, step);
            changes = changes.wrapping_add(usize::from(formula != last));
            last = formula;
        }
        self.list.len() <= FORESEEN || changes <= self.list.len() / 4
    }
}

/// So many steps are foreseen in any case: a processor learns their order from one settle to the next.
const FORESEEN: usize = 4096;

/// The formula of a gate of two pins; after a wide gate the one before it stays.
fn formula_after(last: usize, step: &Step) -> usize {
    match step.operation {
        Operation::Two {
            first_in_rows: _,
            second_in_rows: _,
            masks,
            first: _,
            second: _,
        } => formula_of(masks),
        Operation::Many { on: _, place: _ } => last,
    }
}

/// How many gates there are of more than two pins, how many rows they have together, and how many terms. For room alone: no clause
/// speaks of them, and a sum that wraps costs memory and nothing else.
fn room_of(net: &Netlist) -> (usize, usize, usize) {
    let mut gates: usize = 0;
    let mut rows: usize = 0;
    let mut terms: usize = 0;
    for place in 0..net.nodes() {
        let cover = net.node_cover(place);
        if cover.width() > 2 {
            gates = gates.wrapping_add(1);
            rows = rows.wrapping_add(cover.rows().len());
            terms = terms.wrapping_add(literals_in(cover.rows()));
        }
    }
    (gates, rows, terms)
}

/// How many literals rows have together.
fn literals_in(rows: &[Row01]) -> usize {
    let mut literals: usize = 0;
    for row in rows {
        literals = literals.wrapping_add(row.care.count_ones() as usize);
    }
    literals
}

/// Whether one of the first nets, as many as `count`, has a row.
fn some_has_row(rows: &Assignment, count: usize) -> bool
    requires sized { count ≤ length rows.now.rows }
    ensures none { result ≡ false → (net row : ℕ) → net < count → row_of rows.now.rows net ≡ Some row → ⊥ }
{
    for net in 0..count {
        if rows.rows()[net].is_some() {
            return true;
        }
    }
    false
}

/// Takes a step under a fault: writes the lanes of its net into its row. `first` is the net of the first node. FORMULAS says whether
/// a gate of two pins is settled by the formula of its function.
pub(crate) fn settle_step<const N: usize, const FORMULAS: bool>(
    step: &Step,
    flat: &FlatRows,
    masks: &[u64],
    first: usize,
    words: &[u64],
    block: &mut [u64],
    fault: Option<Fault>,
)
    requires few { N ≤ 16 }
    requires inside { AreInside flat.now }
    requires masks { AreMasks masks.now }
    requires start { step.now.to % 16 ≡ 0 }
    requires room { step.now.to + 16 ≤ length block.old }
    requires sources { length words.now ≡ first * 16 }
    requires fit { IsFit words.now block.old flat.now step.now.operation }
    ensures here { (p : ℕ) → p < N * 64 → source_bit block.new (step.now.to / 16) p ≡ operation_bit (stuck_at_or_none fault) step.now.driver words.now block.old p flat.now step.now.operation }
    ensures others { (other p : ℕ) → p < N * 64 → other ≢ step.now.to / 16 → source_bit block.new other p ≡ source_bit block.old other p }
    ensures sized { length block.new ≡ length block.old }
{
    let driver = step.driver as usize;
    let to = step.to as usize;
    match step.operation {
        Operation::Two {
            first_in_rows,
            second_in_rows,
            masks: function,
            first: a,
            second: b,
        } => {
            let gate = TwoPins {
                first: a,
                second: b,
                first_in_rows,
                second_in_rows,
                masks: function,
            };
            settle_two::<N, FORMULAS>(gate, masks, to, driver, first, words, block, fault);
        }
        Operation::Many { on, place } => {
            let gate = ManyPins { place, on };
            settle_many::<N>(gate, flat, to, driver, first, words, block, fault);
        }
    }
}

/// The step of the node at `place`, in text order.
fn step_of(
    alloc: Global,
    net: &Netlist,
    rows: &Assignment,
    place: usize,
    flat: &mut FlatRows,
) -> Result<Step, AllocError>
    requires place { place < length net.now.circuit.nodes }
    requires sized { length rows.now.rows ≡ nets net.now.circuit }
    requires small { nets net.now.circuit < 2 ^ 28 }
    requires few { (net row : ℕ) → row_of rows.now.rows net ≡ Some row → row < 2 ^ 28 }
    requires some { (j : ℕ) → j < length net.now.circuit.nodes → IsSome (row_of rows.now.rows (node_net net.now.circuit j)) }
    requires inside { AreInside flat.old }
    requires gates { length flat.old.gates.items < 2 ^ 32 }
    ensures ready { IfOk result (IsStep (source_count net.now.circuit) rows.now.rows (node net.now.circuit place) (node_net net.now.circuit place) flat.new) }
    ensures keeps { OnOk result (KeepsRows flat.old flat.new) }
    ensures inside { OnOk result (AreInside flat.new) }
    ensures gates { OnOk result (length flat.new.gates.items ≤ length flat.old.gates.items + 1) }
{
    // What a checked netlist keeps is known from here on.
    let _nets = net.nets();
    let first = net.inputs() + net.latches();
    let driver = net.node_net(place);
    let to = start_of(rows.row(driver).unwrap() as u32);
    let reads = net.node_reads(place);
    let cover = net.node_cover(place);
    // So is it that a cover has at most 64 pins.
    let _width = cover.width();
    let operation = operation_of(alloc, cover, reads, first, rows, flat)?;
    Ok(Step {
        driver: driver.number,
        to,
        operation,
    })
}

/// How the lanes of a node are got whose pins read these nets; `first` is the net of the first node.
fn operation_of(
    alloc: Global,
    cover: &Cover,
    reads: &[NetId],
    first: usize,
    rows: &Assignment,
    flat: &mut FlatRows,
) -> Result<Operation, AllocError>
    requires pins { length reads.now ≤ 64 }
    requires width { cover.now.width ≡ length reads.now }
    requires sized { All (λ read. read.number < length rows.now.rows) reads.now }
    requires any { 0 < length rows.now.rows }
    requires small { length rows.now.rows < 2 ^ 28 }
    requires few { (net row : ℕ) → row_of rows.now.rows net ≡ Some row → row < 2 ^ 28 }
    requires some { (net : ℕ) → first ≤ net → net < length rows.now.rows → IsSome (row_of rows.now.rows net) }
    requires inside { AreInside flat.old }
    requires gates { length flat.old.gates.items < 2 ^ 32 }
    ensures operation { IfOk result (IsOperationOf first rows.now.rows (record { reads = net_numbers reads.now; cover = cover.now }) flat.new) }
    ensures keeps { OnOk result (KeepsRows flat.old flat.new) }
    ensures inside { OnOk result (AreInside flat.new) }
    ensures gates { OnOk result (length flat.new.gates.items ≤ length flat.old.gates.items + 1) }
{
    if reads.len() <= 2 {
        return Ok(two_operation(two_of(cover, reads, first, rows)));
    }
    let ManyPins { place, on } = many_of(alloc, cover, reads, first, rows, flat)?;
    Ok(Operation::Many { on, place })
}

/// The operation of a gate of at most two pins.
fn two_operation(gate: TwoPins) -> Operation
    ensures gate { result ≡ two_operation gate }
{
    Operation::Two {
        first_in_rows: gate.first_in_rows,
        second_in_rows: gate.second_in_rows,
        masks: gate.masks,
        first: gate.first,
        second: gate.second,
    }
}

/// The gate of a node of at most two pins.
fn two_of(cover: &Cover, reads: &[NetId], first: usize, rows: &Assignment) -> TwoPins
    requires pins { length reads.now ≤ 2 }
    requires width { cover.now.width ≡ length reads.now }
    requires sized { All (λ read. read.number < length rows.now.rows) reads.now }
    requires any { 0 < length rows.now.rows }
    requires small { length rows.now.rows < 2 ^ 28 }
    requires few { (net row : ℕ) → row_of rows.now.rows net ≡ Some row → row < 2 ^ 28 }
    requires some { (net : ℕ) → first ≤ net → net < length rows.now.rows → IsSome (row_of rows.now.rows net) }
    ensures gate { IsTwo first rows.now.rows (record { reads = net_numbers reads.now; cover = cover.now }) result }
{
    let one = net_or(reads, 0, NetId { number: 0 });
    let other = net_or(reads, 1, one);
    let a = operand_of(rows, first, one);
    let b = operand_of(rows, first, other);
    TwoPins {
        first: operand_start(a),
        second: operand_start(b),
        first_in_rows: is_in_rows(a),
        second_in_rows: is_in_rows(b),
        masks: masks_of(table_of(cover)),
    }
}

/// The word at which a row starts, or a net's lanes among those of the points.
fn start_of(place: u32) -> u32
    requires few { place < 2 ^ 28 }
    ensures place { result / 16 ≡ place }
    ensures start { result % 16 ≡ 0 }
{
    place * 16
}

/// The word at which the lanes of an operand start.
fn operand_start(operand: Operand) -> u32
    requires few { number_of operand < 2 ^ 28 }
    ensures operand { operand_at (is_in_rows operand) result ≡ operand }
    ensures start { result % 16 ≡ 0 }
{
    start_of(number_of(operand))
}

/// The net at a pin, or another one where there is no such pin.
fn net_or(reads: &[NetId], pin: usize, or: NetId) -> NetId
    ensures net { result.number ≡ slice_index_or (net_numbers reads.now) pin or.number }
    ensures within { (many : ℕ) → All (λ read. read.number < many) reads.now → or.number < many → result.number < many }
{
    if pin < reads.len() { reads[pin] } else { or }
}

/// The number of the function of a cover of at most two pins, as a sum modulo 2: 1 for a constant, 2 for the first bit, 4 for the
/// second, 8 for their product.
pub fn table_of(cover: &Cover) -> u8
    requires narrow { cover.now.width ≤ 2 }
    ensures table { IsTableOf cover.now cover.now.width result }
{
    let none = truth_at(cover, false, false);
    let one = truth_at(cover, true, false);
    let other = truth_at(cover, false, true);
    let all = truth_at(cover, true, true);
    let both = (all != one) != (other != none);
    u8::from(none) + 2 * u8::from(one != none) + 4 * u8::from(other != none) + 8 * u8::from(both)
}

/// The truth of a cover of at most two pins, where these are the bits of the first two.
fn truth_at(cover: &Cover, a: bool, b: bool) -> bool
    requires narrow { cover.now.width ≤ 2 }
    ensures truth { result ≡ truth cover.now (take cover.now.width (a ∷ b ∷ [])) }
{
    let read = u64::from(a) * 2 + u64::from(b);
    cover.truth(read >> (2 - cover.width()))
}

/// The gate of a node of any number of pins, whose rows of terms are added to the others.
fn many_of(
    alloc: Global,
    cover: &Cover,
    reads: &[NetId],
    first: usize,
    rows: &Assignment,
    flat: &mut FlatRows,
) -> Result<ManyPins, AllocError>
    requires pins { length reads.now ≤ 64 }
    requires width { cover.now.width ≡ length reads.now }
    requires sized { All (λ read. read.number < length rows.now.rows) reads.now }
    requires few { (net row : ℕ) → row_of rows.now.rows net ≡ Some row → row < 2 ^ 28 }
    requires some { (net : ℕ) → first ≤ net → net < length rows.now.rows → IsSome (row_of rows.now.rows net) }
    requires inside { AreInside flat.old }
    requires gates { length flat.old.gates.items < 2 ^ 32 }
    ensures gate { IfOk result (IsMany first rows.now.rows (record { reads = net_numbers reads.now; cover = cover.now }) flat.new) }
    ensures keeps { OnOk result (KeepsRows flat.old flat.new) }
    ensures inside { OnOk result (AreInside flat.new) }
    ensures gates { OnOk result (length flat.new.gates.items ≤ length flat.old.gates.items + 1) }
{
    // That each row of the cover has as many pins is known from here on.
    let _width = cover.width();
    let terms = terms_of(alloc, cover, reads, first, rows)?;
    let place = flat.push(terms.as_slice())?;
    Ok(ManyPins {
        place,
        on: cover.on(),
    })
}
