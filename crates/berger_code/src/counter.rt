//! A counter of zeros, in gates.
ghost use Rattle.std.specs.Prelude.{◌+◌, ◌*◌, ◌^◌, ◌<◌, ◌≤◌, ◌==◌, not, ◌&&◌, length, IfOk};
ghost use Rattle.fault_secure.specs.CodePlan.{IsBergerWidth};
ghost use Rattle.tsc_bits.specs.Counting.{differ, add_carry as add_carry_of};
ghost use Rattle.gate_net.specs.Gates.{IsLine, AreLines, line_value, line_values};
ghost use Rattle.gate_net.specs.Growth.{Grows, Computes, ComputesAll};
ghost use Rattle.berger_code.specs.Counter.{CountsZeros};

use crate::half_sum::HalfSum;
use gate_net::{Gate, Gates, Line};
use std::alloc::{AllocError, Global};

/// Adds the line that is 1 exactly where the output is 0.
///
/// # Errors
///
/// Want of memory.
pub fn zero_line(gates: &mut Gates, output: Line) -> Result<Line, AllocError>
    requires output { IsLine gates.old output }
    requires room { length gates.old.gates + 1 < 2 ^ 32 }
    ensures zero { IfOk result (λ line. Computes gates.old gates.new (λ x s. not (line_value gates.old x s output)) line) }
    ensures grown { Grows gates.old gates.new }
    ensures few { length gates.new.gates ≤ length gates.old.gates + 1 }
{
    gates.add(Gate::Not { a: output })
}

/// Adds the sum and the carry of two bits.
fn half_adder(gates: &mut Gates, bit: Line, carry: Line) -> Result<HalfSum, AllocError>
    requires bit { IsLine gates.old bit }
    requires carry { IsLine gates.old carry }
    requires room { length gates.old.gates + 2 < 2 ^ 32 }
    ensures sum { IfOk result (λ made. Computes gates.old gates.new (λ x s. differ (line_value gates.old x s bit) (line_value gates.old x s carry)) made.sum) }
    ensures carry { IfOk result (λ made. Computes gates.old gates.new (λ x s. line_value gates.old x s bit && line_value gates.old x s carry) made.carry) }
    ensures grown { Grows gates.old gates.new }
    ensures few { length gates.new.gates ≤ length gates.old.gates + 2 }
{
    let sum = gates.add(Gate::Xor { a: bit, b: carry })?;
    let carry = gates.add(Gate::And { a: bit, b: carry })?;
    Ok(HalfSum { sum, carry })
}

/// Adds a carry to counted bits, the least significant first. Where the counter gets longer, the last carry is a new bit.
fn add_carry(
    alloc: Global,
    gates: &mut Gates,
    bits: &[Line],
    carry: Line,
    longer: bool,
) -> Result<Vec<Line>, AllocError>
    requires bits { AreLines gates.old bits.now }
    requires carry { IsLine gates.old carry }
    requires room { length gates.old.gates + 2 * length bits.now < 2 ^ 32 }
    ensures added { IfOk result (λ next. ComputesAll gates.old gates.new (λ x s. add_carry_of longer (line_value gates.old x s carry) (line_values gates.old x s bits.now)) next.items) }
    ensures grown { Grows gates.old gates.new }
    ensures few { length gates.new.gates ≤ length gates.old.gates + 2 * length bits.now }
{
    let mut next = Vec::new(alloc);
    let mut carried = carry;
    for bit in bits {
        let made = half_adder(gates, *bit, carried)?;
        next.push(made.sum)?;
        carried = made.carry;
    }
    if longer {
        next.push(carried)?;
    }
    Ok(next)
}

/// Counts on over one output, the one with this number, from 1.
fn count_one(
    alloc: Global,
    gates: &mut Gates,
    bits: &[Line],
    output: Line,
    number: usize,
) -> Result<Vec<Line>, AllocError>
    requires bits { AreLines gates.old bits.now }
    requires output { IsLine gates.old output }
    requires small { length bits.now < 64 }
    requires room { length gates.old.gates + 2 * length bits.now + 1 < 2 ^ 32 }
    ensures added { IfOk result (λ next. ComputesAll gates.old gates.new (λ x s. add_carry_of (number == 2 ^ length bits.now) (not (line_value gates.old x s output)) (line_values gates.old x s bits.now)) next.items) }
    ensures grown { Grows gates.old gates.new }
    ensures few { length gates.new.gates ≤ length gates.old.gates + 2 * length bits.now + 1 }
{
    let carry = zero_line(gates, output)?;
    let longer = number == 1 << bits.len();
    let next = add_carry(alloc, gates, bits, carry, longer)?;
    Ok(next)
}

/// Adds the number of zeros among 1 to 64 outputs in binary, the least significant bit first.
pub fn count_zeros(
    alloc: Global,
    gates: &mut Gates,
    outputs: &[Line],
) -> Result<Vec<Line>, AllocError>
    requires outputs { AreLines gates.old outputs.now }
    requires most { length outputs.now ≤ 64 }
    requires room { length gates.old.gates + 13 * length outputs.now < 2 ^ 32 }
    ensures counted { IfOk result (λ bits. CountsZeros gates.old gates.new outputs.now bits.items) }
    ensures width { IfOk result (λ bits. IsBergerWidth (length outputs.now) (length bits.items)) }
    ensures grown { Grows gates.old gates.new }
    ensures few { length gates.new.gates ≤ length gates.old.gates + 13 * length outputs.now }
{
    let mut bits = Vec::new(alloc);
    let mut number = 1;
    for output in outputs {
        bits = count_one(alloc, gates, &bits, *output, number)?;
        number += 1;
    }
    Ok(bits)
}
