//! Which lines of gates some lines need.
ghost use Rattle.std.specs.Prelude.{◌≡◌, ◌^◌, ◌<◌, ℕ, true, false, length, IfOk, slice_set};
ghost use Rattle.fault_secure.specs.Circuit.{bit};
ghost use Rattle.gate_net.specs.Gates.{IsHashed, AreLines};
ghost use Rattle.gate_net.specs.Needed.{MarksNeeded, MarksOperands};

use crate::gate::Gate;
use crate::gates::Gates;
use crate::line::Line;
use std::alloc::{AllocError, Global};

/// For each line of the gates whether some of the wanted lines needs it, directly or through others.
pub fn needed(alloc: Global, gates: &Gates, wanted: &[Line]) -> Result<Vec<bool>, AllocError>
    requires wanted { AreLines gates.now wanted.now }
    ensures marks { IfOk result (λ marks. MarksNeeded gates.now wanted.now 0 marks.items) }
{
    let mut marks = vec![in alloc; false; gates.len()]?;
    mark_wanted(&mut marks, gates, wanted);
    mark_read(&mut marks, gates, wanted);
    Ok(marks)
}

/// Marks the wanted lines.
fn mark_wanted(marks: &mut [bool], gates: &Gates, wanted: &[Line])
    requires sized { length marks.old ≡ length gates.now.gates }
    requires wanted { AreLines gates.now wanted.now }
    requires none { (n : ℕ) → bit marks.old n ≡ false }
    ensures marks { MarksNeeded gates.now wanted.now (length gates.now.gates) marks.new }
{
    for line in wanted {
        mark(marks, *line);
    }
}

/// Marks what the gates of marked lines read, from the last line to the first: a gate reads earlier lines.
fn mark_read(marks: &mut [bool], gates: &Gates, wanted: &[Line])
    requires marks { MarksNeeded gates.now wanted.now (length gates.now.gates) marks.old }
    ensures marks { MarksNeeded gates.now wanted.now 0 marks.new }
{
    for place in (0..gates.len()).rev() {
        mark_operands(marks, gates, place);
    }
}

/// Marks a line.
fn mark(marks: &mut [bool], line: Line)
    requires within { line.number < length marks.old }
    ensures marked { marks.new ≡ slice_set marks.old line.number true }
{
    marks[line.number as usize] = true;
}

/// Marks the lines that a line reads, where it is marked.
fn mark_operands(marks: &mut [bool], gates: &Gates, place: usize)
    requires sized { length marks.old ≡ length gates.now.gates }
    requires place { place < length gates.now.gates }
    requires few { length gates.now.gates < 2 ^ 32 }
    ensures operands { MarksOperands gates.now place marks.old marks.new }
    ensures sound { IsHashed gates.now }
{
    let gate = gates.gate(Line {
        number: place as u32,
    });
    if !marks[place] {
        return;
    }
    match gate {
        Gate::Not { a } => mark(marks, a),
        Gate::And { a, b } => mark_two(marks, a, b),
        Gate::Or { a, b } => mark_two(marks, a, b),
        Gate::Xor { a, b } => mark_two(marks, a, b),
        _ => {}
    }
}

/// Marks two lines.
fn mark_two(marks: &mut [bool], a: Line, b: Line)
    requires a { a.number < length marks.old }
    requires b { b.number < length marks.old }
    ensures marked { marks.new ≡ slice_set (slice_set marks.old a.number true) b.number true }
{
    mark(marks, a);
    mark(marks, b);
}
