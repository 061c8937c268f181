//! The line of a step.
ghost use Rattle.std.specs.Prelude.{◌≡◌, ◌≤◌, Bool, List, ◌∷◌, ◌++◌, OnOk};
ghost use Rattle.tsc_bits.specs.Bits.{bits_of};
ghost use Rattle.buffered_sink.specs.Output.{Prints, output};
ghost use Rattle.sim_text.specs.StepLine.{bits_word, line_of, rails_end};
ghost use Rattle.sim_text.specs.Widths.{AreFew};
ghost use Rattle.sim_text.specs.Printed.{answer_bits};
ghost use Rattle.fault_sim.specs.Outcomes.{outcome_answer};

use crate::step_word::StepWord;
use crate::widths::Widths;
use buffered_sink::{Page, Piece, print, print_all};
use fault_sim::{Outcome, StepView};
use std::alloc::AllocError;
use tsc_io::{Bytes, Sink, WriteFault};

/// Prints the line of a step: its number, the outputs, the checks, the nets at the latch inputs, the rails, and whether the
/// alarm is on. The bits at the latch inputs stand as a blank and a word, `next`.
///
/// # Errors
///
/// The sink failed.
pub(crate) fn print_step<K: Sink>(
    sink: &mut K,
    page: &mut Page,
    widths: Widths,
    step: u64,
    view: StepView,
    next: &[u8],
) -> Result<(), WriteFault>
    requires few { AreFew widths }
    ensures printed { (bits : List Bool) → next.now ≡ 32 ∷ bits_word bits → Prints result (output (K.written sink.old) (K.faults sink.old) page.old) (output (K.written sink.new) (K.faults sink.new) page.new) (line_of step (answer_bits widths (record { view = view; next = bits }))) }
{
    let outputs = StepWord::of(view.outputs, widths.outputs);
    let checks = StepWord::of(view.checks, widths.checks);
    let line = [
        Piece::Number(step),
        Piece::Text(outputs.as_slice()),
        Piece::Text(checks.as_slice()),
        Piece::Text(next),
        Piece::Text(rails_end(view.rail1, view.rail2)),
    ];
    print_all(sink, page, &line)
}

/// Prints the line of a step with this outcome, of a netlist with few latches.
///
/// # Errors
///
/// The sink failed.
pub(crate) fn print_outcome<K: Sink>(
    sink: &mut K,
    page: &mut Page,
    widths: Widths,
    step: u64,
    outcome: Outcome,
) -> Result<(), WriteFault>
    requires few { AreFew widths }
    requires few_latches { widths.next ≤ 64 }
    ensures printed { Prints result (output (K.written sink.old) (K.faults sink.old) page.old) (output (K.written sink.new) (K.faults sink.new) page.new) (line_of step (answer_bits widths (outcome_answer widths.next outcome))) }
{
    let next = StepWord::of(outcome.next, widths.next);
    print_step(sink, page, widths, step, outcome.view, next.as_slice())
}

/// Prints a blank, and the last `count` bits of a number as a word: `.` where there is none.
///
/// # Errors
///
/// The sink failed.
pub fn print_bits<K: Sink>(
    sink: &mut K,
    page: &mut Page,
    bits: u64,
    count: usize,
) -> Result<(), WriteFault>
    requires few { count ≤ 64 }
    ensures printed { Prints result (output (K.written sink.old) (K.faults sink.old) page.old) (output (K.written sink.new) (K.faults sink.new) page.new) (32 ∷ bits_word (bits_of count bits)) }
{
    print(sink, page, StepWord::of(bits, count).as_slice())
}

/// Appends a blank, and the last `count` bits of a number as a word: `.` where there is none.
///
/// # Errors
///
/// Want of memory.
pub fn push_bits(out: &mut Bytes, bits: u64, count: usize) -> Result<(), AllocError>
    requires few { count ≤ 64 }
    ensures word { OnOk result (out.new ≡ out.old ++ (32 ∷ bits_word (bits_of count bits))) }
{
    out.append(StepWord::of(bits, count).as_slice())
}

/// The end of a line: the rails, and whether the alarm is on. It is where the rails agree.
fn rails_end(rail1: bool, rail2: bool) -> &'static [u8]
    ensures end { result.now ≡ rails_end rail1 rail2 }
{
    match (rail1, rail2) {
        (false, false) => b" 00 alarm\n",
        (false, true) => b" 01 quiet\n",
        (true, false) => b" 10 quiet\n",
        (true, true) => b" 11 alarm\n",
    }
}
