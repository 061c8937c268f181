//! The lines on a machine that was made, synthesised and audited.
ghost use Rattle.std.specs.Prelude.{◌≡◌, ◌++◌, IfOk, OnOk};
ghost use Rattle.machine_maker.specs.Summary.{bound_line, code_line, counts_line, figure, machine_line, number_line, summary_text};

use std::alloc::{AllocError, Global};
use tsc_io::Bytes;
use tsc_text::push_number;

/// What is told of a machine and of its netlist under the Berger code.
#[derive(Clone, Copy, Debug, PartialEq, Eq)]
pub struct Figures {
    /// How many states it has.
    pub states: u64,
    /// How many rows.
    pub rows: u64,
    /// How many inputs.
    pub inputs: u64,
    /// How many outputs.
    pub outputs: u64,
    /// How many checks the netlist has.
    pub checks: u64,
    /// How many latches.
    pub latches: u64,
    /// How many places the monitored word has.
    pub word: u64,
    /// The bound on the covers of the netlist.
    pub bound: u64,
    /// How many points the machine has, a state and an input each.
    pub points: u64,
    /// How many output bits are 1 over all points.
    pub ones: u64,
    /// At how many points the next state is the reset state.
    pub resets: u64,
}

/// The five lines on a machine that was made from `number`.
///
/// # Errors
///
/// Want of memory.
pub fn summary_text(alloc: Global, number: u64, figures: &Figures) -> Result<Bytes, AllocError>
    ensures text { IfOk result (λ text. text ≡ summary_text number figures.now) }
{
    let mut out = Bytes::new(alloc);
    push_number_line(&mut out, number)?;
    push_machine_line(&mut out, figures)?;
    push_code_line(&mut out, figures)?;
    push_bound_line(&mut out, figures)?;
    push_counts_line(&mut out, figures)?;
    Ok(out)
}

/// Appends `make NUMBER`.
fn push_number_line(out: &mut Bytes, number: u64) -> Result<(), AllocError>
    ensures line { OnOk result (out.new ≡ out.old ++ number_line number) }
{
    out.append(b"make ")?;
    push_number(out, number)?;
    out.append(b"\n")
}

/// Appends `states S rows R inputs I outputs O`.
fn push_machine_line(out: &mut Bytes, figures: &Figures) -> Result<(), AllocError>
    ensures line { OnOk result (out.new ≡ out.old ++ machine_line figures.now) }
{
    out.append(b"states ")?;
    push_number(out, figures.states)?;
    push_figure(out, b"rows", figures.rows)?;
    push_figure(out, b"inputs", figures.inputs)?;
    push_figure(out, b"outputs", figures.outputs)?;
    out.append(b"\n")
}

/// Appends `code berger checks C latches L word W`.
fn push_code_line(out: &mut Bytes, figures: &Figures) -> Result<(), AllocError>
    ensures line { OnOk result (out.new ≡ out.old ++ code_line figures.now) }
{
    out.append(b"code berger")?;
    push_figure(out, b"checks", figures.checks)?;
    push_figure(out, b"latches", figures.latches)?;
    push_figure(out, b"word", figures.word)?;
    out.append(b"\n")
}

/// Appends `bound B points P`.
fn push_bound_line(out: &mut Bytes, figures: &Figures) -> Result<(), AllocError>
    ensures line { OnOk result (out.new ≡ out.old ++ bound_line figures.now) }
{
    out.append(b"bound ")?;
    push_number(out, figures.bound)?;
    push_figure(out, b"points", figures.points)?;
    out.append(b"\n")
}

/// Appends `ones Z resets Q`.
fn push_counts_line(out: &mut Bytes, figures: &Figures) -> Result<(), AllocError>
    ensures line { OnOk result (out.new ≡ out.old ++ counts_line figures.now) }
{
    out.append(b"ones ")?;
    push_number(out, figures.ones)?;
    push_figure(out, b"resets", figures.resets)?;
    out.append(b"\n")
}

/// Appends a word and a number, each after a blank.
fn push_figure(out: &mut Bytes, word: &[u8], number: u64) -> Result<(), AllocError>
    ensures figure { OnOk result (out.new ≡ out.old ++ figure word.now number) }
{
    out.append(b" ")?;
    out.append(word)?;
    out.append(b" ")?;
    push_number(out, number)
}
