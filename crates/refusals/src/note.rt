//! The line that tells why there is no answer.
ghost use Rattle.std.specs.Prelude.{◌≡◌, ◌++◌, IfOk, OnOk, IfSome, IsNone};
ghost use Rattle.refusals.specs.Notes.{IsOfText, NeedsMemory, at_line, blif_text, kiss_text, limit_text, most_of, most_text, net_text, note_of, own_limit_text, pla_text, refusal_text, table_most_of, text_refusal_text, which_text, refutation_text};

use crate::limit::{Limit, OwnLimit};
use crate::refusal::Refusal;
use crate::text_refusal::TextRefusal;
use blif_read::{BlifError, Kind};
use kiss_read::KissError;
use pla_read::PlaError;
use refutation_text::RefutationFault;
use std::alloc::{AllocError, Global};
use tsc_io::Bytes;
use tsc_net::{NameTexts, NetError};
use tsc_text::{Which, push_number};

/// The note of a refusal: `tsc: `, its cause, and an LF.
///
/// # Errors
///
/// Want of memory.
pub fn note_text(alloc: Global, refusal: &Refusal) -> Result<Bytes, AllocError>
    ensures note { IfOk result (λ note. note ≡ note_of refusal.now) }
{
    if let Some(note) = fixed_note(refusal) {
        return Bytes::from_slice(alloc, note);
    }
    let mut out = Bytes::new(alloc);
    out.append(b"tsc: ")?;
    push_refusal(&mut out, refusal)?;
    out.append(b"\n")?;
    Ok(out)
}

/// Appends why there is no answer to a text.
fn push_refusal(out: &mut Bytes, refusal: &Refusal) -> Result<(), AllocError>
    requires of_text { IsOfText refusal.now }
    ensures text { OnOk result (out.new ≡ out.old ++ refusal_text refusal.now) }
{
    match refusal {
        Refusal::Text(refusal) => push_text_refusal(out, refusal),
        Refusal::Beyond(OwnLimit::Rows(rows)) => push_row_limit(out, *rows),
        _ => unreachable!(),
    }
}

/// Appends what a text is refused for.
fn push_text_refusal(out: &mut Bytes, refusal: &TextRefusal) -> Result<(), AllocError>
    requires needed { NeedsMemory refusal.now }
    ensures text { OnOk result (out.new ≡ out.old ++ text_refusal_text refusal.now) }
{
    match refusal {
        TextRefusal::BadByte { line } => push_at_line(out, *line, b"byte"),
        TextRefusal::Blif { kind, error } => push_blif(out, *kind, error),
        TextRefusal::Kiss(error) => push_kiss(out, error),
        TextRefusal::Pla(error) => push_pla(out, error),
        TextRefusal::AfterTheEnd { line } => push_at_line(out, *line, b"after the end"),
        TextRefusal::StepShape { line } => push_at_line(out, *line, b"step shape"),
        TextRefusal::Refutation(fault) => push_refutation(out, fault),
        _ => unreachable!(),
    }
}

/// Appends why a refutation isn't followed.
fn push_refutation(out: &mut Bytes, fault: &RefutationFault) -> Result<(), AllocError>
    ensures text { OnOk result (out.new ≡ out.old ++ refutation_text fault.now) }
{
    match fault {
        RefutationFault::Shape { line } => push_at_line(out, *line, b"refutation shape"),
        RefutationFault::NoClause { line } => push_at_line(out, *line, b"no clause"),
        RefutationFault::Hint { line } => push_at_line(out, *line, b"hint"),
        RefutationFault::NoRefutation => out.append(b"no refutation"),
        RefutationFault::Unfinished => out.append(b"unfinished"),
    }
}

/// Appends `limit: ROWS rows`.
fn push_row_limit(out: &mut Bytes, rows: usize) -> Result<(), AllocError>
    ensures text { OnOk result (out.new ≡ out.old ++ own_limit_text (OwnLimit.Rows rows)) }
{
    out.append(b"limit: ")?;
    push_number(out, rows as u64)?;
    out.append(b" rows")
}

/// Appends `line N: ` and a cause.
fn push_at_line(out: &mut Bytes, line: usize, cause: &[u8]) -> Result<(), AllocError>
    ensures text { OnOk result (out.new ≡ out.old ++ at_line line cause.now) }
{
    out.append(b"line ")?;
    push_number(out, line as u64)?;
    out.append(b": ")?;
    out.append(cause)
}

/// Appends why a section is no BLIF text of this kind.
fn push_blif(out: &mut Bytes, kind: Kind, error: &BlifError) -> Result<(), AllocError>
    ensures text { OnOk result (out.new ≡ out.old ++ blif_text kind error.now) }
{
    match error {
        BlifError::Unsupported { line } => push_at_line(out, *line, b"unsupported"),
        BlifError::WordCount { line } => push_at_line(out, *line, b"word count"),
        BlifError::RowOutside { line } => push_at_line(out, *line, b"row outside a cover"),
        BlifError::RowShape { line } => push_at_line(out, *line, b"row shape"),
        BlifError::Mixed { line } => push_at_line(out, *line, b"mixed rows"),
        BlifError::LatchInSource { line } => push_at_line(out, *line, b"latch in a source"),
        BlifError::LatchClock { line } => push_at_line(out, *line, b"latch clock"),
        BlifError::LatchInit { line } => push_at_line(out, *line, b"latch init"),
        BlifError::PlanShape { line } => push_at_line(out, *line, b"plan shape"),
        BlifError::Limit { line, which } => push_limit(out, *line, kind, *which),
        BlifError::Net(error) => push_net(out, error),
        BlifError::NoPlan => out.append(b"no plan"),
        BlifError::PlanName { line } => push_at_line(out, *line, b"plan name"),
        BlifError::Memory(_) => out.append(b"out of memory"),
    }
}

/// Appends why a section is no machine.
fn push_kiss(out: &mut Bytes, error: &KissError) -> Result<(), AllocError>
    ensures text { OnOk result (out.new ≡ out.old ++ kiss_text error.now) }
{
    match error {
        KissError::Header { line } => push_at_line(out, *line, b"header"),
        KissError::Unsupported { line } => push_at_line(out, *line, b"unsupported"),
        KissError::RowShape { line } => push_at_line(out, *line, b"row shape"),
        KissError::Limit { line, which } => push_most(out, *line, table_most_of(*which), *which),
        KissError::NoRows => out.append(b"no rows"),
        KissError::NoReset { line } => push_at_line(out, *line, b"no reset state"),
        KissError::Conflict { earlier, later } => push_conflict(out, *earlier, *later),
        KissError::Memory(_) => out.append(b"out of memory"),
    }
}

/// Appends why a section is no table of a network with free bits.
fn push_pla(out: &mut Bytes, error: &PlaError) -> Result<(), AllocError>
    ensures text { OnOk result (out.new ≡ out.old ++ pla_text error.now) }
{
    match error {
        PlaError::Header { line } => push_at_line(out, *line, b"header"),
        PlaError::Unsupported { line } => push_at_line(out, *line, b"unsupported"),
        PlaError::RowShape { line } => push_at_line(out, *line, b"row shape"),
        PlaError::Limit { line, which } => push_most(out, *line, table_most_of(*which), *which),
        PlaError::Memory(_) => out.append(b"out of memory"),
    }
}

/// Appends `line LATER: conflicts with line EARLIER`.
fn push_conflict(out: &mut Bytes, earlier: usize, later: usize) -> Result<(), AllocError>
    ensures text { OnOk result (out.new ≡ out.old ++ kiss_text (KissError.Conflict earlier later)) }
{
    push_at_line(out, later, b"conflicts with line ")?;
    push_number(out, earlier as u64)?;
    Ok(())
}

/// Appends `line N: limit: NUMBER WHICH` for a section of this kind.
fn push_limit(out: &mut Bytes, line: usize, kind: Kind, which: Which) -> Result<(), AllocError>
    ensures text { OnOk result (out.new ≡ out.old ++ at_line line (limit_text kind which)) }
{
    push_most(out, line, most_of(kind, which), which)
}

/// Appends `line N: limit: NUMBER WHICH`.
fn push_most(out: &mut Bytes, line: usize, most: u64, which: Which) -> Result<(), AllocError>
    ensures text { OnOk result (out.new ≡ out.old ++ at_line line (most_text most which)) }
{
    push_at_line(out, line, b"limit: ")?;
    push_number(out, most)?;
    out.append(b" ")?;
    out.append(which_text(which))
}

/// The words for a quantity.
fn which_text(which: Which) -> &'static [u8]
    ensures text { result.now ≡ which_text which }
{
    match which {
        Which::NameBytes => b"name bytes",
        Which::Inputs => b"inputs",
        Which::Outputs => b"outputs",
        Which::Nodes => b"nodes",
        Which::Pins => b"pins",
        Which::Latches => b"latches",
        Which::Rows => b"rows",
        Which::States => b"states",
    }
}

/// The greatest count of a quantity.
fn most_of(kind: Kind, which: Which) -> u64
    ensures most { result ≡ most_of kind which }
{
    match (which, kind) {
        (Which::NameBytes, _) => 255,
        (Which::Inputs, _) => 1024,
        (Which::Outputs, Kind::Source | Kind::Registers) => 64,
        (Which::Outputs, Kind::Netlist | Kind::AnyPlan | Kind::Unplanned) => 66,
        (Which::Nodes, Kind::Source | Kind::Registers) => 16384,
        (Which::Nodes, Kind::Netlist | Kind::AnyPlan | Kind::Unplanned) => 1048576,
        (Which::Latches, Kind::Registers) => 16384,
        (Which::Latches, Kind::AnyPlan | Kind::Unplanned) => 32768,
        (Which::Pins | Which::Latches, _) => 64,
        (Which::Rows, _) => 16384,
        (Which::States, _) => 4096,
    }
}

/// The greatest count of a quantity of a table.
fn table_most_of(which: Which) -> u64
    ensures most { result ≡ table_most_of which }
{
    match which {
        Which::NameBytes => 255,
        Which::Rows => 16384,
        Which::States => 4096,
        _ => 64,
    }
}

/// Appends why parts are no netlist.
fn push_net(out: &mut Bytes, error: &NetError) -> Result<(), AllocError>
    ensures text { OnOk result (out.new ≡ out.old ++ net_text error.now) }
{
    match error {
        NetError::Twice { net } => push_two(out, b"driven twice: ", net),
        NetError::Undriven { net } => push_two(out, b"undriven: ", net),
        NetError::NoOutputs => out.append(b"no outputs"),
        NetError::Cycle { nets } => push_cycle(out, nets),
        NetError::Memory(_) => out.append(b"out of memory"),
    }
}

/// Appends both texts.
fn push_two(out: &mut Bytes, first: &[u8], second: &Bytes) -> Result<(), AllocError>
    ensures text { OnOk result (out.new ≡ out.old ++ (first.now ++ second.now)) }
{
    out.append(first)?;
    out.append(second.as_slice())
}

/// Appends `cycle:`, and each name after a blank.
fn push_cycle(out: &mut Bytes, nets: &NameTexts) -> Result<(), AllocError>
    ensures text { OnOk result (out.new ≡ out.old ++ net_text (NetError.Cycle nets.now)) }
{
    out.append(b"cycle:")?;
    for net in nets.as_slice() {
        push_two(out, b" ", net)?;
    }
    Ok(())
}

/// The note of a refusal that is told neither from the text nor from the words. It takes no memory.
pub fn fixed_note(refusal: &Refusal) -> Option<&'static [u8]>
    ensures note { IfSome result (λ note. note.now ≡ note_of refusal.now) }
    ensures none { IsNone result → IsOfText refusal.now }
{
    match refusal {
        Refusal::Usage => Some(
            b"tsc: usage: tsc synth|ask|audit|faults|vectors|grade|sim|make|join|help\n",
        ),
        Refusal::ReadFault => Some(b"tsc: reading failed\n"),
        Refusal::WriteFault => Some(b"tsc: writing failed\n"),
        Refusal::Memory(_) => Some(b"tsc: out of memory\n"),
        Refusal::TooLong => Some(b"tsc: limit: 67108864 bytes\n"),
        Refusal::Text(refusal) => fixed_text_note(refusal),
        Refusal::Beyond(OwnLimit::Rows(_)) => None,
        Refusal::Beyond(OwnLimit::Pins) => Some(b"tsc: limit: 20 pins\n"),
    }
}

/// The note of what a text is refused for, if it isn't told from the text.
fn fixed_text_note(refusal: &TextRefusal) -> Option<&'static [u8]>
    ensures note { IfSome result (λ note. note.now ≡ note_of (Refusal.Text refusal.now)) }
    ensures none { IsNone result → NeedsMemory refusal.now }
{
    match refusal {
        TextRefusal::NoNetlist => Some(b"tsc: no netlist\n"),
        TextRefusal::NotListed => Some(b"tsc: fault not listed\n"),
        TextRefusal::NoStates => Some(b"tsc: no states\n"),
        TextRefusal::Refutation(fault) => fixed_refutation_note(fault),
        TextRefusal::TooMany(limit) => Some(limit_note(*limit)),
        TextRefusal::BadByte { .. } | TextRefusal::Blif { .. } => None,
        TextRefusal::Kiss(_) | TextRefusal::Pla(_) => None,
        TextRefusal::AfterTheEnd { .. } | TextRefusal::StepShape { .. } => None,
    }
}

/// The note of why a refutation isn't followed, if it isn't told from the text.
fn fixed_refutation_note(fault: &RefutationFault) -> Option<&'static [u8]>
    ensures note { IfSome result (λ note. note.now ≡ note_of (Refusal.Text (TextRefusal.Refutation fault.now))) }
    ensures none { IsNone result → NeedsMemory (TextRefusal.Refutation fault.now) }
{
    match fault {
        RefutationFault::NoRefutation => Some(b"tsc: no refutation\n"),
        RefutationFault::Unfinished => Some(b"tsc: unfinished\n"),
        _ => None,
    }
}

/// The note of a limit that a text passes.
fn limit_note(limit: Limit) -> &'static [u8]
    ensures note { result.now ≡ note_of (Refusal.Text (TextRefusal.TooMany limit)) }
{
    match limit {
        Limit::States => b"tsc: limit: 924 states\n",
        Limit::Covers => b"tsc: limit: 1048576 covers\n",
        Limit::Points => b"tsc: limit: 65536 points\n",
        Limit::AuditPoints => b"tsc: limit: 1048576 points\n",
        Limit::Parts => b"tsc: limit: 64 parts\n",
        Limit::JointInputs => b"tsc: limit: 1024 inputs\n",
    }
}
