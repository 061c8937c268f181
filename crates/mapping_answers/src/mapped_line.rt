//! The line of an answer.
ghost use Rattle.std.specs.Prelude.{◌≡◌, ℕ, ◌<◌, ◌++◌, length, IfOk, OnOk};
ghost use Rattle.mapping_audit.specs.MappedAnswer.{IsShownIn};
ghost use Rattle.mapping_audit.specs.declared.answer.MappedAnswer.TheVariants.{No};
ghost use Rattle.mapping_answers.specs.MappedText.{no_text, node_word, reason_words, yes_text};

use mapping_audit::MappedReason;
use netlist_answers::push_count;
use sim_text::push_bits;
use std::alloc::{AllocError, Global};
use tsc_io::Bytes;
use tsc_net::Netlist;

/// The line of a yes.
///
/// # Errors
///
/// Want of memory.
pub fn yes_text(alloc: Global) -> Result<Bytes, AllocError>
    ensures text { IfOk result (λ text. text ≡ yes_text) }
{
    Bytes::from_slice(alloc, b"yes\n")
}

/// The line of a no with this reason.
///
/// # Errors
///
/// Want of memory.
pub fn no_text(
    alloc: Global,
    plain: &Netlist,
    mapped: &Netlist,
    reason: MappedReason,
) -> Result<Bytes, AllocError>
    requires shown { IsShownIn plain.now mapped.now (No reason) }
    ensures text { IfOk result (λ text. text ≡ no_text plain.now mapped.now reason) }
{
    let mut out = Bytes::new(alloc);
    out.append(b"no ")?;
    push_reason(&mut out, plain, mapped, reason)?;
    out.append(b"\n")?;
    Ok(out)
}

/// Appends a reason in words.
fn push_reason(
    out: &mut Bytes,
    plain: &Netlist,
    mapped: &Netlist,
    reason: MappedReason,
) -> Result<(), AllocError>
    requires shown { IsShownIn plain.now mapped.now (No reason) }
    ensures words { OnOk result (out.new ≡ out.old ++ reason_words plain.now mapped.now reason) }
{
    match reason {
        MappedReason::Inputs => out.append(b"inputs"),
        MappedReason::Latches => out.append(b"latches"),
        MappedReason::Outputs => out.append(b"outputs"),
        MappedReason::Net { node } => push_node(out, b"net", plain, node),
        MappedReason::NoBlock { gate } => push_node(out, b"block", mapped, gate),
        MappedReason::NoPin { gate, pin } => {
            push_node(out, b"pin", mapped, gate)?;
            push_count(out, pin)
        }
        MappedReason::NoCover { node, value, width } => {
            push_node(out, b"cover", plain, node)?;
            push_bits(out, value as u64, width)
        }
    }
}

/// Appends a reason, a blank, and the name of the net that a node drives.
fn push_node(out: &mut Bytes, reason: &[u8], net: &Netlist, node: usize) -> Result<(), AllocError>
    requires within { node < length net.now.circuit.nodes }
    ensures words { OnOk result (out.new ≡ out.old ++ (reason.now ++ node_word net.now node)) }
{
    out.append(reason)?;
    out.append(b" ")?;
    out.append(net.name(net.node_net(node)))
}
