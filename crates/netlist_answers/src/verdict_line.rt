//! The line of a verdict.
ghost use Rattle.std.specs.Prelude.{◌≡◌, ◌<◌, ◌≤◌, ◌++◌, IfOk, OnOk};
ghost use Rattle.audit.specs.Shown.{IsReasonIn, IsShownIn};
ghost use Rattle.fault_secure.specs.Circuit.{nets};
ghost use Rattle.netlist_answers.specs.VerdictText.{net_word, number_word, point_words, reason_text, shape_text, verdict_text, verdict_words};

use audit::{Reason, Shape, Verdict};
use sim_text::push_bits;
use std::alloc::{AllocError, Global};
use tsc_io::Bytes;
use tsc_net::{NetId, Netlist};
use tsc_text::push_number;

/// The line of a verdict on a netlist: `yes`, or `no` and the reason.
///
/// # Errors
///
/// Want of memory.
pub fn verdict_text(alloc: Global, net: &Netlist, verdict: Verdict) -> Result<Bytes, AllocError>
    requires shown { IsShownIn net.now.circuit verdict }
    ensures text { IfOk result (λ text. text ≡ verdict_text net.now verdict) }
{
    let mut out = Bytes::new(alloc);
    push_verdict(&mut out, net, verdict)?;
    out.append(b"\n")?;
    Ok(out)
}

/// Appends `yes`, or `no` and the reason.
fn push_verdict(out: &mut Bytes, net: &Netlist, verdict: Verdict) -> Result<(), AllocError>
    requires shown { IsShownIn net.now.circuit verdict }
    ensures words { OnOk result (out.new ≡ out.old ++ verdict_words net.now verdict) }
{
    match verdict {
        Verdict::Yes => out.append(b"yes"),
        Verdict::No(reason) => {
            out.append(b"no ")?;
            push_reason(out, net, reason)
        }
    }
}

/// Appends a reason in words.
///
/// # Errors
///
/// Want of memory.
pub fn push_reason(out: &mut Bytes, net: &Netlist, reason: Reason) -> Result<(), AllocError>
    requires shown { IsReasonIn net.now.circuit reason }
    ensures text { OnOk result (out.new ≡ out.old ++ reason_text net.now reason) }
{
    match reason {
        Reason::Shape(shape) => out.append(shape_text(shape)),
        Reason::Rails { net: at } => push_told(out, b"rails", net, at),
        Reason::Reads { node, pin } => push_pin(out, b"reads", net, node, pin),
        Reason::Sign { node, pin } => push_pin(out, b"sign", net, node, pin),
        Reason::Latched => out.append(b"latched"),
        Reason::Shares {
            group,
            first,
            second,
            node,
        } => push_shares(out, net, group, first, second, node),
        Reason::Reset => out.append(b"reset"),
        Reason::Next { state, input } => push_point(out, b"next", net, state, input),
        Reason::Word { state, input } => push_point(out, b"word", net, state, input),
        Reason::Output { state, input, bit } => {
            push_point(out, b"output", net, state, input)?;
            push_count(out, bit)
        }
        Reason::CheckerWord { value, width } => {
            out.append(b"checker")?;
            push_bits(out, value, width)
        }
        Reason::CheckerNet { net: at } => push_told(out, b"checker net", net, at),
    }
}

/// What differs from the source, in words.
pub fn shape_text(shape: Shape) -> &'static [u8]
    ensures text { result.now ≡ shape_text shape }
{
    match shape {
        Shape::Inputs => b"shape inputs",
        Shape::Outputs => b"shape outputs",
        Shape::States => b"shape states",
    }
}

/// Appends a reason, and a net after a blank.
///
/// # Errors
///
/// Want of memory.
pub fn push_told(out: &mut Bytes, reason: &[u8], net: &Netlist, at: NetId) -> Result<(), AllocError>
    requires known { at.number < nets net.now.circuit }
    ensures words { OnOk result (out.new ≡ out.old ++ (reason.now ++ net_word net.now at)) }
{
    out.append(reason)?;
    push_net(out, net, at)
}

/// Appends a reason, a net and a pin, each after a blank.
fn push_pin(
    out: &mut Bytes,
    reason: &[u8],
    net: &Netlist,
    node: NetId,
    pin: usize,
) -> Result<(), AllocError>
    requires known { node.number < nets net.now.circuit }
    ensures words { OnOk result (out.new ≡ out.old ++ (reason.now ++ (net_word net.now node ++ number_word pin))) }
{
    push_told(out, reason, net, node)?;
    push_count(out, pin)
}

/// Appends `shares GROUP LINE LINE NODE`.
fn push_shares(
    out: &mut Bytes,
    net: &Netlist,
    group: usize,
    first: NetId,
    second: NetId,
    node: NetId,
) -> Result<(), AllocError>
    requires first { first.number < nets net.now.circuit }
    requires second { second.number < nets net.now.circuit }
    requires node { node.number < nets net.now.circuit }
    ensures text { OnOk result (out.new ≡ out.old ++ reason_text net.now (Reason.Shares group first second node)) }
{
    out.append(b"shares")?;
    push_count(out, group)?;
    push_net(out, net, first)?;
    push_net(out, net, second)?;
    push_net(out, net, node)
}

/// Appends a reason, a state and an input, each after a blank.
///
/// # Errors
///
/// Want of memory.
pub fn push_point(
    out: &mut Bytes,
    reason: &[u8],
    net: &Netlist,
    state: usize,
    input: u64,
) -> Result<(), AllocError>
    requires few { net.now.circuit.inputs ≤ 64 }
    ensures words { OnOk result (out.new ≡ out.old ++ (reason.now ++ point_words net.now state input)) }
{
    out.append(reason)?;
    push_count(out, state)?;
    push_bits(out, input, net.inputs())
}

/// Appends the name of a net after a blank.
fn push_net(out: &mut Bytes, net: &Netlist, at: NetId) -> Result<(), AllocError>
    requires known { at.number < nets net.now.circuit }
    ensures word { OnOk result (out.new ≡ out.old ++ net_word net.now at) }
{
    out.append(b" ")?;
    out.append(net.name(at))
}

/// Appends a number after a blank.
///
/// # Errors
///
/// Want of memory.
pub fn push_count(out: &mut Bytes, number: usize) -> Result<(), AllocError>
    ensures word { OnOk result (out.new ≡ out.old ++ number_word number) }
{
    out.append(b" ")?;
    push_number(out, number as u64)?;
    Ok(())
}
