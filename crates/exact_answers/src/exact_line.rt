//! The line of an exact verdict.
ghost use Rattle.std.specs.Prelude.{◌≡◌, ◌++◌, IfOk, OnOk};
ghost use Rattle.exact_audit.specs.ExactVerdict.{IsBehaviourIn, IsExactIn, IsPointIn};
ghost use Rattle.exact_audit.specs.declared.verdict.ExactVerdict.TheVariants.{No};
ghost use Rattle.exact_answers.specs.ExactText.{behaviour_text, bit_word, exact_text, exact_words, point_text, reason_text};

use exact_audit::{BehaviourReason, ExactReason, ExactVerdict, PointReason};
use netlist_answers::{push_count, push_point, push_told, shape_text};
use sim_text::push_bits;
use std::alloc::{AllocError, Global};
use tsc_io::Bytes;
use tsc_net::Netlist;

/// The line of a verdict on a netlist: `yes`, or `no` and the reason.
///
/// # Errors
///
/// Want of memory.
pub fn exact_text(alloc: Global, net: &Netlist, verdict: ExactVerdict) -> Result<Bytes, AllocError>
    requires shown { IsExactIn net.now.circuit verdict }
    ensures text { IfOk result (λ text. text ≡ exact_text net.now verdict) }
{
    let mut out = Bytes::new(alloc);
    push_verdict(&mut out, net, verdict)?;
    out.append(b"\n")?;
    Ok(out)
}

/// Appends `yes`, or `no` and the reason.
fn push_verdict(out: &mut Bytes, net: &Netlist, verdict: ExactVerdict) -> Result<(), AllocError>
    requires shown { IsExactIn net.now.circuit verdict }
    ensures words { OnOk result (out.new ≡ out.old ++ exact_words net.now verdict) }
{
    match verdict {
        ExactVerdict::Yes => out.append(b"yes"),
        ExactVerdict::No(why) => {
            out.append(b"no ")?;
            push_reason(out, net, why)
        }
    }
}

/// Appends a reason in words.
fn push_reason(out: &mut Bytes, net: &Netlist, why: ExactReason) -> Result<(), AllocError>
    requires shown { IsExactIn net.now.circuit (No why) }
    ensures text { OnOk result (out.new ≡ out.old ++ reason_text net.now why) }
{
    match why {
        ExactReason::Shape(shape) => out.append(shape_text(shape)),
        ExactReason::Behaviour(why) => push_behaviour(out, net, why),
        ExactReason::Point(why) => push_what(out, net, why),
    }
}

/// Appends what is wrong without a fault.
fn push_behaviour(out: &mut Bytes, net: &Netlist, why: BehaviourReason) -> Result<(), AllocError>
    requires shown { IsBehaviourIn net.now.circuit why }
    ensures text { OnOk result (out.new ≡ out.old ++ behaviour_text net.now why) }
{
    match why {
        BehaviourReason::Reset => out.append(b"reset"),
        BehaviourReason::Next { state, input } => push_point(out, b"next", net, state, input),
        BehaviourReason::Word { state, input } => push_point(out, b"word", net, state, input),
        BehaviourReason::Output { state, input, bit } => {
            push_point(out, b"output", net, state, input)?;
            push_count(out, bit)
        }
    }
}

/// Appends what is wrong at a point.
fn push_what(out: &mut Bytes, net: &Netlist, why: PointReason) -> Result<(), AllocError>
    requires shown { IsPointIn net.now.circuit why }
    ensures text { OnOk result (out.new ≡ out.old ++ point_text net.now why) }
{
    match why {
        PointReason::Quiet { state, input } => push_point(out, b"quiet", net, state, input),
        PointReason::Alarm {
            net: at,
            value,
            state,
            input,
        } => {
            push_told(out, b"alarm", net, at)?;
            push_bit(out, value)?;
            push_count(out, state)?;
            push_bits(out, input, net.inputs())
        }
    }
}

/// Appends a bit after a blank.
fn push_bit(out: &mut Bytes, bit: bool) -> Result<(), AllocError>
    ensures word { OnOk result (out.new ≡ out.old ++ bit_word bit) }
{
    if bit {
        out.append(b" 1")
    } else {
        out.append(b" 0")
    }
}
