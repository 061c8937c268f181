//! The line of a wide verdict.
ghost use Rattle.std.specs.Prelude.{◌≡◌, ◌++◌, map, IfOk, OnOk};
ghost use Rattle.sim_text.specs.StepLine.{digit};
ghost use Rattle.wide_audit.specs.Shown.{IsWideIn};
ghost use Rattle.wide_audit.specs.declared.verdict.WideVerdict.TheVariants.{No};
ghost use Rattle.wide_answers.specs.WideText.{input_words, wide_reason_text, wide_text, wide_words};

use netlist_answers::{push_count, push_reason};
use std::alloc::{AllocError, Global};
use tsc_io::Bytes;
use tsc_net::Netlist;
use wide_audit::{WideReason, WideVerdict};

/// The line of a verdict on a netlist: `yes`, or `no` and the reason.
///
/// # Errors
///
/// Want of memory.
pub fn wide_text(alloc: Global, net: &Netlist, verdict: &WideVerdict) -> Result<Bytes, AllocError>
    requires shown { IsWideIn net.now.circuit verdict.now }
    ensures text { IfOk result (λ text. text ≡ wide_text net.now verdict.now) }
{
    let mut out = Bytes::new(alloc);
    push_verdict(&mut out, net, verdict)?;
    out.append(b"\n")?;
    Ok(out)
}

/// Appends `yes`, or `no` and the reason.
fn push_verdict(out: &mut Bytes, net: &Netlist, verdict: &WideVerdict) -> Result<(), AllocError>
    requires shown { IsWideIn net.now.circuit verdict.now }
    ensures words { OnOk result (out.new ≡ out.old ++ wide_words net.now verdict.now) }
{
    match verdict {
        WideVerdict::Yes => out.append(b"yes"),
        WideVerdict::No(why) => {
            out.append(b"no ")?;
            push_why(out, net, why)
        }
    }
}

/// Appends a reason in words.
fn push_why(out: &mut Bytes, net: &Netlist, why: &WideReason) -> Result<(), AllocError>
    requires shown { IsWideIn net.now.circuit (No why.now) }
    ensures text { OnOk result (out.new ≡ out.old ++ wide_reason_text net.now why.now) }
{
    match why {
        WideReason::Structure(why) => push_reason(out, net, *why),
        WideReason::Word { input } => {
            out.append(b"word")?;
            push_input(out, input.as_slice())
        }
        WideReason::Output { input, bit } => {
            out.append(b"output")?;
            push_input(out, input.as_slice())?;
            push_count(out, *bit)
        }
    }
}

/// Appends state 0 and an input, each after a blank.
#[tactic(auto, using(crate::proofs::WideLemmas::no_word, crate::proofs::WideLemmas::some_word))]
fn push_input(out: &mut Bytes, input: &[bool]) -> Result<(), AllocError>
    ensures words { OnOk result (out.new ≡ out.old ++ input_words input.now) }
{
    out.append(b" 0 ")?;
    if input.is_empty() {
        out.append(b".")
    } else {
        push_digits(out, input)
    }
}

/// Appends the character of each bit.
fn push_digits(out: &mut Bytes, bits: &[bool]) -> Result<(), AllocError>
    ensures digits { OnOk result (out.new ≡ out.old ++ map digit bits.now) }
{
    for bit in bits {
        out.push(if *bit { b'1' } else { b'0' })?;
    }
    Ok(())
}
