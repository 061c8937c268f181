//! Why no question is asked of a netlist.
ghost use Rattle.std.specs.Prelude.{◌≡◌, IfOk};
ghost use Rattle.question_answers.specs.NoQuestion.{IsFit, no_question_text, reason_text};

use audit::{Shape, shape_reason};
use fault_secure::Code;
use netlist_answers::shape_text;
use std::alloc::{AllocError, Global};
use tsc_io::Bytes;
use tsc_net::{Netlist, Plan, SourceMeaning};

/// Why no question is asked of a netlist: the first of these.
#[derive(Clone, Copy, Debug, PartialEq, Eq)]
pub enum NoQuestion {
    /// The netlist has another number of these than its network.
    Shape(Shape),
    /// It has a latch.
    Latched,
    /// Its plan's code isn't parity.
    Parity,
}

/// Why no question is asked of a network and a netlist with its plan, if there is a reason.
pub fn no_question(source: &Netlist, net: &Netlist, plan: &Plan) -> Option<NoQuestion>
    ensures fit { IsFit source.now.circuit net.now.circuit plan.now result }
{
    if let Some(shape) = shape_reason(&SourceMeaning::Network(source), net, plan) {
        return Some(NoQuestion::Shape(shape));
    }
    if net.latches() != 0 {
        return Some(NoQuestion::Latched);
    }
    match plan.code {
        Code::Parity => None,
        Code::Berger | Code::MOutOfN => Some(NoQuestion::Parity),
    }
}

/// The line of a reason: `no` and the reason.
///
/// # Errors
///
/// Want of memory.
pub fn no_question_text(alloc: Global, why: NoQuestion) -> Result<Bytes, AllocError>
    ensures text { IfOk result (λ text. text ≡ no_question_text why) }
{
    let mut out = Bytes::new(alloc);
    out.append(b"no ")?;
    out.append(reason_text(why))?;
    out.append(b"\n")?;
    Ok(out)
}

/// A reason in words.
fn reason_text(why: NoQuestion) -> &'static [u8]
    ensures text { result.now ≡ reason_text why }
{
    match why {
        NoQuestion::Shape(shape) => shape_text(shape),
        NoQuestion::Latched => b"latched",
        NoQuestion::Parity => b"parity",
    }
}
