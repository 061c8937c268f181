//! Gates in negation normal form.
ghost use Rattle.std.specs.Prelude.{◌≡◌, ◌^◌, ◌<◌, ◌≤◌, map, length, IfOk};
ghost use Rattle.std.specs.List.{sum_by};
ghost use Rattle.gate_net.specs.Gates.{IsHashed, AreLines, meanings};
ghost use Rattle.gate_net.specs.Negations.{HasNo, is_state, NegatesOnlyInputs};
ghost use Rattle.push_negations.specs.NormalForm.{phases_of};
ghost use Rattle.push_negations.specs.Pushed.{most_lines, HaveValues, KeepZeros};

use crate::line_phases::{add_lines, positive_lines};
use gate_net::{Gates, LineList, NetGates};
use std::alloc::{AllocError, Global};

/// Gates without Xor, and with Not only over an Input, in which there is a line for each wanted line, in order, with
/// its value: it means the positive phase of what the wanted line means. They have the same inputs and state bits. The wanted lines are lines of the gates, which read no state bit.
/// At most two lines stand for a line, and six for an Xor; together they have to be fewer than 4,294,967,296.
///
/// # Errors
///
/// Want of memory.
#[tactic(auto, using(crate::proofs::Pushed::pushed_count, crate::proofs::Pushed::pushed_within, crate::proofs::Pushed::pushed_values, crate::proofs::Pushed::pushed_means, crate::proofs::Pushed::pushed_few, crate::proofs::Pushed::wanted_within))]
pub fn push(alloc: Global, gates: &Gates, wanted: &LineList) -> Result<NetGates, AllocError>
    requires stateless { HasNo is_state gates.now.gates }
    requires wanted { AreLines gates.now wanted.now }
    requires room { sum_by most_lines gates.now.gates < 2 ^ 32 }
    ensures count { IfOk result (λ made. length made.outputs ≡ length wanted.now) }
    ensures lines { IfOk result (λ made. AreLines made.gates made.outputs) }
    ensures values { IfOk result (λ made. HaveValues gates.now wanted.now made.gates made.outputs) }
    ensures means { IfOk result (λ made. meanings made.gates made.outputs ≡ map (λ signal. (phases_of signal).positive) (meanings gates.now wanted.now)) }
    ensures inputs { IfOk result (λ made. made.gates.inputs ≡ gates.now.inputs) }
    ensures states { IfOk result (λ made. made.gates.states ≡ gates.now.states) }
    ensures negations { IfOk result (λ made. NegatesOnlyInputs made.gates) }
    ensures zeros { IfOk result (λ made. KeepZeros gates.now wanted.now made.gates made.outputs) }
    ensures size { IfOk result (λ made. length made.gates.gates ≤ sum_by most_lines gates.now.gates) }
    ensures sound { IfOk result (λ made. IsHashed made.gates) }
{
    let mut made = Gates::new(alloc, gates.inputs(), gates.states());
    let phases = add_lines(alloc, gates, &mut made)?;
    let outputs = positive_lines(alloc, &phases, wanted.as_slice())?;
    Ok(NetGates {
        gates: made,
        outputs,
    })
}
