//! The phases of the lines of a network.
ghost use Rattle.std.specs.Prelude.{◌≡◌, ◌^◌, ◌<◌, [], length, map, All, IfOk};
ghost use Rattle.std.specs.List.{sum_by};
ghost use Rattle.gate_net.specs.Gates.{IsHashed};
ghost use Rattle.gate_net.specs.Negations.{HasNo, is_state};
ghost use Rattle.push_negations.specs.Phases.{IsPushed, positive_at};
ghost use Rattle.push_negations.specs.Pushed.{most_lines};

use crate::gate_phases::add_gate;
use crate::phases::Phases;
use gate_net::{Gates, Line, LineList};
use std::alloc::{AllocError, Global};

/// Adds both phases of each line, in order, to a network without gates.
#[tactic(auto, using(crate::proofs::Pushed::pushed_none, crate::proofs::Pushed::next_reads, crate::proofs::Lines::pairs_within))]
pub fn add_lines(alloc: Global, gates: &Gates, made: &mut Gates) -> Result<Vec<Phases>, AllocError>
    requires stateless { HasNo is_state gates.now.gates }
    requires empty { made.old ≡ record { inputs = gates.now.inputs; states = gates.now.states; gates = [] } }
    requires sound { IsHashed made.old }
    requires room { sum_by most_lines gates.now.gates < 2 ^ 32 }
    ensures all { IfOk result (λ phases. length phases.items ≡ length gates.now.gates) }
    ensures pushed { IfOk result (λ phases. IsPushed gates.now made.new phases.items) }
    ensures gates { IsHashed gates.now }
{
    let mut phases = Vec::new(alloc);
    for number in 0..gates.len() {
        let gate = gates.gate(Line {
            number: number as u32,
        });
        let pair = add_gate(made, &phases, gate)?;
        phases.push(pair)?;
    }
    Ok(phases)
}

/// The lines of the positive phases of lines.
pub fn positive_lines(
    alloc: Global,
    phases: &[Phases],
    lines: &[Line],
) -> Result<LineList, AllocError>
    requires within { All (λ line. line.number < length phases.now) lines.now }
    ensures made { IfOk result (λ made. made ≡ map (positive_at phases.now) lines.now) }
{
    let mut made = LineList::new(alloc);
    for line in lines {
        made.push(phases[line.number as usize].positive)?;
    }
    Ok(made)
}
