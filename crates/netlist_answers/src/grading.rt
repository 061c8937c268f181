//! The grades of the faults of a text's netlist.
ghost use Rattle.std.specs.Prelude.{◌≡◌, ◌^◌, ◌<◌, ◌≤◌, All, None, length, IfErr, IfOk, OnOk};
ghost use Rattle.fault_secure.specs.Circuit.{nets};
ghost use Rattle.tsc_net.specs.Limits.{most_nets};
ghost use Rattle.fault_sim.specs.PlanNets.{HasPlanNets};
ghost use Rattle.grading_laws.specs.Counts.{AreGrades};
ghost use Rattle.commands.specs.declared.sim_words.SimFault.TheVariants.{NoFault};
ghost use Rattle.text_sections.specs.Refused.{IsRefusedBy};
ghost use Rattle.netlist_answers.specs.Answers.{IsGradeListOf, IsGradeReply};
ghost use Rattle.netlist_answers.specs.GradeText.{grade_list};
ghost use Rattle.netlist_answers.specs.Printout.{IsGraded};
ghost use Rattle.netlist_answers.specs.Refused.{sim_lines_refusal, sim_refusal};

use crate::printout::GradedNetlist;
use crate::simulating::step_lines;
use fault_grades::grade_faults;
use refusals::Refusal;
use sim_text::StepLines;
use std::alloc::{AllocError, Global};
use text_sections::{first_any_netlist, text_lines};
use tsc_io::Bytes;
use tsc_net::{Faults, PlannedNetlist};
use tsc_text::{End, Lines};

/// The netlist that `text` begins with, its listed faults, and their grades over the step lines after it.
///
/// # Errors
///
/// The first refusal of the text, as that of a simulation without a fault, or want of memory.
pub fn graded_netlist(alloc: Global, text: &Bytes) -> Result<GradedNetlist, Refusal>
    requires short { length text.now ≤ 67108864 }
    ensures answers { IfOk result (λ graded. IsGradeReply text.now (grade_list graded.net graded.grades)) }
    ensures graded { IfOk result IsGraded }
    ensures allowed { OnOk result (sim_refusal NoFault text.now ≡ None) }
    ensures refused { IfErr result (IsRefusedBy (sim_refusal NoFault text.now)) }
{
    let lines = text_lines(alloc, text)?;
    graded_lines(alloc, &lines)
}

/// The netlist that the lines begin with, its listed faults, and their grades over the step lines after it.
fn graded_lines(alloc: Global, lines: &Lines) -> Result<GradedNetlist, Refusal>
    ensures answers { IfOk result (λ graded. IsGradeListOf lines.now (grade_list graded.net graded.grades)) }
    ensures graded { IfOk result IsGraded }
    ensures allowed { OnOk result (sim_lines_refusal NoFault lines.now ≡ None) }
    ensures refused { IfErr result (IsRefusedBy (sim_lines_refusal NoFault lines.now)) }
{
    let read = first_any_netlist(alloc, lines)?;
    // That the lines have few words is known from here on.
    let _lines = lines.len();
    let from = lines.section(0, End::Blif).next;
    let steps = step_lines(lines, from, read.net.inputs())?;
    match graded_over(alloc, read, &steps) {
        Ok(graded) => Ok(graded),
        Err(error) => Err(Refusal::Memory(error)),
    }
}

/// A netlist, its listed faults, and their grades over these steps.
fn graded_over(
    alloc: Global,
    read: PlannedNetlist,
    steps: &StepLines,
) -> Result<GradedNetlist, AllocError>
    requires plan { HasPlanNets read.net.circuit read.plan }
    requires nets { nets read.net.circuit ≤ most_nets }
    requires inputs { All (λ input. length input ≡ read.net.circuit.inputs) steps.now }
    requires short { length steps.now < 2 ^ 32 }
    ensures net { IfOk result (λ graded. graded.net ≡ read.net) }
    ensures grades { IfOk result (λ graded. AreGrades read.net.circuit read.plan steps.now graded.grades) }
    ensures graded { IfOk result IsGraded }
{
    let faults = Faults::of(alloc, &read.net)?;
    let grades = grade_faults(alloc, &read.net, &read.plan, &faults, steps)?;
    Ok(GradedNetlist {
        net: read.net,
        faults,
        grades,
    })
}
