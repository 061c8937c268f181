//! The answer of a command to a text.
ghost use Rattle.std.specs.Prelude.{◌≡◌, ◌≤◌, false, None, length, IfOk, IfErr, OnOk};
ghost use Rattle.answers.specs.Commands.{IsReply, refusal_of, StopsAt};
ghost use Rattle.netlist_answers.specs.Printout.{IsPrintable, is_sim, printout_ending, printout_text};

use crate::blif_synthesis::{synth_blif, synth_twin};
use crate::loose_synthesis::synth_pla;
use crate::machine_synthesis::synth_kiss;
use commands::Command;
use exact_answers::audit_exactly;
use joint_answers::joint_in;
use mapping_answers::audit_mapped;
use netlist_answers::{
    Printout, audit_text, finished, graded_netlist, listed_netlist, test_vectors,
};
use proof_answers::audit_proof;
use question_answers::ask_exactly;
use refusals::Refusal;
use std::alloc::Global;
use tsc_io::Bytes;
use wide_answers::audit_widely;

/// What a command prints for a text, or the first refusal of the text. A simulation is printed as it is run, by `print_simulation`.
///
/// # Errors
///
/// The first refusal of the text, a limit of the command, or want of memory.
pub fn answer(alloc: Global, command: Command, text: &Bytes) -> Result<Printout, Refusal>
    requires short { length text.now ≤ 67108864 }
    requires whole { is_sim command ≡ false }
    ensures answers { IfOk result (λ printout. IsReply (printout_ending printout) command text.now (printout_text printout)) }
    ensures printable { IfOk result IsPrintable }
    ensures allowed { OnOk result (refusal_of command text.now ≡ None) }
    ensures stopped { IfErr result (StopsAt command text.now) }
{
    match command {
        Command::SynthBlif(way) => Ok(Printout::Whole(finished(synth_blif(alloc, way, text)?))),
        Command::SynthWatched => Ok(Printout::Whole(finished(synth_twin(alloc, true, text)?))),
        Command::SynthKiss(code) => Ok(Printout::Whole(finished(synth_kiss(alloc, code, text)?))),
        Command::SynthPla(way) => Ok(Printout::Whole(finished(synth_pla(alloc, way, text)?))),
        Command::Audit(format) => Ok(Printout::Whole(audit_text(alloc, format, text)?)),
        Command::AuditWide(rows) => Ok(Printout::Whole(audit_widely(alloc, rows, text)?)),
        Command::AuditExact(format) => Ok(Printout::Whole(audit_exactly(alloc, format, text)?)),
        Command::AuditMapped => Ok(Printout::Whole(audit_mapped(alloc, text)?)),
        Command::AskExact => Ok(Printout::Whole(ask_exactly(alloc, text)?)),
        Command::AuditProof => Ok(Printout::Whole(audit_proof(alloc, text)?)),
        Command::Faults => Ok(Printout::FaultList(listed_netlist(alloc, text)?)),
        Command::Vectors => Ok(Printout::VectorList(test_vectors(alloc, text)?)),
        Command::Grade => Ok(Printout::GradeList(graded_netlist(alloc, text)?)),
        Command::Sim(_) => unreachable!(),
        Command::Join => Ok(Printout::Joint(joint_in(alloc, text)?)),
    }
}
