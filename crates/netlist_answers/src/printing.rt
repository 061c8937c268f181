//! Printing what a command answers.
ghost use Rattle.std.specs.Prelude.{◌≡◌, [], OnOk, OnErr};
ghost use Rattle.buffered_sink.specs.Output.{Prints, output};
ghost use Rattle.netlist_answers.specs.Devices.{Gains, GainsPrefix, sink_call};
ghost use Rattle.netlist_answers.specs.Printout.{IsPrintable, printout_text};

use crate::fault_list::print_fault_list;
use crate::grade_list::print_grade_list;
use crate::printout::Printout;
use crate::vector_list::print_vector_list;
use buffered_sink::{Page, finish, print};
use joint_text::print_joint;
use tsc_io::{Sink, WriteFault};

/// Writes a printout to `sink` through a page in which nothing waits, nor does afterwards. It takes no memory.
///
/// # Errors
///
/// The sink failed; then it has some first bytes of the printout.
pub fn write_printout<K: Sink>(
    sink: &mut K,
    page: &mut Page,
    printout: &Printout,
) -> Result<(), WriteFault>
    requires empty { page.old ≡ [] }
    requires printable { IsPrintable printout.now }
    ensures gained { OnOk result (Gains (sink_call (K.written sink.old) (K.written sink.new) (K.faults sink.old) (K.faults sink.new)) (printout_text printout.now)) }
    ensures empty { OnOk result (page.new ≡ []) }
    ensures part { OnErr result (GainsPrefix (sink_call (K.written sink.old) (K.written sink.new) (K.faults sink.old) (K.faults sink.new)) (printout_text printout.now)) }
{
    print_printout(sink, page, printout)?;
    finish(sink, page)
}

/// Prints a printout.
fn print_printout<K: Sink>(
    sink: &mut K,
    page: &mut Page,
    printout: &Printout,
) -> Result<(), WriteFault>
    requires printable { IsPrintable printout.now }
    ensures printed { Prints result (output (K.written sink.old) (K.faults sink.old) page.old) (output (K.written sink.new) (K.faults sink.new) page.new) (printout_text printout.now) }
{
    match printout {
        Printout::Whole(reply) => print(sink, page, reply.bytes.as_slice()),
        Printout::FaultList(net) => print_fault_list(sink, page, net),
        Printout::VectorList(tested) => print_vector_list(sink, page, tested),
        Printout::GradeList(graded) => print_grade_list(sink, page, graded),
        Printout::Joint(joint) => print_joint(sink, page, joint),
    }
}
