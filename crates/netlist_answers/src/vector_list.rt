//! The list of test vectors of a netlist.
ghost use Rattle.std.specs.Prelude.{◌≡◌, ◌<◌, ◌≤◌, All, length};
ghost use Rattle.buffered_sink.specs.Output.{Prints, output};
ghost use Rattle.fault_secure.specs.Circuit.{nets};
ghost use Rattle.tsc_net.specs.Fault.{stuck_at};
ghost use Rattle.fault_secure.specs.StuckAt.{fault_cell};
ghost use Rattle.netlist_answers.specs.Printout.{IsTested};
ghost use Rattle.netlist_answers.specs.VectorList.{counts_line, last_lines, point_end, test_end, vector_line, vector_lines, vector_list, verdict_line};

use crate::fault_words::print_fault;
use crate::printout::TestedNetlist;
use buffered_sink::{Page, Piece, print, print_all};
use sim_text::print_bits;
use tsc_io::{Sink, WriteFault};
use tsc_net::{Fault, Faults, Netlist};
use vectors::{Point, Tests};

/// Prints the listed faults of a netlist with their tests, a line each, how many are testable, and whether all are, in time linear in
/// the length of the text. It takes no memory.
///
/// # Errors
///
/// The sink failed.
pub fn print_vector_list<K: Sink>(
    sink: &mut K,
    page: &mut Page,
    tested: &TestedNetlist,
) -> Result<(), WriteFault>
    requires tested { IsTested tested.now }
    ensures printed { Prints result (output (K.written sink.old) (K.faults sink.old) page.old) (output (K.written sink.new) (K.faults sink.new) page.new) (vector_list tested.now.net tested.now.tests) }
{
    print_vectors(sink, page, &tested.net, &tested.faults, &tested.tests)?;
    print_last(sink, page, &tested.tests)
}

/// Prints one line per fault.
fn print_vectors<K: Sink>(
    sink: &mut K,
    page: &mut Page,
    net: &Netlist,
    faults: &Faults,
    tests: &Tests,
) -> Result<(), WriteFault>
    requires known { All (λ fault. fault_cell fault < nets net.now.circuit) faults.now }
    requires few { net.now.circuit.inputs ≤ 64 }
    requires sized { length tests.now ≡ length faults.now }
    ensures printed { Prints result (output (K.written sink.old) (K.faults sink.old) page.old) (output (K.written sink.new) (K.faults sink.new) page.new) (vector_lines net.now faults.now tests.now) }
{
    for place in 0..faults.len() {
        print_vector(sink, page, net, faults.get(place), tests.get(place))?;
    }
    Ok(())
}

/// Prints the line of a fault with its test.
fn print_vector<K: Sink>(
    sink: &mut K,
    page: &mut Page,
    net: &Netlist,
    fault: Fault,
    test: Option<Point>,
) -> Result<(), WriteFault>
    requires known { fault_cell (stuck_at fault) < nets net.now.circuit }
    requires few { net.now.circuit.inputs ≤ 64 }
    ensures printed { Prints result (output (K.written sink.old) (K.faults sink.old) page.old) (output (K.written sink.new) (K.faults sink.new) page.new) (vector_line net.now (stuck_at fault) test) }
{
    print_fault(sink, page, net, fault)?;
    print_test(sink, page, net.inputs(), test)?;
    print(sink, page, b"\n")
}

/// Prints the first exposing point of a fault, or ` untestable`.
fn print_test<K: Sink>(
    sink: &mut K,
    page: &mut Page,
    inputs: usize,
    test: Option<Point>,
) -> Result<(), WriteFault>
    requires few { inputs ≤ 64 }
    ensures printed { Prints result (output (K.written sink.old) (K.faults sink.old) page.old) (output (K.written sink.new) (K.faults sink.new) page.new) (test_end inputs test) }
{
    match test {
        Some(point) => print_point(sink, page, inputs, point),
        None => print(sink, page, b" untestable"),
    }
}

/// Prints ` at STATE INPUT`.
fn print_point<K: Sink>(
    sink: &mut K,
    page: &mut Page,
    inputs: usize,
    point: Point,
) -> Result<(), WriteFault>
    requires few { inputs ≤ 64 }
    ensures printed { Prints result (output (K.written sink.old) (K.faults sink.old) page.old) (output (K.written sink.new) (K.faults sink.new) page.new) (point_end inputs point) }
{
    let state = [Piece::Text(b" at "), Piece::Number(point.state as u64)];
    print_all(sink, page, &state)?;
    print_bits(sink, page, point.input, inputs)
}

/// Prints the two lines at the end.
fn print_last<K: Sink>(sink: &mut K, page: &mut Page, tests: &Tests) -> Result<(), WriteFault>
    ensures printed { Prints result (output (K.written sink.old) (K.faults sink.old) page.old) (output (K.written sink.new) (K.faults sink.new) page.new) (last_lines tests.now) }
{
    let testable = tests.testable();
    let untestable = tests.len() - testable;
    print_counts(sink, page, testable, untestable)?;
    print_verdict(sink, page, untestable)
}

/// Prints `testable T untestable U`.
fn print_counts<K: Sink>(
    sink: &mut K,
    page: &mut Page,
    testable: usize,
    untestable: usize,
) -> Result<(), WriteFault>
    ensures printed { Prints result (output (K.written sink.old) (K.faults sink.old) page.old) (output (K.written sink.new) (K.faults sink.new) page.new) (counts_line testable untestable) }
{
    let line = [
        Piece::Text(b"testable "),
        Piece::Number(testable as u64),
        Piece::Text(b" untestable "),
        Piece::Number(untestable as u64),
        Piece::Text(b"\n"),
    ];
    print_all(sink, page, &line)
}

/// Prints `self-testing yes` where no fault is untestable, else `self-testing no`.
fn print_verdict<K: Sink>(
    sink: &mut K,
    page: &mut Page,
    untestable: usize,
) -> Result<(), WriteFault>
    ensures printed { Prints result (output (K.written sink.old) (K.faults sink.old) page.old) (output (K.written sink.new) (K.faults sink.new) page.new) (verdict_line untestable) }
{
    let line = verdict_line(untestable);
    print(sink, page, line)
}

/// The line of the verdict.
fn verdict_line(untestable: usize) -> &'static [u8]
    ensures line { result.now ≡ verdict_line untestable }
{
    if untestable == 0 {
        b"self-testing yes\n"
    } else {
        b"self-testing no\n"
    }
}
