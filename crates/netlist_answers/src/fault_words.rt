//! A fault in words.
ghost use Rattle.std.specs.Prelude.{◌≡◌, ◌<◌};
ghost use Rattle.buffered_sink.specs.Output.{Prints, output};
ghost use Rattle.fault_secure.specs.Circuit.{nets};
ghost use Rattle.fault_secure.specs.StuckAt.{fault_cell};
ghost use Rattle.tsc_net.specs.Fault.{stuck_at};
ghost use Rattle.netlist_answers.specs.FaultList.{fault_words, held_end, pin_words, stem_words};

use buffered_sink::{Page, Piece, print_all};
use tsc_io::{Sink, WriteFault};
use tsc_net::{Fault, Netlist};

/// Prints a fault in words: `stem NET V` or `pin NET INDEX V`. It takes no memory.
///
/// # Errors
///
/// The sink failed.
pub(crate) fn print_fault<K: Sink>(
    sink: &mut K,
    page: &mut Page,
    net: &Netlist,
    fault: Fault,
) -> Result<(), WriteFault>
    requires known { fault_cell (stuck_at fault) < nets net.now.circuit }
    ensures printed { Prints result (output (K.written sink.old) (K.faults sink.old) page.old) (output (K.written sink.new) (K.faults sink.new) page.new) (fault_words net.now.names (stuck_at fault)) }
{
    match fault {
        Fault::Stem { net: at, value } => print_stem(sink, page, net.name(at), value),
        Fault::Pin {
            driver,
            index,
            value,
        } => print_pin(sink, page, net.name(driver), index, value),
    }
}

/// Prints `stem NET V`.
fn print_stem<K: Sink>(
    sink: &mut K,
    page: &mut Page,
    name: &[u8],
    value: bool,
) -> Result<(), WriteFault>
    ensures printed { Prints result (output (K.written sink.old) (K.faults sink.old) page.old) (output (K.written sink.new) (K.faults sink.new) page.new) (stem_words name.now value) }
{
    let end = held_end(value);
    let words = [Piece::Text(b"stem "), Piece::Text(name), Piece::Text(end)];
    print_all(sink, page, &words)
}

/// Prints `pin NET INDEX V`.
fn print_pin<K: Sink>(
    sink: &mut K,
    page: &mut Page,
    name: &[u8],
    index: usize,
    value: bool,
) -> Result<(), WriteFault>
    ensures printed { Prints result (output (K.written sink.old) (K.faults sink.old) page.old) (output (K.written sink.new) (K.faults sink.new) page.new) (pin_words name.now index value) }
{
    let end = held_end(value);
    let words = [
        Piece::Text(b"pin "),
        Piece::Text(name),
        Piece::Text(b" "),
        Piece::Number(index as u64),
        Piece::Text(end),
    ];
    print_all(sink, page, &words)
}

/// A blank and the held value.
fn held_end(value: bool) -> &'static [u8]
    ensures end { result.now ≡ held_end value }
{
    if value { b" 1" } else { b" 0" }
}
