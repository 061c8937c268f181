//! The fault list of a netlist.
ghost use Rattle.std.specs.Prelude.{length};
ghost use Rattle.std.specs.List.{flat_map};
ghost use Rattle.buffered_sink.specs.Output.{Prints, output};
ghost use Rattle.fault_secure.specs.Listed.{listed_faults};
ghost use Rattle.netlist_answers.specs.FaultList.{driver_lines, fault_line, fault_list, pin_lines, pins_lines, stem_lines, total_line};

use buffered_sink::{Page, Piece, print_all};
use tsc_io::{Sink, WriteFault};
use tsc_net::{NetId, Netlist, fault_count, pins_of};

/// Prints the listed faults of a netlist, a line each, and their number, in time linear in the length of the text. It takes no memory.
///
/// # Errors
///
/// The sink failed.
pub fn print_fault_list<K: Sink>(
    sink: &mut K,
    page: &mut Page,
    net: &Netlist,
) -> Result<(), WriteFault>
    ensures printed { Prints result (output (K.written sink.old) (K.faults sink.old) page.old) (output (K.written sink.new) (K.faults sink.new) page.new) (fault_list net.now) }
{
    print_faults(sink, page, net)?;
    print_total(sink, page, net)
}

/// Prints one line per fault.
fn print_faults<K: Sink>(sink: &mut K, page: &mut Page, net: &Netlist) -> Result<(), WriteFault>
    ensures printed { Prints result (output (K.written sink.old) (K.faults sink.old) page.old) (output (K.written sink.new) (K.faults sink.new) page.new) (flat_map (fault_line net.now.names) (listed_faults net.now.circuit)) }
{
    for at in net.inputs()..net.nets() {
        let name = net.name(NetId { number: at as u32 });
        print_driver(sink, page, name, pins_of(net, at))?;
    }
    Ok(())
}

/// Prints the lines of the faults of a latch or node that drives a net with this name and has so many pins.
fn print_driver<K: Sink>(
    sink: &mut K,
    page: &mut Page,
    name: &[u8],
    pins: usize,
) -> Result<(), WriteFault>
    ensures printed { Prints result (output (K.written sink.old) (K.faults sink.old) page.old) (output (K.written sink.new) (K.faults sink.new) page.new) (driver_lines name.now pins) }
{
    print_stem_lines(sink, page, name)?;
    print_pins(sink, page, name, pins)
}

/// Prints the lines of both faults of a stem.
fn print_stem_lines<K: Sink>(sink: &mut K, page: &mut Page, name: &[u8]) -> Result<(), WriteFault>
    ensures printed { Prints result (output (K.written sink.old) (K.faults sink.old) page.old) (output (K.written sink.new) (K.faults sink.new) page.new) (stem_lines name.now) }
{
    let line = [
        Piece::Text(b"stem "),
        Piece::Text(name),
        Piece::Text(b" 0\nstem "),
        Piece::Text(name),
        Piece::Text(b" 1\n"),
    ];
    print_all(sink, page, &line)
}

/// Prints the lines of the faults of pins, pin by pin.
fn print_pins<K: Sink>(
    sink: &mut K,
    page: &mut Page,
    name: &[u8],
    pins: usize,
) -> Result<(), WriteFault>
    ensures printed { Prints result (output (K.written sink.old) (K.faults sink.old) page.old) (output (K.written sink.new) (K.faults sink.new) page.new) (pins_lines name.now 0 pins) }
{
    for index in 0..pins {
        print_pin_lines(sink, page, name, index)?;
    }
    Ok(())
}

/// Prints the lines of both faults of a pin.
fn print_pin_lines<K: Sink>(
    sink: &mut K,
    page: &mut Page,
    name: &[u8],
    index: usize,
) -> Result<(), WriteFault>
    ensures printed { Prints result (output (K.written sink.old) (K.faults sink.old) page.old) (output (K.written sink.new) (K.faults sink.new) page.new) (pin_lines name.now index) }
{
    let line = [
        Piece::Text(b"pin "),
        Piece::Text(name),
        Piece::Text(b" "),
        Piece::Number(index as u64),
        Piece::Text(b" 0\npin "),
        Piece::Text(name),
        Piece::Text(b" "),
        Piece::Number(index as u64),
        Piece::Text(b" 1\n"),
    ];
    print_all(sink, page, &line)
}

/// Prints `total COUNT`.
fn print_total<K: Sink>(sink: &mut K, page: &mut Page, net: &Netlist) -> Result<(), WriteFault>
    ensures printed { Prints result (output (K.written sink.old) (K.faults sink.old) page.old) (output (K.written sink.new) (K.faults sink.new) page.new) (total_line (length (listed_faults net.now.circuit))) }
{
    let line = [
        Piece::Text(b"total "),
        Piece::Number(fault_count(net) as u64),
        Piece::Text(b"\n"),
    ];
    print_all(sink, page, &line)
}
