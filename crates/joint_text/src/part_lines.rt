//! The lines of a part's latches and nodes.
ghost use Rattle.std.specs.Prelude.{◌≡◌, ◌<◌, ◌∷◌, ◌++◌, map, length};
ghost use Rattle.std.specs.List.{flat_map};
ghost use Rattle.std.specs.Option.{option_copied};
ghost use Rattle.buffered_sink.specs.Output.{Prints, output};
ghost use Rattle.fault_secure.specs.Circuit.{nets};
ghost use Rattle.tsc_net.specs.Names.{text_at};
ghost use Rattle.tsc_net.specs.NetlistOf.{named_of, names_of};
ghost use Rattle.tsc_net.specs.PlanView.{net_numbers};
ghost use Rattle.tsc_text.specs.Written.{line_text, text_of};
ghost use Rattle.blif_write.specs.Layout.{clocked_latch_line, names_line, node_lines};
ghost use Rattle.blif_write.specs.NetLines.{AreNets, named_latch, named_node};
ghost use Rattle.blif_write.specs.RegisterText.{clock_words};
ghost use Rattle.blif_write.specs.Steps.{line_end as end_of_line};
ghost use Rattle.joint_text.specs.JointNamed.{names_under, under};
ghost use Rattle.joint_text.specs.LineWords.{latch_end, spaced};

use crate::clocks::{control_text, type_text};
use crate::cover_rows::print_cover;
use crate::labels::label_before;
use crate::words::line_end;
use blif_read::Clock;
use buffered_sink::{Page, Piece, print, print_all};
use tsc_io::{Sink, WriteFault};
use tsc_net::{NetId, Netlist};

/// Prints the lines of the latches of a part with this label, with the words of a clock.
pub fn print_part_latches<K: Sink>(
    sink: &mut K,
    page: &mut Page,
    clock: Option<&Clock>,
    label: &[u8],
    net: &Netlist,
) -> Result<(), WriteFault>
    ensures printed { Prints result (output (K.written sink.old) (K.faults sink.old) page.old) (output (K.written sink.new) (K.faults sink.new) page.new) (text_of (map (clocked_latch_line (clock_words (option_copied clock.entry))) (named_of (under label.now net.now)).latches)) }
{
    for place in 0..net.latches() {
        print_latch(sink, page, clock, label, net, place)?;
    }
    Ok(())
}

/// Prints the line of the latch at a place, with the words of a clock.
fn print_latch<'a, K: Sink>(
    sink: &mut K,
    page: &mut Page,
    clock: Option<&'a Clock>,
    label: &'a [u8],
    net: &'a Netlist,
    place: usize,
) -> Result<(), WriteFault>
    requires within { place < length net.now.circuit.latches }
    ensures printed { Prints result (output (K.written sink.old) (K.faults sink.old) page.old) (output (K.written sink.new) (K.faults sink.new) page.new) (line_text (clocked_latch_line (clock_words (option_copied clock.entry)) (named_latch (under label.now net.now) place))) }
{
    // What the netlist keeps is known from here on.
    let _nets = net.nets();
    let latch = net.latch(place);
    let line = [
        Piece::Text(b".latch "),
        Piece::Text(label_before(label, net, latch.reads)),
        Piece::Text(net.name(latch.reads)),
        Piece::Text(b" "),
        Piece::Text(label_before(label, net, latch.out)),
        Piece::Text(net.name(latch.out)),
        Piece::Text(type_text(clock)),
        Piece::Text(control_text(clock)),
        Piece::Text(latch_end(latch.init)),
    ];
    print_all(sink, page, &line)
}

/// The end of the line of a latch: the bit that it holds first.
fn latch_end(init: bool) -> &'static [u8]
    ensures end { result.now ≡ latch_end init }
{
    if init { b" 1\n" } else { b" 0\n" }
}

/// Prints the lines of the nodes of a part with this label.
pub fn print_part_nodes<K: Sink>(
    sink: &mut K,
    page: &mut Page,
    label: &[u8],
    net: &Netlist,
) -> Result<(), WriteFault>
    ensures printed { Prints result (output (K.written sink.old) (K.faults sink.old) page.old) (output (K.written sink.new) (K.faults sink.new) page.new) (text_of (flat_map node_lines (named_of (under label.now net.now)).nodes)) }
{
    for place in 0..net.nodes() {
        print_node(sink, page, label, net, place)?;
    }
    Ok(())
}

/// Prints the lines of the node at a place.
fn print_node<K: Sink>(
    sink: &mut K,
    page: &mut Page,
    label: &[u8],
    net: &Netlist,
    place: usize,
) -> Result<(), WriteFault>
    requires within { place < length net.now.circuit.nodes }
    ensures printed { Prints result (output (K.written sink.old) (K.faults sink.old) page.old) (output (K.written sink.new) (K.faults sink.new) page.new) (text_of (node_lines (named_node (under label.now net.now) place))) }
{
    print_names_line(sink, page, label, net, place)?;
    print_cover(sink, page, net.node_cover(place))
}

/// Prints the line of the pins and the net of the node at a place.
fn print_names_line<K: Sink>(
    sink: &mut K,
    page: &mut Page,
    label: &[u8],
    net: &Netlist,
    place: usize,
) -> Result<(), WriteFault>
    requires within { place < length net.now.circuit.nodes }
    ensures printed { Prints result (output (K.written sink.old) (K.faults sink.old) page.old) (output (K.written sink.new) (K.faults sink.new) page.new) (line_text (names_line (named_node (under label.now net.now) place))) }
{
    // What the netlist keeps is known from here on.
    let _nets = net.nets();
    print(sink, page, b".names")?;
    print_reads(sink, page, label, net, net.node_reads(place))?;
    print_last(sink, page, label, net, net.node_net(place))
}

/// Prints the names of these nets, a blank before each.
fn print_reads<K: Sink>(
    sink: &mut K,
    page: &mut Page,
    label: &[u8],
    net: &Netlist,
    list: &[NetId],
) -> Result<(), WriteFault>
    requires known { AreNets net.now.circuit (net_numbers list.now) }
    ensures printed { Prints result (output (K.written sink.old) (K.faults sink.old) page.old) (output (K.written sink.new) (K.faults sink.new) page.new) (spaced (names_of (names_under label.now net.now) (net_numbers list.now))) }
{
    for id in list {
        print_read(sink, page, label, net, *id)?;
    }
    Ok(())
}

/// Prints a blank and the name of a net.
fn print_read<'a, K: Sink>(
    sink: &mut K,
    page: &mut Page,
    label: &'a [u8],
    net: &'a Netlist,
    id: NetId,
) -> Result<(), WriteFault>
    requires net { id.number < nets net.now.circuit }
    ensures printed { Prints result (output (K.written sink.old) (K.faults sink.old) page.old) (output (K.written sink.new) (K.faults sink.new) page.new) (32 ∷ text_at (names_under label.now net.now) id.number) }
{
    let word = [
        Piece::Text(b" "),
        Piece::Text(label_before(label, net, id)),
        Piece::Text(net.name(id)),
    ];
    print_all(sink, page, &word)
}

/// Prints a blank, the name of a net, and the end of the line.
fn print_last<'a, K: Sink>(
    sink: &mut K,
    page: &mut Page,
    label: &'a [u8],
    net: &'a Netlist,
    id: NetId,
) -> Result<(), WriteFault>
    requires net { id.number < nets net.now.circuit }
    ensures printed { Prints result (output (K.written sink.old) (K.faults sink.old) page.old) (output (K.written sink.new) (K.faults sink.new) page.new) (32 ∷ (text_at (names_under label.now net.now) id.number ++ end_of_line (text_at (names_under label.now net.now) id.number))) }
{
    let before = label_before(label, net, id);
    let name = net.name(id);
    let word = [
        Piece::Text(b" "),
        Piece::Text(before),
        Piece::Text(name),
        Piece::Text(line_end(before, name)),
    ];
    print_all(sink, page, &word)
}
