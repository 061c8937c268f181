//! The lines of latches.
ghost use Rattle.std.specs.Prelude.{◌≡◌, ◌<◌, OnOk, map, length};
ghost use Rattle.tsc_net.specs.NetlistOf.{IsBuilt, named_of};
ghost use Rattle.blif_write.specs.Layout.{clocked_latch_line};
ghost use Rattle.blif_write.specs.NetLines.{named_latch};
ghost use Rattle.blif_write.specs.RegisterText.{clock_words, type_word};
ghost use Rattle.blif_write.specs.Steps.{after_line, after_lines, after_words};

use crate::words::{bit_byte, end_line, push_word};
use blif_read::{Clock, Edge};
use std::alloc::AllocError;
use tsc_io::Bytes;
use tsc_net::Netlist;

/// Adds the lines of the latches, with the clock if there is one.
pub fn push_latches(out: &mut Bytes, net: &Netlist, clock: &Option<Clock>) -> Result<(), AllocError>
    requires checked { IsBuilt net.now }
    ensures lines { OnOk result (out.new ≡ after_lines out.old (map (clocked_latch_line (clock_words clock.now)) (named_of net.now).latches)) }
{
    for place in 0..net.latches() {
        push_latch(out, net, clock, place)?;
    }
    Ok(())
}

/// Adds the line of the latch at a place.
fn push_latch(
    out: &mut Bytes,
    net: &Netlist,
    clock: &Option<Clock>,
    place: usize,
) -> Result<(), AllocError>
    requires checked { IsBuilt net.now }
    requires within { place < length net.now.circuit.latches }
    ensures line { OnOk result (out.new ≡ after_line out.old (clocked_latch_line (clock_words clock.now) (named_latch net.now place))) }
{
    let latch = net.latch(place);
    out.append(b".latch")?;
    push_word(out, net.name(latch.reads))?;
    push_word(out, net.name(latch.out))?;
    push_clock(out, clock)?;
    push_word(out, &[bit_byte(latch.init)])?;
    end_line(out)
}

/// The type of an edge.
fn type_word(edge: Edge) -> &'static [u8]
    ensures word { result.now ≡ type_word edge }
{
    match edge {
        Edge::Rising => b"re",
        Edge::Falling => b"fe",
    }
}

/// Adds the type and the control of a clock, if there is one.
fn push_clock(out: &mut Bytes, clock: &Option<Clock>) -> Result<(), AllocError>
    ensures words { OnOk result (out.new ≡ after_words out.old (clock_words clock.now)) }
{
    match clock {
        None => Ok(()),
        Some(clock) => {
            push_word(out, type_word(clock.edge))?;
            push_word(out, clock.control.as_slice())
        }
    }
}
