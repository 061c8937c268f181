//! The lines of nodes.
ghost use Rattle.std.specs.Prelude.{◌≡◌, ◌<◌, OnOk, length};
ghost use Rattle.std.specs.List.{flat_map};
ghost use Rattle.tsc_net.specs.NetlistOf.{IsBuilt, named_of};
ghost use Rattle.blif_write.specs.Layout.{names_line, node_lines};
ghost use Rattle.blif_write.specs.NetLines.{named_node};
ghost use Rattle.blif_write.specs.Steps.{after_line, after_lines};

use crate::net_names::push_names;
use crate::rows::push_cover;
use crate::words::{end_line, push_word};
use std::alloc::AllocError;
use tsc_io::Bytes;
use tsc_net::Netlist;

/// Adds the lines of the nodes.
pub fn push_nodes(out: &mut Bytes, net: &Netlist) -> Result<(), AllocError>
    requires checked { IsBuilt net.now }
    ensures lines { OnOk result (out.new ≡ after_lines out.old (flat_map node_lines (named_of net.now).nodes)) }
{
    for place in 0..net.nodes() {
        push_node(out, net, place)?;
    }
    Ok(())
}

/// Adds the lines of the node at a place.
fn push_node(out: &mut Bytes, net: &Netlist, place: usize) -> Result<(), AllocError>
    requires checked { IsBuilt net.now }
    requires within { place < length net.now.circuit.nodes }
    ensures lines { OnOk result (out.new ≡ after_lines out.old (node_lines (named_node net.now place))) }
{
    push_names_line(out, net, place)?;
    push_cover(out, net.node_cover(place))
}

/// Adds the line of the pins and the net of the node at a place.
fn push_names_line(out: &mut Bytes, net: &Netlist, place: usize) -> Result<(), AllocError>
    requires checked { IsBuilt net.now }
    requires within { place < length net.now.circuit.nodes }
    ensures line { OnOk result (out.new ≡ after_line out.old (names_line (named_node net.now place))) }
{
    out.append(b".names")?;
    push_names(out, net, net.node_reads(place))?;
    push_word(out, net.name(net.node_net(place)))?;
    end_line(out)
}
