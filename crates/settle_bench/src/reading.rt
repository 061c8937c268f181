//! Reading the netlist.
ghost use Rattle.std.specs.Prelude.{◌≡◌, ◌≤◌, length, IfSome};
ghost use Rattle.fault_secure.specs.Circuit.{nets};
ghost use Rattle.tsc_net.specs.Limits.{most_nets};

use blif_read::{BlifText, Kind, read_blif};
use std::alloc::Global;
use tsc_io::Bytes;
use tsc_net::Netlist;
use tsc_text::{End, Lines};

/// The most nets that a bench takes.
const MOST_NETS: usize = 1082368;

/// The netlist that a text begins with, if that has no latches and not more nets than a bench takes.
pub fn netlist_of(alloc: Global, text: &Bytes) -> Option<Netlist>
    requires short { length text.now ≤ 67108864 }
    ensures latches { IfSome result (λ net. length net.circuit.latches ≡ 0) }
    ensures small { IfSome result (λ net. nets net.circuit ≤ most_nets) }
{
    let net = first_netlist(alloc, text)?;
    if net.latches() > 0 || net.nets() > MOST_NETS {
        return None;
    }
    Some(net)
}

/// The netlist that a text begins with, if it begins with one.
fn first_netlist(alloc: Global, text: &Bytes) -> Option<Netlist>
    requires short { length text.now ≤ 67108864 }
{
    let lines = Lines::of(alloc, text).ok()?;
    let section = lines.section(0, End::Blif);
    let BlifText { net, .. } = read_blif(alloc, &lines, section, Kind::Netlist).ok()?;
    Some(net)
}
