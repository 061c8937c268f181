//! Which outputs of a netlist are rails.
ghost use Rattle.std.specs.Prelude.{◌≡◌, ◌+◌, length};
ghost use Rattle.net_writing.specs.Rails.{EndsInRails};

use tsc_net::{NetId, Netlist};

/// The last two outputs of a netlist, its rails, after so many others.
pub fn rails_of(net: &Netlist, outputs: usize) -> (NetId, NetId)
    requires sized { length net.now.circuit.outputs ≡ outputs + 2 }
    ensures rails { EndsInRails net.now.circuit.outputs outputs result.0.number result.1.number }
{
    let all = net.outputs();
    (all[outputs], all[outputs + 1])
}
