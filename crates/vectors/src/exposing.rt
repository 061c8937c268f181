//! The faults that a bench is tried with.
ghost use Rattle.std.specs.Prelude.{◌≡◌, ◌+◌, nat_lt, length};
ghost use Rattle.tsc_net.specs.Fault.{stuck_at};
ghost use Rattle.vectors.specs.Trial.{exposing_fault};

use tsc_net::{Fault, NetId, Netlist};

/// The fault under which a netlist settles from the bits of a state, so that it is exposed where this one is: that of a latch's pin
/// is the stem of the latch's net.
pub(crate) fn exposing_fault(net: &Netlist, fault: Fault) -> Fault
    ensures fault { stuck_at result ≡ exposing_fault net.now.circuit (stuck_at fault) }
{
    match fault {
        Fault::Pin {
            driver,
            index: _,
            value,
        } => {
            if is_latch_side(net, driver) {
                Fault::Stem { net: driver, value }
            } else {
                fault
            }
        }
        Fault::Stem { net: _, value: _ } => fault,
    }
}

/// Whether no node drives the net.
fn is_latch_side(net: &Netlist, driver: NetId) -> bool
    ensures below { result ≡ nat_lt driver.number (net.now.circuit.inputs + length net.now.circuit.latches) }
{
    (driver.number as usize) < net.inputs() + net.latches()
}
