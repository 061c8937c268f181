//! The netlist of parts that nothing refuses.
ghost use Rattle.std.specs.Prelude.{◌≡◌, IfOk};
ghost use Rattle.tsc_net.specs.NetlistOf.{netlist_of};
ghost use Rattle.net_building.specs.Sound.{IsSound, IsMemory};

use std::alloc::{AllocError, Global};
use tsc_net::{NetError, Netlist, Parts};

/// The netlist that sound parts state.
///
/// # Errors
///
/// Want of memory.
pub fn built(alloc: Global, parts: Parts) -> Result<Netlist, AllocError>
    requires sound { IsSound parts.named }
    ensures exact { IfOk result (λ net. net ≡ netlist_of parts.named) }
{
    match parts.build(alloc) {
        Ok(net) => Ok(net),
        Err(error) => Err(memory_of(error)),
    }
}

/// The want of memory that an error is.
fn memory_of(error: NetError) -> AllocError
    requires memory { IsMemory error }
{
    match error {
        NetError::Memory(error) => error,
        _ => unreachable!(),
    }
}
