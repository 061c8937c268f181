//! Some more fresh names.
ghost use Rattle.std.specs.Prelude.{◌≡◌, ◌+◌, ◌<◌, ◌^◌, map, take, length, IfOk, OnOk};
ghost use Rattle.std.specs.Fn.{iterate};
ghost use Rattle.std.specs.List.{range_with_len};
ghost use Rattle.tsc_net.specs.Names.{IsNumbering};
ghost use Rattle.tsc_net.specs.Parts.{with_fresh};
ghost use Rattle.net_building.specs.Names.{numbered};

use std::alloc::{AllocError, Global};
use tsc_io::Items;
use tsc_net::{NameList, Parts};

/// The next fresh names, so many of them.
///
/// # Errors
///
/// Want of memory. The parts hold what they held, perhaps followed by some of the names.
pub fn add_fresh_names(
    alloc: Global,
    parts: &mut Parts,
    count: usize,
) -> Result<NameList, AllocError>
    requires room { length parts.old.names + count < 2 ^ 32 }
    ensures added { OnOk result (parts.new ≡ iterate with_fresh count parts.old) }
    ensures numbers { IfOk result (λ names. names ≡ map numbered (range_with_len (length parts.old.names) count)) }
    ensures counted { OnOk result (length parts.new.names ≡ length parts.old.names + count) }
    ensures named { OnOk result (parts.new.named ≡ parts.old.named) }
    ensures first { OnOk result (take (length parts.old.names) parts.new.names ≡ parts.old.names) }
    ensures distinct { OnOk result (IsNumbering parts.old.names → IsNumbering parts.new.names) }
{
    let mut names = Items::new(alloc);
    for place in 0..count {
        let name = parts.fresh()?;
        names.push(name)?;
    }
    Ok(names)
}
