//! The outputs of a netlist, added to its parts.
ghost use Rattle.std.specs.Prelude.{◌≡◌, map, length, All, IfOk, OnOk};
ghost use Rattle.fault_secure.specs.Circuit.{nets};
ghost use Rattle.tsc_net.specs.PartsView.{texts_of, IsName};
ghost use Rattle.net_writing.specs.Names.{name_at};
ghost use Rattle.net_writing.specs.Outputs.{with_outputs};

use std::alloc::{AllocError, Global};
use tsc_io::Items;
use tsc_net::{Name, NameList, Netlist, Parts};

/// Adds outputs, by their names.
///
/// # Errors
///
/// Want of memory. The parts hold what they held, perhaps followed by some of the outputs.
pub fn add_outputs(parts: &mut Parts, names: &[Name]) -> Result<(), AllocError>
    requires names { All (IsName parts.old.names) names.now }
    ensures added { OnOk result (parts.new ≡ with_outputs parts.old (texts_of parts.old.names names.now)) }
{
    for name in names {
        parts.output(*name)?;
    }
    Ok(())
}

/// The names of a source's outputs, among the names of its nets.
///
/// # Errors
///
/// Want of memory.
pub fn output_names(alloc: Global, source: &Netlist, names: &[Name]) -> Result<NameList, AllocError>
    requires sized { length names.now ≡ nets source.now.circuit }
    ensures names { IfOk result (λ outputs. outputs ≡ map (name_at names.now) source.now.circuit.outputs) }
{
    // What the source keeps is known from here on.
    let _nets = source.nets();
    let mut outputs = Items::new(alloc);
    for net in source.outputs() {
        outputs.push(names[net.number as usize])?;
    }
    Ok(outputs)
}
