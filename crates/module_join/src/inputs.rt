//! The names of the inputs of parts, each once.
ghost use Rattle.std.specs.Prelude.{◌≡◌, ◌<◌, IfOk, OnOk};
ghost use Rattle.tsc_net.specs.Names.{text_at};
ghost use Rattle.module_join.specs.JointNet.{input_names, with_texts, joint_inputs as joint_inputs_of};
ghost use Rattle.module_join.specs.JoinParts.{parts_as};

use crate::part::Part;
use std::alloc::{AllocError, Global};
use tsc_io::TextKey;
use tsc_net::{NameTable, NetId, Netlist};

/// The names of the inputs of parts, each once, in the order in which they were first seen: the inputs of the joint. The table is
/// under the key of the text that the names are of.
///
/// # Errors
///
/// Want of memory.
pub fn joint_inputs(alloc: Global, key: TextKey, parts: &[Part]) -> Result<NameTable, AllocError>
    ensures names { IfOk result (λ names. names ≡ joint_inputs_of (parts_as parts.now)) }
{
    let mut names = NameTable::new(alloc, key);
    for part in parts {
        add_inputs(&mut names, &part.net)?;
    }
    Ok(names)
}

/// Adds the names of a netlist's inputs, each where it isn't there.
fn add_inputs(names: &mut NameTable, net: &Netlist) -> Result<(), AllocError>
    ensures added { OnOk result (names.new ≡ with_texts names.old (input_names net.now)) }
{
    // What the netlist keeps is known from here on.
    let _nets = net.nets();
    for input in 0..net.inputs() {
        names.add(input_name(net, input))?;
    }
    Ok(())
}

/// The name of the input at a place.
fn input_name(net: &Netlist, input: usize) -> &[u8]
    requires within { input < net.now.circuit.inputs }
    ensures name { result.now ≡ text_at net.now.names input }
{
    // What the netlist keeps is known from here on.
    let _nets = net.nets();
    net.name(NetId {
        number: input as u32,
    })
}
