//! The beginning of the parts of a network: the model, the inputs and the outputs.
ghost use Rattle.std.specs.Prelude.{◌≡◌, ℕ, ◌+◌, ◌<◌, ◌≤◌, ◌^◌, ◌++◌, ◌∷◌, [], false, length, map, List, None, IfOk, OnOk};
ghost use Rattle.std.specs.List.{range_with_len};
ghost use Rattle.tsc_net.specs.Names.{has_text, IsNumbering};
ghost use Rattle.tsc_net.specs.Parts.{no_parts};
ghost use Rattle.net_building.specs.Names.{numbered};
ghost use Rattle.pla_read.specs.FreeParts.{begun};

use std::alloc::{AllocError, Global};
use table_lines::Names;
use tsc_io::{Bytes, Items};
use tsc_net::{Name, NameList, Parts};

/// Adds an input, whose name is new.
fn add_input(parts: &mut Parts, name: &[u8]) -> Result<(), AllocError>
    requires room { length parts.old.names + 1 < 2 ^ 32 }
    requires early { parts.old.fresh ≡ None }
    ensures added { (inputs : List (List ℕ)) → parts.old ≡ begun inputs [] → has_text inputs name.now ≡ false → OnOk result (parts.new ≡ begun (inputs ++ name.now ∷ []) []) }
{
    let name = parts.name(name)?;
    parts.input(name)
}

/// Adds an output, whose name is new.
fn add_output(parts: &mut Parts, name: &[u8]) -> Result<Name, AllocError>
    requires room { length parts.old.names + 1 < 2 ^ 32 }
    requires early { parts.old.fresh ≡ None }
    ensures added { (inputs outputs : List (List ℕ)) → parts.old ≡ begun inputs outputs → has_text (inputs ++ outputs) name.now ≡ false → OnOk result (parts.new ≡ begun inputs (outputs ++ name.now ∷ [])) }
    ensures number { has_text parts.old.names name.now ≡ false → IfOk result (λ name. name.number ≡ length parts.old.names) }
{
    let name = parts.name(name)?;
    parts.output(name)?;
    Ok(name)
}

/// Adds inputs.
fn add_inputs(parts: &mut Parts, names: &[Bytes]) -> Result<(), AllocError>
    requires begun { parts.old ≡ begun [] [] }
    requires distinct { IsNumbering names.now }
    requires few { length names.now ≤ 64 }
    ensures added { OnOk result (parts.new ≡ begun names.now []) }
{
    for place in 0..names.len() {
        add_input(parts, names[place].as_slice())?;
    }
    Ok(())
}

/// Adds outputs after inputs.
fn add_outputs(
    alloc: Global,
    parts: &mut Parts,
    inputs: &[Bytes],
    names: &[Bytes],
) -> Result<NameList, AllocError>
    requires begun { parts.old ≡ begun inputs.now [] }
    requires distinct { IsNumbering (inputs.now ++ names.now) }
    requires few_inputs { length inputs.now ≤ 64 }
    requires few { length names.now ≤ 64 }
    ensures added { OnOk result (parts.new ≡ begun inputs.now names.now) }
    ensures names { IfOk result (λ outs. outs ≡ map numbered (range_with_len (length inputs.now) (length names.now))) }
{
    let mut outs = Items::new(alloc);
    for place in 0..names.len() {
        let out = add_output(parts, names[place].as_slice())?;
        outs.push(out)?;
    }
    Ok(outs)
}

/// Gives the model its name, and adds the inputs and outputs with these names. It answers the names of the outputs.
pub fn begin(alloc: Global, parts: &mut Parts, names: &Names) -> Result<NameList, AllocError>
    requires empty { parts.old ≡ no_parts }
    requires distinct { IsNumbering (names.now.inputs ++ names.now.outputs) }
    requires few_inputs { length names.now.inputs ≤ 64 }
    requires few_outputs { length names.now.outputs ≤ 64 }
    ensures begun { OnOk result (parts.new ≡ begun names.now.inputs names.now.outputs) }
    ensures names { IfOk result (λ outs. outs ≡ map numbered (range_with_len (length names.now.inputs) (length names.now.outputs))) }
{
    parts.model(b"pla")?;
    add_inputs(parts, names.inputs.as_slice())?;
    add_outputs(
        alloc,
        parts,
        names.inputs.as_slice(),
        names.outputs.as_slice(),
    )
}
