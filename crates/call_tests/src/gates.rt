//! Gates, and a netlist of them: each call once.
ghost use Rattle.std.specs.Prelude.{◌≡◌, ◌≤◌, [], ◌∷◌, codes, length, IfOk, OnOk};
ghost use Rattle.tsc_net.specs.Parts.{no_parts, with_name};
ghost use Rattle.gate_net.specs.Gates.{IsLine};

use gate_net::{Gate, Gates, Line, Root, to_net};
use std::alloc::{AllocError, Global};
use std::test::Fail;
use tsc_io::Items;
use tsc_net::{Name, NetId, Netlist, Parts};

/// Whether the And of two lines is one line, and another one where they are exchanged.
fn is_one_line(gates: &mut Gates, a: Line, b: Line) -> Result<bool, AllocError>
    requires few { length gates.old.gates ≤ 100 }
    requires a { IsLine gates.old a }
    requires b { IsLine gates.old b }
{
    let both = gates.add(Gate::And { a, b })?;
    let again = gates.add(Gate::And { a, b })?;
    let exchanged = gates.add(Gate::And { a: b, b: a })?;
    Ok(again == both && gates.gate(exchanged) == (Gate::And { a: b, b: a }))
}

#[test]
fn equal_gates_are_one(rt: HostRuntime) -> Result<(), Fail> {
    let mut gates = Gates::new(rt.alloc(), 2, 0);
    let a = gates.add(Gate::Input { i: 0 })?;
    let b = gates.add(Gate::Input { i: 1 })?;
    assert!(rt; is_one_line(&mut gates, a, b)? && gates.len() == 4);
    Ok(())
}

#[test]
fn new_gates_have_no_line(rt: HostRuntime) -> Result<(), Fail> {
    let gates = Gates::new(rt.alloc(), 3, 2);
    assert!(rt; gates.inputs() == 3 && gates.states() == 2 && gates.is_empty());
    Ok(())
}

/// Adds an And of two inputs.
fn add_both(gates: &mut Gates) -> Result<Line, AllocError>
    requires few { length gates.old.gates ≤ 100 }
    requires inputs { gates.old.inputs ≡ 2 }
    ensures inputs { gates.new.inputs ≡ gates.old.inputs }
    ensures states { gates.new.states ≡ gates.old.states }
    ensures line { IfOk result (IsLine gates.new) }
{
    let a = gates.add(Gate::Input { i: 0 })?;
    let b = gates.add(Gate::Input { i: 1 })?;
    gates.add(Gate::And { a, b })
}

/// Adds the names a, b, y and z.
fn add_names(parts: &mut Parts) -> Result<(), AllocError>
    requires empty { parts.old ≡ no_parts }
    ensures names { OnOk result (parts.new ≡ with_name (with_name (with_name (with_name no_parts (codes "a")) (codes "b")) (codes "y")) (codes "z")) }
{
    parts.name(b"a")?;
    parts.name(b"b")?;
    parts.name(b"y")?;
    parts.name(b"z")?;
    Ok(())
}

/// Makes a and b inputs.
fn add_inputs(parts: &mut Parts) -> Result<(), AllocError>
    requires names { parts.old ≡ with_name (with_name (with_name (with_name no_parts (codes "a")) (codes "b")) (codes "y")) (codes "z") }
    ensures names { OnOk result (parts.new.names ≡ codes "a" ∷ (codes "b" ∷ (codes "y" ∷ (codes "z" ∷ [])))) }
    ensures inputs { OnOk result (parts.new.named.inputs ≡ codes "a" ∷ (codes "b" ∷ [])) }
    ensures latches { OnOk result (parts.new.named.latches ≡ []) }
    ensures nodes { OnOk result (parts.new.named.nodes ≡ []) }
{
    parts.input(Name { number: 0 })?;
    parts.input(Name { number: 1 })
}

/// Makes y and z outputs.
fn add_outputs(parts: &mut Parts) -> Result<(), AllocError>
    requires names { parts.old.names ≡ codes "a" ∷ (codes "b" ∷ (codes "y" ∷ (codes "z" ∷ []))) }
    ensures names { OnOk result (parts.new.names ≡ parts.old.names) }
    ensures inputs { OnOk result (parts.new.named.inputs ≡ parts.old.named.inputs) }
    ensures latches { OnOk result (parts.new.named.latches ≡ parts.old.named.latches) }
    ensures nodes { OnOk result (parts.new.named.nodes ≡ parts.old.named.nodes) }
{
    parts.output(Name { number: 2 })?;
    parts.output(Name { number: 3 })
}

/// Adds the names a, b, y and z to parts that hold nothing: a and b as inputs, y and z as outputs.
fn add_ends(parts: &mut Parts) -> Result<(), AllocError>
    requires empty { parts.old ≡ no_parts }
    ensures names { OnOk result (parts.new.names ≡ codes "a" ∷ (codes "b" ∷ (codes "y" ∷ (codes "z" ∷ [])))) }
    ensures inputs { OnOk result (parts.new.named.inputs ≡ codes "a" ∷ (codes "b" ∷ [])) }
    ensures latches { OnOk result (parts.new.named.latches ≡ []) }
    ensures nodes { OnOk result (parts.new.named.nodes ≡ []) }
{
    add_names(parts)?;
    add_inputs(parts)?;
    add_outputs(parts)
}

/// Writes a line under the names y and z.
fn write_twice(
    alloc: Global,
    gates: &Gates,
    line: Line,
    parts: &mut Parts,
) -> Result<(), AllocError>
    requires inputs { gates.now.inputs ≡ 2 }
    requires states { gates.now.states ≡ 0 }
    requires line { IsLine gates.now line }
    requires names { parts.old.names ≡ codes "a" ∷ (codes "b" ∷ (codes "y" ∷ (codes "z" ∷ []))) }
    requires driven { parts.old.named.inputs ≡ codes "a" ∷ (codes "b" ∷ []) }
    requires latches { parts.old.named.latches ≡ [] }
    requires nodes { parts.old.named.nodes ≡ [] }
{
    if gates.len() > 100 {
        return Err(AllocError);
    }
    let y = Root {
        name: Name { number: 2 },
        line,
    };
    let z = Root {
        name: Name { number: 3 },
        line,
    };
    let roots = Items::from_slice(alloc, &[y, z])?;
    to_net(alloc, gates, &roots, parts)
}

/// The netlist of the inputs a and b, in which y and z are both their And.
fn written_twice(alloc: Global) -> Result<Parts, AllocError> {
    let mut gates = Gates::new(alloc, 2, 0);
    let both = add_both(&mut gates)?;
    let mut parts = Parts::new(alloc);
    add_ends(&mut parts)?;
    write_twice(alloc, &gates, both, &mut parts)?;
    Ok(parts)
}

/// Whether the node at a place reads these nets, and is 1 where all its pins are 1, and 0 where they are 0.
fn is_node(net: &Netlist, place: usize, reads: &[NetId]) -> bool {
    if place >= net.nodes() || net.node_reads(place) != reads {
        return false;
    }
    let cover = net.node_cover(place);
    cover.truth(3) && !cover.truth(0)
}

/// Whether the first root's name is driven by the gate, and the second's by a Buf over it.
fn is_written_once(net: &Netlist) -> bool {
    let (a, b, y) = (
        NetId { number: 0 },
        NetId { number: 1 },
        NetId { number: 2 },
    );
    net.nodes() == 2 && is_node(net, 0, &[a, b]) && is_node(net, 1, &[y])
}

#[test]
fn a_line_of_two_roots_is_written_once(rt: HostRuntime) -> Result<(), Fail> {
    let parts = written_twice(rt.alloc())?;
    let net = parts.build(rt.alloc())?;
    assert!(rt; is_written_once(&net));
    Ok(())
}
