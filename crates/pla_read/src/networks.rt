//! The two networks of a table.
ghost use Rattle.std.specs.Prelude.{◌≡◌, ◌++◌, ◌<◌, ◌≤◌, length, IfOk, OnOk};
ghost use Rattle.tsc_net.specs.Names.{IsNumbering};
ghost use Rattle.tsc_net.specs.NetlistOf.{netlist_of};
ghost use Rattle.tsc_net.specs.Parts.{no_parts};
ghost use Rattle.pla_read.specs.FreeParts.{frees_named, IsFreeNamed};
ghost use Rattle.pla_read.specs.TableText.{is_one};
ghost use Rattle.pla_read.specs.Networks.{value_named, AnswersAs};
ghost use Rattle.pla_read.specs.Loose.{IsFreeNet};
ghost use Rattle.pla_read.specs.Shaped.{table_as, IsTable};

use crate::beginning::begin;
use crate::nodes::{add_gate_nodes, add_rows_nodes};
use crate::table::{Chosen, Table};
use net_building::{add_fresh_names, built};
use std::alloc::{AllocError, Global};
use table_lines::Names;
use tsc_io::TextKey;
use tsc_net::{Loose, Netlist, Parts};

/// Collects the network of the values.
fn add_values(
    alloc: Global,
    parts: &mut Parts,
    names: &Names,
    table: &Table,
) -> Result<(), AllocError>
    requires empty { parts.old ≡ no_parts }
    requires fit { IsTable table.now }
    requires distinct { IsNumbering (names.now.inputs ++ names.now.outputs) }
    requires inputs { length names.now.inputs ≡ table.now.inputs }
    requires outputs { length names.now.outputs ≡ table.now.outputs }
    ensures values { OnOk result (parts.new.named ≡ value_named names.now.inputs names.now.outputs (table_as table.now)) }
{
    let outs = begin(alloc, parts, names)?;
    add_rows_nodes(alloc, parts, table, Chosen::Ones, outs.as_slice())?;
    Ok(())
}

/// The network of the values.
fn value_net(
    alloc: Global,
    key: TextKey,
    names: &Names,
    table: &Table,
) -> Result<Netlist, AllocError>
    requires fit { IsTable table.now }
    requires distinct { IsNumbering (names.now.inputs ++ names.now.outputs) }
    requires inputs { length names.now.inputs ≡ table.now.inputs }
    requires outputs { length names.now.outputs ≡ table.now.outputs }
    requires some { 1 ≤ table.now.outputs }
    ensures net { IfOk result (λ net. net ≡ netlist_of (value_named names.now.inputs names.now.outputs (table_as table.now))) }
    ensures answers { IfOk result (λ net. AnswersAs (is_one (table_as table.now)) net.circuit) }
{
    let mut parts = Parts::keyed(alloc, key);
    add_values(alloc, &mut parts, names, table)?;
    let net = built(alloc, parts)?;
    // That it is a checked netlist is known from here on.
    let _nets = net.nets();
    Ok(net)
}

/// Collects the network that tells where outputs are free.
fn add_frees(
    alloc: Global,
    parts: &mut Parts,
    names: &Names,
    table: &Table,
) -> Result<(), AllocError>
    requires empty { parts.old ≡ no_parts }
    requires fit { IsTable table.now }
    requires distinct { IsNumbering (names.now.inputs ++ names.now.outputs) }
    requires inputs { length names.now.inputs ≡ table.now.inputs }
    requires outputs { length names.now.outputs ≡ table.now.outputs }
    ensures frees { OnOk result (IsFreeNamed names.now.inputs names.now.outputs (table_as table.now) parts.new.named) }
{
    let outs = begin(alloc, parts, names)?;
    let lefts = add_fresh_names(alloc, parts, table.outputs)?;
    let barred = add_fresh_names(alloc, parts, table.outputs)?;
    add_gate_nodes(
        alloc,
        parts,
        lefts.as_slice(),
        barred.as_slice(),
        outs.as_slice(),
    )?;
    add_rows_nodes(alloc, parts, table, Chosen::Free, lefts.as_slice())?;
    add_rows_nodes(
        alloc,
        parts,
        table,
        Chosen::OnesBesideFree,
        barred.as_slice(),
    )?;
    Ok(())
}

/// The network that tells where outputs are free.
fn free_net(
    alloc: Global,
    key: TextKey,
    names: &Names,
    table: &Table,
) -> Result<Netlist, AllocError>
    requires fit { IsTable table.now }
    requires distinct { IsNumbering (names.now.inputs ++ names.now.outputs) }
    requires inputs { length names.now.inputs ≡ table.now.inputs }
    requires outputs { length names.now.outputs ≡ table.now.outputs }
    requires some { 1 ≤ table.now.outputs }
    ensures net { IfOk result (λ net. net ≡ netlist_of (frees_named names.now.inputs names.now.outputs (table_as table.now))) }
    ensures frees { IfOk result (IsFreeNet names.now.inputs names.now.outputs (table_as table.now)) }
{
    let mut parts = Parts::keyed(alloc, key);
    add_frees(alloc, &mut parts, names, table)?;
    let net = built(alloc, parts)?;
    // That it is a checked netlist is known from here on.
    let _nets = net.nets();
    Ok(net)
}

/// Both networks.
pub fn loose_of(
    alloc: Global,
    key: TextKey,
    names: &Names,
    table: &Table,
) -> Result<Loose, AllocError>
    requires fit { IsTable table.now }
    requires distinct { IsNumbering (names.now.inputs ++ names.now.outputs) }
    requires inputs { length names.now.inputs ≡ table.now.inputs }
    requires outputs { length names.now.outputs ≡ table.now.outputs }
    requires some { 1 ≤ table.now.outputs }
    ensures value { IfOk result (λ loose. loose.value ≡ netlist_of (value_named names.now.inputs names.now.outputs (table_as table.now))) }
    ensures values { IfOk result (λ loose. AnswersAs (is_one (table_as table.now)) loose.value.circuit) }
    ensures free { IfOk result (λ loose. loose.free ≡ netlist_of (frees_named names.now.inputs names.now.outputs (table_as table.now))) }
    ensures frees { IfOk result (λ loose. IsFreeNet names.now.inputs names.now.outputs (table_as table.now) loose.free) }
{
    let value = value_net(alloc, key, names, table)?;
    let free = free_net(alloc, key, names, table)?;
    Ok(Loose { value, free })
}
