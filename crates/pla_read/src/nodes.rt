//! The nodes of the networks, one per output.
ghost use Rattle.std.specs.Prelude.{◌≡◌, ◌<◌, ◌∷◌, [], length, slice_index_or, slice_set, All, IfOk, OnOk};
ghost use Rattle.tsc_cover.specs.Cover.{CoverTable};
ghost use Rattle.tsc_net.specs.Parts.{with_node};
ghost use Rattle.tsc_net.specs.PartsView.{text_of, texts_of, IsName};
ghost use Rattle.pla_read.specs.Spread.{no_rows};
ghost use Rattle.pla_read.specs.FreeParts.{and_not_cover, gate_nodes, rows_nodes, with_nodes};
ghost use Rattle.pla_read.specs.Shaped.{table_as, IsTable};

use crate::spread::CoverList;
use crate::table::{Chosen, Table};
use std::alloc::{AllocError, Global};
use tsc_cover::{Cover, Row01};
use tsc_io::Items;
use tsc_net::{Name, NameList, Parts};

/// The names of the inputs.
fn input_names(alloc: Global, parts: &Parts, count: usize) -> Result<NameList, AllocError>
    requires count { length parts.now.named.inputs ≡ count }
    ensures texts { IfOk result (λ names. texts_of parts.now.names names ≡ parts.now.named.inputs) }
    ensures names { IfOk result (All (IsName parts.now.names)) }
    ensures count { IfOk result (λ names. length names ≡ count) }
{
    let mut names = Items::new(alloc);
    for place in 0..count {
        names.push(parts.input_name(place))?;
    }
    Ok(names)
}

/// Adds the node over all inputs with the cover at a place of a list, which has a cover without pins there then.
fn add_cover_node(
    alloc: Global,
    parts: &mut Parts,
    covers: &mut CoverList,
    place: usize,
    out: Name,
) -> Result<(), AllocError>
    requires place { place < length covers.old }
    requires inputs { (d : CoverTable) → length parts.old.named.inputs ≡ (slice_index_or covers.old place d).width }
    requires out { IsName parts.old.names out }
    ensures added { (d : CoverTable) → OnOk result (parts.new ≡ with_node parts.old parts.old.named.inputs (text_of parts.old.names out) (slice_index_or covers.old place d)) }
    ensures left { OnOk result (covers.new ≡ slice_set covers.old place (no_rows 0)) }
{
    let cover = covers.replace(place, Cover::new(alloc, 0, true));
    let reads = input_names(alloc, parts, cover.width())?;
    parts.node(reads, out, cover)
}

/// Adds one node per output, over all inputs, whose cover has the rows that are chosen for the output.
pub fn add_rows_nodes(
    alloc: Global,
    parts: &mut Parts,
    table: &Table,
    chosen: Chosen,
    outs: &[Name],
) -> Result<(), AllocError>
    requires fit { IsTable table.now }
    requires inputs { length parts.old.named.inputs ≡ table.now.inputs }
    requires outs { All (IsName parts.old.names) outs.now }
    requires count { length outs.now ≡ table.now.outputs }
    ensures added { OnOk result (parts.new ≡ with_nodes parts.old (rows_nodes parts.old.named.inputs (texts_of parts.old.names outs.now) chosen (table_as table.now) table.now.outputs)) }
{
    let mut covers = table.covers(alloc, chosen)?;
    for place in 0..outs.len() {
        add_cover_node(alloc, parts, &mut covers, place, outs[place])?;
    }
    Ok(())
}

/// The cover of two pins that is 1 where the first is and the second isn't.
fn and_not_cover(alloc: Global) -> Result<Cover, AllocError>
    ensures cover { IfOk result (λ cover. cover ≡ and_not_cover) }
{
    Cover::of_rows(alloc, 2, true, &[Row01 { care: 3, value: 2 }])
}

/// Adds the node that is 1 where one name is and another isn't.
fn add_gate_node(
    alloc: Global,
    parts: &mut Parts,
    left: Name,
    barred: Name,
    out: Name,
) -> Result<(), AllocError>
    requires left { IsName parts.old.names left }
    requires barred { IsName parts.old.names barred }
    requires out { IsName parts.old.names out }
    ensures added { OnOk result (parts.new ≡ with_node parts.old (text_of parts.old.names left ∷ text_of parts.old.names barred ∷ []) (text_of parts.old.names out) and_not_cover) }
{
    let cover = and_not_cover(alloc)?;
    let reads = Items::from_slice(alloc, &[left, barred])?;
    parts.node(reads, out, cover)
}

/// Adds one such node per output.
pub fn add_gate_nodes(
    alloc: Global,
    parts: &mut Parts,
    lefts: &[Name],
    barred: &[Name],
    outs: &[Name],
) -> Result<(), AllocError>
    requires lefts { All (IsName parts.old.names) lefts.now }
    requires barred { All (IsName parts.old.names) barred.now }
    requires outs { All (IsName parts.old.names) outs.now }
    requires lefts_count { length lefts.now ≡ length outs.now }
    requires barred_count { length barred.now ≡ length outs.now }
    ensures added { OnOk result (parts.new ≡ with_nodes parts.old (gate_nodes (texts_of parts.old.names outs.now) (texts_of parts.old.names lefts.now) (texts_of parts.old.names barred.now) (length outs.now))) }
{
    for place in 0..outs.len() {
        add_gate_node(alloc, parts, lefts[place], barred[place], outs[place])?;
    }
    Ok(())
}
