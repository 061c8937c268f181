//! The names that the joint shows, and those of the parts' rails.
ghost use Rattle.std.specs.Prelude.{◌≡◌, ◌++◌, [], IfOk, OnOk};
ghost use Rattle.module_join.specs.JointNet.{with_texts};
ghost use Rattle.module_join.specs.JoinParts.{parts_as, planned_as};
ghost use Rattle.module_join.specs.JoinLaws.{ArePlanned, IsShownBy};
ghost use Rattle.joint_text.specs.JointNamed.{labels_of, prefix_of, rail_names, rail_pair, shown_from, shown_names};

use crate::labels::net_text;
use module_join::Part;
use std::alloc::{AllocError, Global};
use tsc_io::{Items, TextKey};
use tsc_net::{NameTable, NameTexts, Plan};

/// The names of the parts' outputs without their rails, each once, in the order in which they were first seen.
///
/// # Errors
///
/// Want of memory.
pub fn names_shown(
    alloc: Global,
    key: TextKey,
    labels: &NameTexts,
    parts: &Items<Part>,
) -> Result<NameTable, AllocError>
    requires planned { ArePlanned (parts_as parts.now) }
    requires labels { labels.now ≡ labels_of (parts_as parts.now) }
    ensures names { IfOk result (λ names. names ≡ shown_from (prefix_of (parts_as parts.now)) 0 [] (parts_as parts.now)) }
{
    let mut names = NameTable::new(alloc, key);
    for place in 0..parts.len() {
        add_shown(
            alloc,
            &mut names,
            labels.get(place).as_slice(),
            parts.get(place),
        )?;
    }
    Ok(names)
}

/// Adds the names of a part's outputs without its rails, each where it isn't there.
fn add_shown(
    alloc: Global,
    names: &mut NameTable,
    label: &[u8],
    part: &Part,
) -> Result<(), AllocError>
    requires planned { IsShownBy part.now.net.circuit part.now.plan }
    ensures added { OnOk result (names.new ≡ with_texts names.old (shown_names label.now (planned_as part.now))) }
{
    // What the netlist keeps is known from here on.
    let _nets = part.net.nets();
    for place in 0..own_outputs(&part.plan) {
        let text = net_text(alloc, label, &part.net, part.net.outputs()[place])?;
        names.add(text.as_slice())?;
    }
    Ok(())
}

/// How many outputs a netlist with this plan has besides its rails.
fn own_outputs(plan: &Plan) -> usize
    ensures count { result ≡ plan.now.outputs }
{
    plan.outputs
}

/// The names of the parts' rails, pair by pair.
///
/// # Errors
///
/// Want of memory.
pub fn names_of_rails(
    alloc: Global,
    labels: &NameTexts,
    parts: &Items<Part>,
) -> Result<NameTexts, AllocError>
    requires planned { ArePlanned (parts_as parts.now) }
    requires labels { labels.now ≡ labels_of (parts_as parts.now) }
    ensures names { IfOk result (λ names. names ≡ rail_names (prefix_of (parts_as parts.now)) 0 (parts_as parts.now)) }
{
    let mut names = NameTexts::new(alloc);
    for place in 0..parts.len() {
        add_rails(
            alloc,
            &mut names,
            labels.get(place).as_slice(),
            parts.get(place),
        )?;
    }
    Ok(names)
}

/// Adds the names of a part's two rails.
fn add_rails(
    alloc: Global,
    names: &mut NameTexts,
    label: &[u8],
    part: &Part,
) -> Result<(), AllocError>
    requires planned { IsShownBy part.now.net.circuit part.now.plan }
    ensures added { OnOk result (names.new ≡ names.old ++ rail_pair label.now (planned_as part.now)) }
{
    names.push(net_text(alloc, label, &part.net, part.plan.rail1)?)?;
    names.push(net_text(alloc, label, &part.net, part.plan.rail2)?)
}
