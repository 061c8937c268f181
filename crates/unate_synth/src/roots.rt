//! The roots of the gates of a netlist: the names of its word that gates are to drive.
ghost use Rattle.std.specs.Prelude.{◌≡◌, ◌↔◌, ◌⊎◌, ◌≤◌, [], ◌∷◌, ◌++◌, length, All, IfOk, OnOk, IsTrue};
ghost use Rattle.tsc_net.specs.PartsView.{IsName};
ghost use Rattle.gate_net.specs.Gates.{AreLines};
ghost use Rattle.unate_synth.specs.Roots.{IsSourceNumber, AreRoots, AreRooted, AddsRootOrNot, IsTaken, HasNumber};

use gate_net::{NetGates, Root, RootList};
use std::alloc::{AllocError, Global};
use tsc_net::{Name, Parts};

/// Which names of parts are those of sources, which no gate drives: of inputs and of what latches give.
#[derive(Clone, Copy, Debug)]
pub struct SourceNames {
    /// The number of inputs, which have the first names.
    pub inputs: usize,
    /// The number of the name that the first latch gives.
    pub first: usize,
    /// The number of latches, which give names in a row.
    pub latches: usize,
}

/// A root for each name of the word that is no source's, with the line at its place: the first one, where a name stands twice.
///
/// # Errors
///
/// Want of memory.
pub fn roots_of(
    alloc: Global,
    parts: &Parts,
    sources: SourceNames,
    made: &NetGates,
    word: &[Name],
) -> Result<RootList, AllocError>
    requires lines { AreLines made.now.gates made.now.outputs }
    requires covered { length made.now.outputs ≤ length word.now }
    requires names { All (IsName parts.now.names) word.now }
    ensures roots { IfOk result (AreRoots parts.now.names sources made.now.gates) }
    ensures rooted { IfOk result (λ roots. AreRooted sources roots made.now.outputs word.now (length made.now.outputs)) }
    ensures few { IfOk result (λ roots. length roots ≤ length made.now.outputs) }
{
    let mut roots = RootList::new(alloc);
    for (place, line) in made.outputs.as_slice().iter().enumerate() {
        let root = Root {
            name: word[place],
            line: *line,
        };
        add_root(&mut roots, sources, root)?;
    }
    Ok(roots)
}

/// Adds a root, where its name is no source's and no other root's.
fn add_root(roots: &mut RootList, sources: SourceNames, root: Root) -> Result<(), AllocError>
    ensures added { OnOk result (AddsRootOrNot sources roots.old roots.new root) }
    ensures taken { OnOk result (IsTaken sources roots.old root ⊎ (roots.new ≡ roots.old ++ root ∷ [])) }
{
    if is_source(sources, root.name) || has_name(roots.as_slice(), root.name) {
        return Ok(());
    }
    roots.push(root)
}

/// Whether a name is a source's.
fn is_source(sources: SourceNames, name: Name) -> bool
    ensures source { IsTrue result ↔ IsSourceNumber sources name.number }
{
    let number = name.number as usize;
    if number < sources.inputs {
        return true;
    }
    number >= sources.first && number - sources.first < sources.latches
}

/// Whether some root has this name.
fn has_name(roots: &[Root], name: Name) -> bool
    ensures named { IsTrue result ↔ HasNumber roots.now name.number }
{
    for root in roots {
        if root.name.number == name.number {
            return true;
        }
    }
    false
}
