//! Parts of netlists that are composed of gates for a word and of a checker over it.
ghost use Rattle.std.specs.Prelude.{◌≡◌, ◌+◌, ◌<◌, ◌≤◌, ◌^◌, ◌++◌, Some, length, All, IfOk, OnOk};
ghost use Rattle.tsc_net.specs.NetlistOf.{netlist_of};
ghost use Rattle.tsc_net.specs.PartsView.{IsName, text_of, texts_of};
ghost use Rattle.gate_net.specs.Gates.{AreLines};
ghost use Rattle.net_writing.specs.CheckerParts.{IsCheckerOver, AreRailNames};
ghost use Rattle.net_writing.specs.Outputs.{with_outputs};
ghost use Rattle.net_building.specs.Sound.{IsSound};
ghost use Rattle.unate_synth.specs.Composed.{with_rails, IsNamedWord, LatchesRead, IsComposedOf};
ghost use Rattle.unate_synth.specs.Composing.{AddsWord};
ghost use Rattle.unate_synth.specs.Roots.{HasSourcesOnly};

use crate::roots::{SourceNames, roots_of};
use code_checkers::CheckGates;
use gate_net::{NetGates, to_net};
use net_writing::{RailNames, add_checker, add_outputs};
use std::alloc::{AllocError, Global};
use tsc_net::{Name, NameList, Parts};

/// Adds to parts that hold only sources: the gates of a word, which is outputs and then checks, after them a checker, and what is
/// shown, the outputs and then the rails. The nets at latch inputs are the last of the checks here.
///
/// # Errors
///
/// Want of memory.
pub fn compose(
    alloc: Global,
    parts: &mut Parts,
    sources: SourceNames,
    made: &NetGates,
    gates: &CheckGates,
    outputs: &[Name],
    checks: &[Name],
    rails: RailNames,
) -> Result<(), AllocError>
    requires begun { HasSourcesOnly sources parts.old made.now.gates }
    requires word { IsNamedWord sources parts.old made.now.gates made.now.outputs (outputs.now ++ checks.now) rails }
    requires latches { LatchesRead parts.old (texts_of parts.old.names (outputs.now ++ checks.now)) }
    requires shown { 0 < length outputs.now }
    requires gates { IsCheckerOver (length (outputs.now ++ checks.now)) gates.now }
    requires room { length parts.old.names + length made.now.gates.gates + length gates.now.gates < 2 ^ 32 }
    ensures sound { OnOk result (IsSound parts.new.named) }
    ensures net { OnOk result (IsComposedOf parts.old made.now.gates made.now.outputs gates.now (texts_of parts.old.names outputs.now) (texts_of parts.old.names checks.now) (text_of parts.old.names rails.first) (text_of parts.old.names rails.second) (netlist_of parts.new.named)) }
{
    let word = word_names(alloc, outputs, checks)?;
    let word = word.as_slice();
    add_word(alloc, parts, sources, made, word)?;
    add_checker(alloc, parts, word, gates, Some(rails))?;
    add_shown(parts, outputs, rails)
}

/// The names of a word: those of its outputs, and then those of its checks.
fn word_names(alloc: Global, outputs: &[Name], checks: &[Name]) -> Result<NameList, AllocError>
    ensures word { IfOk result (λ word. word ≡ outputs.now ++ checks.now) }
{
    let mut word = NameList::from_slice(alloc, outputs)?;
    word.append(checks)?;
    Ok(word)
}

/// Adds the gates of a word, each place of which has the value of its line.
fn add_word(
    alloc: Global,
    parts: &mut Parts,
    sources: SourceNames,
    made: &NetGates,
    word: &[Name],
) -> Result<(), AllocError>
    requires begun { HasSourcesOnly sources parts.old made.now.gates }
    requires lines { AreLines made.now.gates made.now.outputs }
    requires sized { length made.now.outputs ≡ length word.now }
    requires names { All (IsName parts.old.names) word.now }
    requires room { length parts.old.names + length made.now.gates.gates < 2 ^ 32 }
    ensures adds { OnOk result (AddsWord sources parts.old parts.new made.now.gates made.now.outputs word.now) }
    ensures few { OnOk result (length parts.new.names ≤ length parts.old.names + length made.now.gates.gates) }
{
    let roots = roots_of(alloc, parts, sources, made, word)?;
    to_net(alloc, &made.gates, &roots, parts)
}

/// Adds the outputs that are shown, and after them the rails.
fn add_shown(parts: &mut Parts, outputs: &[Name], rails: RailNames) -> Result<(), AllocError>
    requires outputs { All (IsName parts.old.names) outputs.now }
    requires rails { AreRailNames parts.old.names (Some rails) }
    ensures shown { OnOk result (parts.new ≡ with_outputs parts.old (texts_of parts.old.names (with_rails outputs.now rails))) }
{
    add_outputs(parts, outputs)?;
    add_outputs(parts, &[rails.first, rails.second])
}
