//! A network, and the netlist with its plan after it.
ghost use Rattle.std.specs.Prelude.{◌≡◌, ◌≤◌, None, length, IfErr, IfOk, OnOk};
ghost use Rattle.fault_secure.specs.CodePlan.{IsPlanOf};
ghost use Rattle.commands.specs.declared.source_format.SourceFormat.TheVariants.{Blif};
ghost use Rattle.text_sections.specs.Denoted.{behind_source, first_net, net_from, netlist_in, plan_from, second_netlist_in, second_plan_in};
ghost use Rattle.text_sections.specs.Refused.{IsRefusedBy};
ghost use Rattle.wide_answers.specs.WideSections.{wide_lines_refusal, wide_refusal};

use netlist_answers::netlist_behind;
use refusals::Refusal;
use std::alloc::Global;
use text_sections::{behind_first, first_source, text_lines};
use tsc_io::Bytes;
use tsc_net::{Netlist, Plan};
use tsc_text::Lines;

/// A network, and the netlist with its plan after it.
#[derive(Drop)]
pub struct JudgedNetlist {
    /// The network.
    pub source: Netlist,
    /// The netlist.
    pub net: Netlist,
    /// Its plan.
    pub plan: Plan,
}

/// The network and the netlist with its plan that `text` denotes.
///
/// # Errors
///
/// The first refusal of the text, or want of memory.
pub fn judged_netlist(alloc: Global, text: &Bytes) -> Result<JudgedNetlist, Refusal>
    requires short { length text.now ≤ 67108864 }
    ensures source { IfOk result (λ judged. judged.source ≡ netlist_in text.now) }
    ensures combinational { IfOk result (λ judged. length judged.source.circuit.latches ≡ 0) }
    ensures inputs { IfOk result (λ judged. judged.source.circuit.inputs ≤ 1024) }
    ensures net { IfOk result (λ judged. judged.net ≡ second_netlist_in Blif text.now) }
    ensures plan { IfOk result (λ judged. judged.plan ≡ second_plan_in Blif text.now) }
    ensures of_net { IfOk result (λ judged. IsPlanOf judged.net.circuit judged.plan) }
    ensures allowed { OnOk result (wide_refusal text.now ≡ None) }
    ensures refused { IfErr result (IsRefusedBy (wide_refusal text.now)) }
{
    let lines = text_lines(alloc, text)?;
    judged_lines(alloc, &lines)
}

/// Those that the lines denote.
fn judged_lines(alloc: Global, lines: &Lines) -> Result<JudgedNetlist, Refusal>
    ensures source { IfOk result (λ judged. judged.source ≡ first_net lines.now) }
    ensures combinational { IfOk result (λ judged. length judged.source.circuit.latches ≡ 0) }
    ensures inputs { IfOk result (λ judged. judged.source.circuit.inputs ≤ 1024) }
    ensures net { IfOk result (λ judged. judged.net ≡ net_from lines.now (behind_source Blif lines.now)) }
    ensures plan { IfOk result (λ judged. judged.plan ≡ plan_from lines.now (behind_source Blif lines.now)) }
    ensures of_net { IfOk result (λ judged. IsPlanOf judged.net.circuit judged.plan) }
    ensures allowed { OnOk result (wide_lines_refusal lines.now ≡ None) }
    ensures refused { IfErr result (IsRefusedBy (wide_lines_refusal lines.now)) }
{
    let source = match first_source(alloc, lines) {
        Ok(source) => source,
        Err(refusal) => return Err(refusal),
    };
    match netlist_behind(alloc, lines, behind_first(lines)) {
        Ok(read) => Ok(JudgedNetlist {
            source,
            net: read.net,
            plan: read.plan,
        }),
        Err(refusal) => Err(refusal),
    }
}
