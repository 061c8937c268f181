//! The netlist of a text, whose faults are listed.
ghost use Rattle.std.specs.Prelude.{◌≡◌, ◌≤◌, None, length, IfOk, IfErr, OnOk};
ghost use Rattle.text_sections.specs.Denoted.{netlist_in};
ghost use Rattle.text_sections.specs.Refused.{IsRefusedBy, text_refusal};
ghost use Rattle.netlist_answers.specs.Answers.{IsFaultList};
ghost use Rattle.netlist_answers.specs.FaultList.{fault_list};

use blif_read::Kind;
use refusals::Refusal;
use std::alloc::Global;
use text_sections::read_any_netlist;
use tsc_io::Bytes;
use tsc_net::Netlist;

/// The netlist that `text` denotes, whose faults are listed.
///
/// # Errors
///
/// The first refusal of the text as a netlist, or want of memory.
pub fn listed_netlist(alloc: Global, text: &Bytes) -> Result<Netlist, Refusal>
    requires short { length text.now ≤ 67108864 }
    ensures net { IfOk result (λ net. net ≡ netlist_in text.now) }
    ensures answers { IfOk result (λ net. IsFaultList text.now (fault_list net)) }
    ensures allowed { OnOk result (text_refusal Kind.AnyPlan text.now ≡ None) }
    ensures refused { IfErr result (IsRefusedBy (text_refusal Kind.AnyPlan text.now)) }
{
    read_any_netlist(alloc, text)
}
