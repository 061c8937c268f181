//! Reading the netlist of a section.
ghost use Rattle.std.specs.Prelude.{◌≡◌, ◌^◌, ◌<◌, None, IfOk, IfErr, OnOk};
ghost use Rattle.tsc_net.specs.NetlistOf.{named_of, netlist_of};
ghost use Rattle.tsc_text.specs.TextLine.{word_count};
ghost use Rattle.blif_read.specs.NamedText.{named_text};
ghost use Rattle.blif_read.specs.Refusal.{netlist_refusal, IsRefusedBy};

use crate::error::{BlifError, line_refusal, net_refusal};
use crate::first_fault::line_fault;
use crate::kinds::Kind;
use crate::parts_of::parts_of;
use std::alloc::Global;
use tsc_net::IndexedNetlist;
use tsc_text::SectionLines;

/// The netlist that the lines of a section denote, beside the table of its names.
pub fn read_net(
    alloc: Global,
    section: &SectionLines,
    kind: Kind,
) -> Result<IndexedNetlist, BlifError>
    requires few { word_count section.now < 2 ^ 32 }
    ensures net { IfOk result (λ net. named_of net ≡ named_text section.now) }
    ensures exact { IfOk result (λ net. net ≡ netlist_of (named_text section.now)) }
    ensures sound { OnOk result (netlist_refusal kind section.now ≡ None) }
    ensures refused { IfErr result (IsRefusedBy (netlist_refusal kind section.now)) }
{
    match line_fault(kind, section) {
        Some(fault) => return Err(line_refusal(fault)),
        None => {}
    }
    let parts = parts_of(alloc, section).map_err(BlifError::Memory)?;
    match parts.build_indexed(alloc) {
        Ok(net) => Ok(net),
        Err(error) => Err(net_refusal(error)),
    }
}
