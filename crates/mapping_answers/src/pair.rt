//! A netlist, and a mapped one after it.
ghost use Rattle.std.specs.Prelude.{◌≡◌, ◌≤◌, None, length, IfErr, IfOk, OnOk};
ghost use Rattle.text_sections.specs.Denoted.{first_net, netlist_in};
ghost use Rattle.text_sections.specs.Refused.{IsRefusedBy};
ghost use Rattle.mapping_answers.specs.MappedClocks.{lines_have_other_clock, text_has_other_clock};
ghost use Rattle.mapping_answers.specs.MappedSections.{mapped_in, mapped_lines_refusal, mapped_net, mapped_refusal};

use crate::clocks::lines_have_other_clock;
use refusals::Refusal;
use std::alloc::Global;
use text_sections::{behind_first, first_any_netlist, text_lines, unplanned_behind};
use tsc_io::Bytes;
use tsc_net::Netlist;
use tsc_text::Lines;

/// A netlist, and the mapped one after it.
#[derive(Drop)]
pub struct NetlistPair {
    /// The netlist that was mapped.
    pub plain: Netlist,
    /// What it was mapped to.
    pub mapped: Netlist,
    /// Whether some latch of the first and the latch of the second at its place have different clocks.
    pub other_clock: bool,
}

/// The two netlists that `text` denotes: one with its plan lines, and a mapped one, whose plan lines are passed over; and whether some
/// latch of one and the latch of the other at its place have different clocks.
///
/// # Errors
///
/// The first refusal of the text, or want of memory.
pub fn netlist_pair(alloc: Global, text: &Bytes) -> Result<NetlistPair, Refusal>
    requires short { length text.now ≤ 67108864 }
    ensures plain { IfOk result (λ pair. pair.plain ≡ netlist_in text.now) }
    ensures mapped { IfOk result (λ pair. pair.mapped ≡ mapped_in text.now) }
    ensures clocks { IfOk result (λ pair. pair.other_clock ≡ text_has_other_clock text.now) }
    ensures allowed { OnOk result (mapped_refusal text.now ≡ None) }
    ensures refused { IfErr result (IsRefusedBy (mapped_refusal text.now)) }
{
    let lines = text_lines(alloc, text)?;
    pair_of(alloc, &lines)
}

/// The two netlists that the lines denote, and whether clocks of their latches differ.
fn pair_of(alloc: Global, lines: &Lines) -> Result<NetlistPair, Refusal>
    ensures plain { IfOk result (λ pair. pair.plain ≡ first_net lines.now) }
    ensures mapped { IfOk result (λ pair. pair.mapped ≡ mapped_net lines.now) }
    ensures clocks { IfOk result (λ pair. pair.other_clock ≡ lines_have_other_clock lines.now) }
    ensures allowed { OnOk result (mapped_lines_refusal lines.now ≡ None) }
    ensures refused { IfErr result (IsRefusedBy (mapped_lines_refusal lines.now)) }
{
    let read = match first_any_netlist(alloc, lines) {
        Ok(read) => read,
        Err(refusal) => return Err(refusal),
    };
    match unplanned_behind(alloc, lines, behind_first(lines)) {
        Ok(mapped) => Ok(NetlistPair {
            plain: read.net,
            mapped,
            other_clock: lines_have_other_clock(lines),
        }),
        Err(refusal) => Err(refusal),
    }
}
