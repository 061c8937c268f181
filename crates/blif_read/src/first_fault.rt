//! The first fault of a section.
ghost use Rattle.std.specs.Prelude.{◌≡◌};
ghost use Rattle.blif_read.specs.FirstFault.{first_fault, line_fault, with_misfit};

use crate::cause::{Cause, LineFault};
use crate::clocks::clock_misfit;
use crate::faults::fault_of;
use crate::kinds::{Kind, kind_of};
use crate::seen::Seen;
use tsc_text::SectionLines;

/// The first fault of the lines of a section. It takes no memory.
#[tactic(auto, using(crate::proofs::Scanned::first_fault_is, crate::proofs::Scanned::fault_later, crate::proofs::Scanned::fault_end))]
fn first_fault(kind: Kind, section: &SectionLines) -> Option<LineFault>
    ensures fault { result ≡ first_fault kind section.now }
{
    let mut seen = Seen::new();
    for place in 0..section.len() {
        let line = section.line(place);
        let line_kind = kind_of(&line);
        if let Some(cause) = fault_of(kind, &seen, line_kind, &line) {
            return Some(LineFault {
                line: line.number(),
                cause,
            });
        }
        seen = seen.behind(kind, line_kind, &line);
    }
    None
}

/// The earlier of a fault and of a line whose clock doesn't fit; on one line the clock comes first.
fn with_misfit(fault: Option<LineFault>, misfit: Option<usize>) -> Option<LineFault>
    ensures fault { result ≡ with_misfit fault misfit }
{
    match (fault, misfit) {
        (fault, None) => fault,
        (Some(fault), Some(line)) if fault.line < line => Some(fault),
        (_, Some(line)) => Some(LineFault {
            line,
            cause: Cause::LatchClock,
        }),
    }
}

/// The first fault of a line: of registers that their clocks don't fit is one too. It takes no memory.
pub fn line_fault(kind: Kind, section: &SectionLines) -> Option<LineFault>
    ensures fault { result ≡ line_fault kind section.now }
{
    let fault = first_fault(kind, section);
    match kind {
        Kind::Registers => with_misfit(fault, clock_misfit(section)),
        Kind::Source | Kind::Netlist | Kind::AnyPlan | Kind::Unplanned => fault,
    }
}
