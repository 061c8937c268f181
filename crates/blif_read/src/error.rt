//! Why a text is refused.
ghost use Rattle.std.specs.Prelude.{◌≡◌};
ghost use Rattle.blif_read.specs.Refusal.{line_refusal, net_refusal};

use crate::cause::{Cause, LineFault};
use std::alloc::AllocError;
use thiserror::Error;
use tsc_net::NetError;
use tsc_text::Which;

/// Why a section is refused. A line goes by the number of its first physical line, from 1.
#[derive(Debug, Drop, Error)]
pub enum BlifError {
    /// A directive that isn't read, or a second `.model`.
    #[error("line {line}: unsupported")]
    Unsupported { line: usize },
    /// A wrong number of words, or no type of a latch.
    #[error("line {line}: word count")]
    WordCount { line: usize },
    /// A row where no cover is open.
    #[error("line {line}: row outside a cover")]
    RowOutside { line: usize },
    /// No row of its cover.
    #[error("line {line}: row shape")]
    RowShape { line: usize },
    /// A row whose output isn't that of the cover's first row.
    #[error("line {line}: mixed rows")]
    Mixed { line: usize },
    /// A latch in a source.
    #[error("line {line}: latch in a source")]
    LatchInSource { line: usize },
    /// Registers that don't have one clock, or whose clock is read or driven: then the line is that of the first latch.
    #[error("line {line}: latch clock")]
    LatchClock { line: usize },
    /// The bit that a latch holds first is missing or unknown.
    #[error("line {line}: latch init")]
    LatchInit { line: usize },
    /// A plan line out of its place or with wrong words, or, with the code line's number, a plan that breaks a rule.
    #[error("line {line}: plan shape")]
    PlanShape { line: usize },
    /// A name, or a count of the section, first passes its limit here.
    #[error("line {line}: limit")]
    Limit { line: usize, which: Which },
    /// The parts are no netlist. It never holds want of memory.
    #[error("{0}")]
    Net(NetError),
    /// A netlist without plan lines.
    #[error("no plan")]
    NoPlan,
    /// A plan line names what is no net.
    #[error("line {line}: plan name")]
    PlanName { line: usize },
    /// Memory was missing.
    #[error("out of memory")]
    Memory(AllocError),
}

/// The refusal of a line.
pub fn line_refusal(fault: LineFault) -> BlifError
    ensures refusal { result ≡ line_refusal fault }
{
    let line = fault.line;
    match fault.cause {
        Cause::Unsupported => BlifError::Unsupported { line },
        Cause::WordCount => BlifError::WordCount { line },
        Cause::RowOutside => BlifError::RowOutside { line },
        Cause::RowShape => BlifError::RowShape { line },
        Cause::Mixed => BlifError::Mixed { line },
        Cause::LatchInSource => BlifError::LatchInSource { line },
        Cause::LatchClock => BlifError::LatchClock { line },
        Cause::LatchInit => BlifError::LatchInit { line },
        Cause::PlanShape => BlifError::PlanShape { line },
        Cause::Limit(which) => BlifError::Limit { line, which },
    }
}

/// The refusal of parts that are no netlist.
pub fn net_refusal(error: NetError) -> BlifError
    ensures refusal { result ≡ net_refusal error }
{
    match error {
        NetError::Memory(error) => BlifError::Memory(error),
        error => BlifError::Net(error),
    }
}
