//! What a step would show and leave.
ghost use Rattle.std.specs.Prelude.{◌≡◌, length, IfOk};

use crate::step_view::StepView;
use std::alloc::{AllocError, Global};
use tsc_io::Items;

/// What a step of a netlist with few latches shows, and the state that it leaves. The bits of the latches stand as a number, the first
/// latch most significant.
#[derive(Clone, Copy, Debug, PartialEq, Eq)]
pub struct Outcome {
    /// What it shows.
    pub view: StepView,
    /// The nets at the latch inputs, before the pins of the latches.
    pub next: u64,
    /// The state that it leaves.
    pub state: u64,
}

/// Outcomes, in order.
pub type OutcomeList = Items<Outcome>;

/// A list of so many outcomes, for `Sim::outcomes_into` to write over. None of them is a step's.
///
/// # Errors
///
/// Want of memory.
pub fn blank_outcomes(alloc: Global, count: usize) -> Result<OutcomeList, AllocError>
    ensures count { IfOk result (λ list. length list ≡ count) }
{
    let mut list = OutcomeList::with_room(alloc, count)?;
    for _ in 0..count {
        list.push(BLANK)?;
    }
    Ok(list)
}

/// What no step shows and leaves.
const BLANK: Outcome = Outcome {
    view: StepView {
        outputs: 0,
        checks: 0,
        rail1: false,
        rail2: false,
    },
    next: 0,
    state: 0,
};
