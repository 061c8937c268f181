//! Plans: which nets are monitored, by which code, and which nets are the rails.
ghost use Rattle.std.specs.Prelude.{◌≡◌, ◌<◌};
ghost use Rattle.fault_secure.specs.Exposing.{listed_states};

use crate::ids::{NetId, Nets, PlaceList};
use crate::state_list::StateList;
use fault_secure::Code;
use std::marker::Model;
use tsc_io::Items;

/// A parity group: the places of its outputs, and its check.
#[derive(Debug, Drop)]
pub struct Group {
    /// The places of its outputs among the outputs of the source, from 0.
    pub places: PlaceList,
    /// The net that carries its check bit.
    pub check: NetId,
}

/// A list of groups.
pub type GroupList = Items<Group>;

/// A well-made plan. Its word has the outputs, then the checks, then the nets at the latch inputs.
#[derive(Debug, Drop)]
pub struct Plan {
    /// The version of the code line, 1 or 2.
    pub version: u8,
    /// The code of the monitored word.
    pub code: Code,
    /// The number of the source's outputs, from 1 to 64.
    pub outputs: usize,
    /// All check nets, for parity in the order of the groups.
    pub checks: Nets,
    /// The groups of parity; empty under another code.
    pub groups: GroupList,
    /// How many ones a state word has; 0 without latches.
    pub weight: usize,
    /// The state words; their width is the number of latches.
    pub states: StateList,
    /// The first rail.
    pub rail1: NetId,
    /// The second rail.
    pub rail2: NetId,
}

impl Model for Plan {
    ghost use Rattle.fault_secure.specs.CodePlan.{CodePlan};

    ghost Value = { CodePlan };

    ghost use Rattle.tsc_net.specs.PlanView.{plan_of, KeepsRules};

    ghost view = { plan_of };

    ghost invariant = { KeepsRules };
}

impl Plan {
    /// How many states it lists; without latches there is one.
    pub fn listed_states(&self) -> usize
        ensures states { result ≡ listed_states self.now }
        ensures some { 0 < result }
    {
        if self.states.width() == 0 {
            1
        } else {
            self.states.len()
        }
    }
}
