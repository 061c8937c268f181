//! What a command prints, worked out before the first byte is written.
ghost use Rattle.std.specs.Prelude.{◌≡◌};
ghost use Rattle.netlist_answers.specs.Printout.{printout_ending};

use crate::reply::Reply;
use fault_grades::GradeList;
use joint_text::Joint;
use refusals::Ending;
use tsc_net::{Faults, Netlist};
use vectors::Tests;

/// What a command prints. All memory for it was had, so that its text can go out as it is made.
#[derive(Drop)]
pub enum Printout {
    /// A text that stands whole in memory.
    Whole(Reply),
    /// The fault list of a netlist.
    FaultList(Netlist),
    /// The list of the test vectors of a netlist.
    VectorList(TestedNetlist),
    /// The list of the grades of a netlist's faults.
    GradeList(GradedNetlist),
    /// The joint of netlists.
    Joint(Joint),
}

/// A netlist, its listed faults, and their tests.
#[derive(Drop)]
pub struct TestedNetlist {
    /// The netlist.
    pub net: Netlist,
    /// Its listed faults.
    pub faults: Faults,
    /// The tests of the faults, in the same order.
    pub tests: Tests,
}

/// A netlist, its listed faults, and their grades.
#[derive(Drop)]
pub struct GradedNetlist {
    /// The netlist.
    pub net: Netlist,
    /// Its listed faults.
    pub faults: Faults,
    /// The grades of the faults, in the same order.
    pub grades: GradeList,
}

impl Printout {
    /// How the command ends.
    pub fn ending(&self) -> Ending
        ensures ending { result ≡ printout_ending self.now }
    {
        match self {
            Printout::Whole(reply) => reply.ending,
            Printout::FaultList(_) | Printout::VectorList(_) => Ending::Finished,
            Printout::GradeList(_) | Printout::Joint(_) => Ending::Finished,
        }
    }
}
