//! The laws of steps, in each lane, and of the faults that a lane may have.
ghost use Rattle.fault_lanes.specs.Batch.{ListedAreAtNets};
ghost use Rattle.fault_lanes.specs.Runs.{StepsAreRuns, StepsAreTheRun};

/// What a lane's nets have, step by step, is a run from the lane's state bits on, under the lane's fault, present at all steps.
pub fn steps_are_runs()
    ensures runs { StepsAreRuns }
{}

/// From the latches' first bits, and in a netlist without a ring, it is the one run.
pub fn steps_are_the_run()
    ensures run { StepsAreTheRun }
{}

/// Each listed fault is at a net of its circuit, so a lane may have it.
pub fn listed_faults_are_at_nets()
    ensures nets { ListedAreAtNets }
{}
