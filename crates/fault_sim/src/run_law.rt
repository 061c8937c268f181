//! The laws of calls: they answer a run, and outcomes say what they would answer.
ghost use Rattle.fault_sim.specs.Calls.{CallsAnswerRuns, CallsAnswerTheRun};
ghost use Rattle.fault_sim.specs.Outcomes.{OutcomesAreCalls};

/// Calls of `Sim::step` answer, step for step, each run from the step number and the state bits that the `Sim` has.
pub fn calls_answer_runs()
    ensures runs { CallsAnswerRuns }
{}

/// The j-th call of `Sim::step` answers step j of the one run over the inputs given so far.
pub fn calls_answer_the_run()
    ensures run { CallsAnswerTheRun }
{}

/// The outcome of a simulation's next step, with the fault where it is present, is what a call of `Sim::step` answers and leaves.
pub fn outcomes_are_calls()
    ensures calls { OutcomesAreCalls }
{}
