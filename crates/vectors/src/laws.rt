//! The law of self-testing netlists.
ghost use Rattle.vectors.specs.Vectors.{TestsDecide};

/// A netlist with its plan is self-testing exactly where each of its tests has a point.
pub fn tests_decide_self_testing()
    ensures decide { TestsDecide }
{}
