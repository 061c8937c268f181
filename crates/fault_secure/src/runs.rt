//! Exactly one valuation, exactly one run.
ghost use Rattle.fault_secure.specs.OneRun.{OneRun, OneValuation};

/// In an acyclic circuit exactly one valuation settles, for each fault, input bits and state bits.
pub fn one_valuation()
    ensures one { OneValuation }
{}

/// In an acyclic circuit there is exactly one run over each list of inputs, with each fault present at any steps.
pub fn one_run()
    ensures one { OneRun }
{}
