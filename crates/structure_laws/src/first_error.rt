//! The first wrong word shows.
ghost use Rattle.structure_laws.specs.FirstError.{ParityIsSafe, UnateIsSafe, WrongWordsShow};

/// No failing cell makes a wrong codeword: under a Berger or m-out-of-n code, where the function negates inputs alone; under
/// code Parity, where the cones in each group are disjoint.
pub fn no_wrong_codeword()
    ensures unate { UnateIsSafe }
    ensures parity { ParityIsSafe }
{}

/// Where the checker is code-disjoint, the first word that a failing cell makes wrong is no codeword, and the rails agree at that step.
pub fn first_error_shows()
    ensures shows { WrongWordsShow }
{}
