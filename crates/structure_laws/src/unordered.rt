//! Unordered codes.
ghost use Rattle.structure_laws.specs.Unordered.{UnorderedCodes};

/// Two codewords of a Berger or m-out-of-n plan, one of which covers the other, are the same.
pub fn unordered_codes()
    ensures unordered { UnorderedCodes }
{}
