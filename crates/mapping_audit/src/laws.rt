//! The laws on answers.
ghost use Rattle.mapping_audit.specs.MappedAnswer.{OneAnswer};

/// A law: of two netlists there is at most one answer, so that the place of each reason is determined.
pub fn mapped_answer_is_determined()
    ensures one { OneAnswer }
{}
