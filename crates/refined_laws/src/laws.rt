//! The law on answers to tables that refine others.
ghost use Rattle.refined_laws.specs.RefinedAnswers.{RefinedAnswersAreSecure};

/// A law: where the table of a PLA text refines that of another one, whatever a synthesis answers to the first text is secure for the
/// source of the second, however many inputs they have. It is so whichever one cell fails, and whichever one listed fault is present at
/// any steps.
pub fn refined_answers_are_secure()
    ensures secure { RefinedAnswersAreSecure }
{}
