//! The laws on joints of texts.
ghost use Rattle.joined_laws.specs.AcceptedParts.{AcceptedPartsAreJoined};
ghost use Rattle.joined_laws.specs.JoinedAnswers.{AnswersAreJoined, OneJoint};

/// A law: what `join` answers to a text is determined by the text.
pub fn joints_are_determined()
    ensures one { OneJoint }
{}

/// A law: what syntheses of logic answered, up to 64 answers one after another, is refused by `join` for nothing but the limits of the
/// joint. Whatever it answers to them denotes a joint that is secure for the sources of the syntheses, whichever one cell fails in any way,
/// and whichever one listed fault is present at any steps.
pub fn answers_are_joined()
    ensures joined { AnswersAreJoined }
{}

/// A law: let each netlist of a text be accepted for a source, by `audit`, `audit wide` or `audit exact`, or since a synthesis answered it,
/// also to a source with registers. Then whatever `join` answers to the text denotes a joint that is secure for these sources, whichever
/// one cell fails in any way, and whichever one listed fault is present at any steps. What is accepted is the netlist with its plan, net by
/// net and with the same names; its inputs and outputs are the source's by their places.
pub fn accepted_parts_are_joined()
    ensures joined { AcceptedPartsAreJoined }
{}
