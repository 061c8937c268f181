//! The laws on what is answered.
ghost use Rattle.proof_answers.specs.Laws.{IsLookedAtWhereAsked, OneProofReply};

/// A law: what is answered to a text is determined by the text: two answers to it are the same bytes, and end in the same way.
pub fn one_proof_reply()
    ensures one { OneProofReply }
{}

/// A law: a fault of the refutation refuses a text only where the netlist fits the question of its network.
pub fn looked_at_where_asked()
    ensures exact { IsLookedAtWhereAsked }
{}
