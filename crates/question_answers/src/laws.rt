//! The law on what is answered.
ghost use Rattle.question_answers.specs.Laws.{OneQuestionReply};

/// A law: what is answered to a text is determined by the text: two answers to it are the same bytes, and end in the same way.
pub fn one_question_reply()
    ensures one { OneQuestionReply }
{}
