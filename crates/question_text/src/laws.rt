//! The law of a small text.
ghost use Rattle.question_text.specs.SmallText.{SmallText};

/// A small text, computed: that of a wire.
pub fn small_text()
    ensures computed { SmallText }
{}
