//! Laws about lines. Their functions do nothing: what they say holds of every text and of every list of lines.
ghost use Rattle.std.specs.Prelude.{◌≡◌, ◌+◌, ◌++◌, ◌∷◌, ℕ, List, None, length, true};
ghost use Rattle.std.specs.List.{list_all};
ghost use Rattle.tsc_text.specs.Joined.{HasNoOpenLine, moved};
ghost use Rattle.tsc_text.specs.Lines.{lines_from, lines_of, physical_lines};
ghost use Rattle.tsc_text.specs.Written.{WrittenLine, can_be_written, numbered, text_of, written};

/// Lines that are written, one per physical line, are read again as those lines, numbered from 1 on.
pub fn written_lines_are_read()
    ensures read { (lines : List WrittenLine)
        → list_all can_be_written lines ≡ true
        → lines_of (text_of lines) ≡ numbered 1 lines }
    ensures followed { (lines : List WrittenLine) (number : ℕ) (rest : List ℕ)
        → list_all can_be_written lines ≡ true
        → lines_from None number (physical_lines (text_of lines ++ rest))
        ≡ numbered number lines ++ lines_from None (number + length lines) (physical_lines rest) }
{}

/// Each line of a text can be written: it has words, and they are words.
pub fn lines_can_be_written()
    ensures written { (text : List ℕ)
        → list_all (λ line. can_be_written (written line)) (lines_of text) ≡ true }
{}

/// The lines of two texts that are parted by LF are those of the first, and those of the second numbered higher, where
/// no line of the first goes on past its end.
pub fn texts_in_a_row()
    ensures lines { (first : List ℕ) (second : List ℕ)
        → HasNoOpenLine first
        → lines_of (first ++ 10 ∷ second)
        ≡ lines_of first ++ moved (length (physical_lines first)) (lines_of second) }
{}
