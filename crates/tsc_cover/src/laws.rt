//! The laws on covers, rows and their characters.
ghost use Rattle.std.specs.Prelude.{◌≡◌, ℕ, ◌≤◌, ◌%◌, ◌^◌, Bool, false, List, length, slice_index_or, IsTrue};
ghost use Rattle.tsc_bits.specs.Bits.{bits_of, binary};
ghost use Rattle.tsc_cover.specs.Cover.{Literal, CoverTable, row_matches, truth};
ghost use Rattle.tsc_cover.specs.Terms.{terms_from, all_given};
ghost use Rattle.tsc_cover.specs.Row.{literals_of, IsRow};
ghost use Rattle.tsc_cover.specs.Text.{is_row_text, literals_of_text, text_of_literals};

use crate::rows::Row01;

/// The truth of a cover looks at no bit beyond its pins.
pub fn truth_looks_at_its_pins()
    ensures narrow { (c : CoverTable) (read : ℕ) → truth c (bits_of c.width (read % 2 ^ c.width)) ≡ truth c (bits_of c.width read) }
    ensures binary { (c : CoverTable) (bits : List Bool) → length bits ≡ c.width → truth c (bits_of c.width (binary bits)) ≡ truth c bits }
    ensures terms { (row : List Literal) (bits : List Bool) → length row ≤ length bits → row_matches row bits ≡ all_given (λ pin. slice_index_or bits pin false) (terms_from 0 row) }
{}

/// A row and its characters give each other back, and no two rows have the same literals.
pub fn rows_are_texts()
    ensures shape { (row : List Literal) → IsTrue (is_row_text (text_of_literals row)) }
    ensures read { (row : List Literal) → literals_of_text (text_of_literals row) ≡ row }
    ensures written { (text : List ℕ) → IsTrue (is_row_text text) → text_of_literals (literals_of_text text) ≡ text }
    ensures same { (n : ℕ) (a b : Row01) → IsRow n a → IsRow n b → literals_of n a ≡ literals_of n b → a ≡ b }
{}
