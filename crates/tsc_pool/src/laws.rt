//! The laws on the rows of a pool.
ghost use Rattle.tsc_pool.specs.Laws.{RowsShareNoWord, WordsStandAtTheirPlaces, EntriesAreRowsOut};

/// No place of a pool's block holds a word of two rows.
pub fn rows_share_no_word()
    ensures places { WordsStandAtTheirPlaces }
    ensures apart { RowsShareNoWord }
{}

/// The map of the rows that are out, which contracts speak of, has the words of each of them and nothing else.
pub fn entries_are_rows_out()
    ensures entries { EntriesAreRowsOut }
{}
