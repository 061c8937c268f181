//! The laws on texts of tables.
ghost use Rattle.table_laws.specs.TableLaws.{TablesAnswer, TablesAreBuilt, TablesAreLooseSources};
ghost use Rattle.table_laws.specs.SmallTable.{SmallTableAnswers};

/// A law: where nothing refuses the lines of a table, the network of its values answers at each input which outputs are 1, and the second
/// network which are free, each one list of bits and no other.
pub fn tables_answer()
    ensures answers { TablesAnswer }
{}

/// A law: and both are checked netlists: closed, without a ring, of fewer than 2^32 nets with different names.
pub fn tables_are_built()
    ensures built { TablesAreBuilt }
{}

/// A law: whatever the lines are, the two networks are a source with free bits: neither has a latch, and they have as many inputs and outputs.
pub fn tables_are_loose_sources()
    ensures loose { TablesAreLooseSources }
{}

/// A law: what both networks of a small table answer at the input 11, as it is worked out by hand.
pub fn small_table_answers()
    ensures answers { SmallTableAnswers }
{}
