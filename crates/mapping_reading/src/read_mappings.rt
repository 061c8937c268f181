//! What a mapping that is read implies.
ghost use Rattle.mapping_reading.specs.ReadMappingLaws.{EvaluationSettles, MappingGivesCovers, OwnMappingReads, ReadMappingIsMapping, ReadMappingIsSecure};

/// Each netlist reads as itself, each gate being its own block: every netlist meets the definition.
pub fn netlists_read_as_themselves()
    ensures reads { OwnMappingReads }
{}

/// What reads as a mapping, along an evaluation order of the mapped netlist, is one.
pub fn read_mappings_are_mappings()
    ensures mapped { ReadMappingIsMapping }
{}

/// So it keeps secure: against any gates of one block that fail at once, any one failing cell, and each listed stuck-at fault.
pub fn read_mappings_are_secure()
    ensures secure { ReadMappingIsSecure }
{}

/// The gates of a block, evaluated once in the order, settle, and leave all other nets as they are.
pub fn evaluation_settles()
    ensures settles { EvaluationSettles }
{}

/// In a mapping of a netlist without a ring each block gives its cover on every value: one that misses it on some value is in no mapping.
pub fn mappings_give_their_covers()
    ensures gives { MappingGivesCovers }
{}
