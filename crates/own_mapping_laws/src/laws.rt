//! The laws on answers as their own mappings, and on mappings of answers.
ghost use Rattle.own_mapping_laws.specs.MappedTwins.{MappedTwinsAreSecure};
ghost use Rattle.own_mapping_laws.specs.OwnMappings.{AnswersAreTheirOwnMappings, LooseAnswersAreTheirOwnMappings, MachineAnswersAreTheirOwnMappings};

/// A law: what a synthesis answers to a network, twice in a row, is a mapping of itself: `audit mapped` refuses nothing, passes no limit,
/// and answers `yes` and never `no`.
pub fn answers_are_their_own_mappings()
    ensures yes { AnswersAreTheirOwnMappings }
{}

/// A law: so is what a synthesis answers to a machine.
pub fn machine_answers_are_their_own_mappings()
    ensures yes { MachineAnswersAreTheirOwnMappings }
{}

/// A law: and what it answers to a network with free bits.
pub fn loose_answers_are_their_own_mappings()
    ensures yes { LooseAnswersAreTheirOwnMappings }
{}

/// A law: let a text begin with what a synthesis of two copies answered to a source with registers, and the netlist after it be a mapping of that, as a
/// yes of `audit mapped` says. Then this one is secure for the source.
pub fn mapped_twins_are_secure()
    ensures secure { MappedTwinsAreSecure }
{}
