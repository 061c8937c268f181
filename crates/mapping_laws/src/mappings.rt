//! Mappings of netlists: none, one after another, and what stands for a constant.
ghost use Rattle.mapping_laws.specs.MappingLaws.{ConstantHasGate, IsOwnMapping, MappingsJoin};

/// Each netlist is a mapping of itself, each node being its own block: every netlist meets the definition.
pub fn netlists_are_their_own_mappings()
    ensures mapped { IsOwnMapping }
{}

/// A mapping of a mapping is a mapping: the blocks of a block's gates are one block.
pub fn mappings_join()
    ensures mapped { MappingsJoin }
{}

/// In a mapping a node whose cover is constant has a gate of its own.
pub fn constants_have_gates()
    ensures gate { ConstantHasGate }
{}
