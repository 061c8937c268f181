//! What mapping cover by cover keeps.
ghost use Rattle.mapping_laws.specs.MappingLaws.{BlockSecureIsCellSecure, MappedIsBlockSecure, MappedIsCellSecure, MappedIsFaultSecure};

/// What is secure against any one failing cell, mapped cover by cover without a ring, is secure against any gates of one
/// block that fail at once, whatever bits they give at whatever steps, and against any failing latch.
pub fn mapped_is_block_secure()
    ensures secure { MappedIsBlockSecure }
{}

/// What is secure against any failing gates of one block, and has no ring, is secure against any one failing gate.
pub fn block_secure_is_cell_secure()
    ensures secure { BlockSecureIsCellSecure }
{}

/// So is a netlist that was mapped from one that is secure against any one failing cell.
pub fn mapped_is_cell_secure()
    ensures secure { MappedIsCellSecure }
{}

/// And it is fault-secure: against each listed stuck-at fault of its own.
pub fn mapped_is_fault_secure()
    ensures secure { MappedIsFaultSecure }
{}
