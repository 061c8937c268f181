//! Secure against any one failing cell, and fault-secure as a corollary.
ghost use Rattle.structure_laws.specs.CellSecure.{CellSecureIsFaultSecure, SafeIsCellSecure, SoundIsCellSecure};

/// A netlist of sound structure that follows its source without a fault is secure against any one failing cell, for every code
/// and every source, with latches, whatever bits the cell gives at whatever steps.
pub fn sound_is_cell_secure()
    ensures secure { SoundIsCellSecure }
{}

/// It is enough that no failing cell makes a wrong codeword and that the checker is code-disjoint.
pub fn safe_is_cell_secure()
    ensures secure { SafeIsCellSecure }
{}

/// An acyclic netlist that is secure against any one failing cell is fault-secure.
pub fn cell_secure_is_fault_secure()
    ensures secure { CellSecureIsFaultSecure }
{}
