//! What sound structure gives.
ghost use Rattle.structure_laws.specs.SoundStructure.{SoundIsFaultSecure, SoundShowsErrors};

/// A netlist of sound structure that follows its source without a fault is fault-secure, for every code and every source, with
/// latches, and with the fault present at any set of steps.
pub fn sound_is_fault_secure()
    ensures secure { SoundIsFaultSecure }
{}

/// In a netlist of sound structure whose words without a fault are codewords, the first word that a failing cell makes wrong is no
/// codeword, and the rails agree at that step.
pub fn sound_structure_shows_errors()
    ensures shows { SoundShowsErrors }
{}
