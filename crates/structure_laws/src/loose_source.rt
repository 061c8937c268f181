//! Sources with free bits.
ghost use Rattle.structure_laws.specs.LooseSource.{FollowsWithFreeBits, SoundUnderAnyVersion};

/// What follows a network follows each loose source that has its values, whichever of its bits are free, under a plan of any version.
pub fn networks_follow_with_free_bits()
    ensures follows { FollowsWithFreeBits }
{}

/// No condition on the structure of a netlist looks at the version of its plan.
pub fn sound_under_any_version()
    ensures structure { SoundUnderAnyVersion }
{}
