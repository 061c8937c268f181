//! Sources with free bits that use the freedom of others, or have none.
ghost use Rattle.source_laws.specs.LooseRefinement.{RefinedSourcesAllowLess, UnfreedAreNetworks, VersionOneFreesNothing};

/// A source with free bits that refines another allows less than it under plans of version 2.
pub fn refined_sources_allow_less()
    ensures less { RefinedSourcesAllowLess }
{}

/// Under a plan of a version other than 2 a source with free bits allows exactly what its network of values does.
pub fn version_one_frees_nothing()
    ensures alike { VersionOneFreesNothing }
{}

/// And where its second network frees nothing, it does so under a plan of any version.
pub fn sources_without_free_bits_are_networks()
    ensures alike { UnfreedAreNetworks }
{}
