//! What a failing node can reach.
ghost use Rattle.structure_laws.specs.Cone.{OutsideConeUnchanged};

/// Two valuations that settle at every net except one node's, with the same input and state bits, agree at every net that
/// doesn't depend on the node.
pub fn outside_the_cone()
    ensures unchanged { OutsideConeUnchanged }
{}
