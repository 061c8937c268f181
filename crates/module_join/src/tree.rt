//! The tree over the pairs of a word, as nodes.
ghost use Rattle.module_join.specs.TreeNodes.{TreeIsDetermined, TreeIsMade, TreeNodesDecide};

/// A law: the gates of a tree over pairs, as nodes at the end of a circuit, are a tree as a joint needs it: wherever they settle, the
/// rails differ exactly where the two nets of each pair do.
pub fn tree_nodes_decide()
    ensures tree { TreeNodesDecide }
{}

/// A law: the gates of the tree over so many pairs, and the places of its rails, are determined.
pub fn tree_is_determined()
    ensures one { TreeIsDetermined }
{}

/// A law: the tree over so many pairs is there, whatever their number.
pub fn tree_is_made()
    ensures made { TreeIsMade }
{}
