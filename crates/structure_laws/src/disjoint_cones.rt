//! Failing nodes outside the function or the checker, rails that follow the word, groups with disjoint cones.
ghost use Rattle.structure_laws.specs.DisjointCones.{CodeDisjointByWords, OneChangeInGroup, OutsideCheckerSettles, OutsideFunctionKeepsWord, ParityErrorShows, RailsFollowWord};

/// A failing node outside the function leaves the monitored word unchanged.
pub fn nodes_outside_the_function()
    ensures kept { OutsideFunctionKeepsWord }
{}

/// A failing node that is not of the checker lets the checker settle as without a fault.
pub fn nodes_outside_the_checker()
    ensures settles { OutsideCheckerSettles }
{}

/// Where the checker settles in two valuations with the same monitored word, the rails are the same.
pub fn rails_follow_the_word()
    ensures same { RailsFollowWord }
{}

/// A failing node changes at most one place of each group with disjoint cones.
pub fn one_change_in_a_group()
    ensures one { OneChangeInGroup }
{}

/// Under code Parity a failing cell keeps a codeword, or makes it no codeword and the rails agree.
pub fn parity_errors_show()
    ensures shows { ParityErrorShows }
{}

/// A checker is code-disjoint where for each word one valuation in which it settles has rails that decide the word.
pub fn checkers_are_decided_by_words()
    ensures disjoint { CodeDisjointByWords }
{}
