//! The laws on mapped netlists.
ghost use Rattle.mapped_laws.specs.MappedReplies.{MappedRepliesAreDetermined, MappedTextsAreSecure};
ghost use Rattle.mapped_laws.specs.MappedLaws.{MappedPlansAreSecure, NetlistsAreMappedToThemselves, PlanLinesMayBePassedOver, PlanLinesStayAllowed, PlanRefusalsAreInPlanLines, PlansAreInPlanLines, PlansMoveByName, PutPlanLinesAreAllowed, PutPlanLinesAreSecure, PutPlanLinesMove, SectionsAreBuilt};

/// A law: what a section of a text denotes that nothing refuses is a built netlist, as the other laws ask for.
pub fn sections_are_built()
    ensures built { SectionsAreBuilt }
{}

/// A law: a section that nothing refuses as a netlist with its plan is refused by nothing as a mapped one, whose plan lines are passed over.
pub fn plan_lines_may_be_passed_over()
    ensures allowed { PlanLinesMayBePassedOver }
{}

/// A law: plan lines whose names nothing refuses with a netlist are so with one that has its names.
pub fn plan_lines_stay_allowed()
    ensures allowed { PlanLinesStayAllowed }
{}

/// A law: there they state the plan that they state for the first netlist, moved by names.
pub fn plans_move_by_name()
    ensures moved { PlansMoveByName }
{}

/// A law: so a netlist that another one is mapped to is secure, with the plan that these lines state for it, for whatever that one is
/// secure for against any one cell. It is so against any gates of one block that fail at once, any one cell, and each listed fault.
pub fn mapped_plans_are_secure()
    ensures secure { MappedPlansAreSecure }
{}

/// A law: which plan a section states for a netlist is in the words of its plan lines alone.
pub fn plans_are_in_plan_lines()
    ensures same { PlansAreInPlanLines }
{}

/// A law: and whether nothing refuses their names with it.
pub fn plan_refusals_are_in_plan_lines()
    ensures allowed { PlanRefusalsAreInPlanLines }
{}

/// A law: so nothing refuses the names of the plan lines of a netlist's section where they are put into that of a netlist with its names.
pub fn put_plan_lines_are_allowed()
    ensures allowed { PutPlanLinesAreAllowed }
{}

/// A law: there they state the plan moved by names.
pub fn put_plan_lines_move()
    ensures moved { PutPlanLinesMove }
{}

/// A law: and where that netlist is mapped to the one there, this is secure with the plan that it now states, for whatever that one is
/// secure for against any one cell. It is so against any gates of one block that fail at once, any one cell, and each listed fault.
pub fn put_plan_lines_are_secure()
    ensures secure { PutPlanLinesAreSecure }
{}

/// A law: each netlist is mapped to itself, and the answer is a yes.
pub fn netlists_are_mapped_to_themselves()
    ensures yes { NetlistsAreMappedToThemselves }
{}

/// A law: a text that nothing refuses has at most one answer of `audit mapped`, with one ending, and none where it passes the limit on pins.
pub fn mapped_replies_are_determined()
    ensures one { MappedRepliesAreDetermined }
{}

/// A law: let the second netlist of a text be a mapping of the first, as a yes says, and have its plan lines. Then it is secure with its
/// own plan for whatever the first is secure for with its plan, against any one cell.
pub fn mapped_texts_are_secure()
    ensures secure { MappedTextsAreSecure }
{}
