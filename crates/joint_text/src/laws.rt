//! Laws on the text of a joint. Their functions do nothing: what they say holds of all parts.
ghost use Rattle.joint_text.specs.JointTextLaws.{JointIsNamed, JointTextIsCellSecure, JointTextIsFaultSecure, JointTextIsFaultSecureForSources, JointTextIsSecureForSources, JointTextTells};

/// A law: by names the joint netlist is, part by part, what the parts are, each net, except the inputs, after the part's label, and then the
/// tree over the names of their rails.
pub fn joints_are_named()
    ensures named { JointIsNamed }
{}

/// A law: the text of the joint of 1 to 64 netlists, each one that a text tells with a plan that shows it, has only bytes that a text may
/// hold, is one section, denotes the joint netlist, and has the clock of the parts where there is a latch. What the reader refuses for its
/// limits is another matter.
pub fn joint_texts_are_told()
    ensures told { JointTextTells }
{}

/// A law: where each part is secure against any one failing cell for its source, so is what the text of the joint denotes, for these
/// sources.
pub fn joint_texts_are_cell_secure()
    ensures secure { JointTextIsCellSecure }
{}

/// A law: where each part is fault-secure for its source, so is what the text of the joint denotes, for these sources.
pub fn joint_texts_are_fault_secure()
    ensures secure { JointTextIsFaultSecure }
{}

/// A law: where each part is alarm-secure for its source, logic or a circuit with registers, against any one failing cell, so is what the
/// text of the joint denotes, for all these sources.
pub fn joint_texts_are_secure_for_sources()
    ensures secure { JointTextIsSecureForSources }
{}

/// A law: where each part is so against each listed fault, so is what the text of the joint denotes, for all these sources.
pub fn joint_texts_are_fault_secure_for_sources()
    ensures secure { JointTextIsFaultSecureForSources }
{}
