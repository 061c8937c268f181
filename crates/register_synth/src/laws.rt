//! Laws of what is kept of a source, of its groups, and of its twins.
ghost use Rattle.std.specs.Prelude.{◌≡◌, [], ◌∷◌, ◌++◌};
ghost use Rattle.register_synth.specs.Kept.{AreKept, kept_part};
ghost use Rattle.register_synth.specs.KeptLaws.{KeptIsPart, OneIsKept, OneGrouping};
ghost use Rattle.register_synth.specs.RegisterGroups.{AreRegisterGroups};
ghost use Rattle.register_synth.specs.TwinNet.{twin_latches, twin_covers, twin_checks, twin_check_nets};
ghost use Rattle.register_synth.specs.TwinLaws.{GroupsApartInPart, TwinsAreMade, MadeTwinsAreSecure};
ghost use Rattle.register_synth.specs.TwinChecker.{TwinsAreChecked};
ghost use Rattle.register_synth.specs.TwinCircuit.{TwinsAreWhole, FewCovers};
ghost use Rattle.register_synth.specs.WorkedTwin.{worked_source, worked_registers, worked_covers, worked_groups, worked_latches, worked_nodes};

/// A law: the registers and covers of a source that some output depends on, through registers, are a part of it. The source is closed, and has
/// no ring.
pub fn kept_is_a_part()
    ensures part { KeptIsPart }
{}

/// A law: no cell of the part that is kept of a source reaches two outputs of one of the source's groups, at whatever steps. The source is
/// closed, and has no ring.
pub fn groups_are_apart()
    ensures apart { GroupsApartInPart }
{}

/// A law: a netlist that begins as the twin of what is kept of a source, over the source's groups, is a twin of this part. It is secure for the
/// source against any one failing cell and each listed fault. The source is closed, neither has a ring, and the netlist's checker must decide.
pub fn made_twins_are_secure()
    ensures twins { TwinsAreMade }
    ensures secure { MadeTwinsAreSecure }
{}

/// A law: with the gates that check its groups after the checks, such a netlist is a twin of the part, without a ring, where the source has at
/// most 64 outputs. Its plan is of it, and it is secure for the source, against any one failing cell and each listed fault.
pub fn twins_are_checked()
    ensures checked { TwinsAreChecked }
{}

/// A law: the twin that is made of a source by the numbers of its nets, with its plan, is closed, and a twin of what is kept of the source, and so
/// secure for it. With all of its registers watched, the rails agree wherever an odd number of them differs from their copies. The source is closed,
/// has no ring and at most 64 outputs. However many outputs there are, the twin has at most twice as many covers as the source, and seven for each
/// output, two for each watched register and five more.
pub fn twins_are_whole()
    ensures whole { TwinsAreWhole }
    ensures few { FewCovers }
{}

/// A law: a circuit has at most one list of kept registers, one of kept covers, and one list of groups.
pub fn one_of_each()
    ensures kept { OneIsKept }
    ensures groups { OneGrouping }
{}

/// A law: the twin of a source of two registers and three covers, worked out. All of it is kept, each of its two outputs is a group of its own,
/// and the twin begins with the registers and nodes that are listed.
pub fn worked_twin()
    ensures kept { AreKept worked_source worked_registers worked_covers }
    ensures part { kept_part worked_source worked_registers worked_covers ≡ worked_source }
    ensures groups { AreRegisterGroups worked_source worked_groups }
    ensures latches { twin_latches worked_source ≡ worked_latches }
    ensures nodes { twin_covers worked_source ++ twin_checks worked_source worked_groups ≡ worked_nodes }
    ensures checks { twin_check_nets worked_source worked_groups ≡ 13 ∷ 14 ∷ [] }
{}
