//! Laws about texts that are read and written. Their functions do nothing: what they say holds of every text and of every netlist.
ghost use Rattle.std.specs.Prelude.{◌≡◌, ℕ, ◌<◌, ◌≤◌, ◌⊎◌, List, Option, None, All, length};
ghost use Rattle.fault_secure.specs.CodePlan.{CodePlan, IsPlanOf, IsWellMade, concat_places};
ghost use Rattle.tsc_net.specs.NetlistOf.{IsBuilt, NetlistOf, netlist_of};
ghost use Rattle.tsc_text.specs.Bytes.{bad_line};
ghost use Rattle.tsc_text.specs.Lines.{lines_of};
ghost use Rattle.tsc_text.specs.TextLine.{TextLine};
ghost use Rattle.tsc_text.specs.declared.section.Section.{Section};
ghost use Rattle.blif_read.specs.Denotes.{refusal};
ghost use Rattle.tsc_text.specs.Section.{section_lines};
ghost use Rattle.blif_read.specs.Clocks.{clock_text};
ghost use Rattle.blif_read.specs.NamedText.{named_text};
ghost use Rattle.blif_read.specs.declared.clocks.Clock.{Clock};
ghost use Rattle.blif_read.specs.declared.kinds.Kind.{Kind};
ghost use Rattle.blif_write.specs.IsReadAs.{IsReadAs};
ghost use Rattle.blif_write.specs.Layout.{clocked_text, netlist_text, text_with};
ghost use Rattle.blif_write.specs.NetLines.{AreNets};
ghost use Rattle.blif_write.specs.RegisterText.{clock_words, register_plan_lines};
ghost use Rattle.blif_write.specs.Told.{HasWholeRows, IsLimitAlone, IsPlanLine, IsTellable, IsToldClock, Tells, TellsRegisters, told_before_end};
ghost use Rattle.tsc_bits.specs.Lists.{AreApart};
ghost use Rattle.blif_read.specs.declared.kinds.Kind.TheVariants.{Unplanned};
ghost use Rattle.tsc_text.specs.Written.{WrittenLine};
ghost use Rattle.blif_write.specs.Writable.{IsWritable};

/// What is read can be written: where `read_blif` reads a section of a text, the netlist that it gives is writable, if it has at most 64
/// latches; and a text tells it, with its clock, however many it has.
pub fn read_nets_are_writable()
    ensures writable { (text : List ℕ) (lines : List TextLine) (section : Section) (kind : Kind) (net : NetlistOf)
        → length net.circuit.latches ≤ 64
        → bad_line text ≡ None
        → lines ≡ lines_of text
        → refusal kind (section_lines lines section) ≡ None
        → net ≡ netlist_of (named_text (section_lines lines section))
        → IsWritable net }
    ensures tellable { (text : List ℕ) (lines : List TextLine) (section : Section) (kind : Kind) (net : NetlistOf)
        → bad_line text ≡ None
        → lines ≡ lines_of text
        → refusal kind (section_lines lines section) ≡ None
        → net ≡ netlist_of (named_text (section_lines lines section))
        → IsTellable net × IsToldClock (clock_text kind (section_lines lines section)) }
{}

/// What is written can be read: the text of a writable netlist with a well-made plan of it is read as that netlist with that plan, and
/// the reader refuses nothing of it.
pub fn written_netlists_are_read()
    ensures read { (net : NetlistOf) (plan : CodePlan)
        → IsBuilt net
        → IsWritable net
        → IsWellMade plan
        → IsPlanOf net.circuit plan
        → IsReadAs (netlist_text net plan) net plan }
{}

/// What is written is read again as itself, without limits. The text of a netlist whose names are words, of any length, with any
/// plan lines or with none, has only bytes that a text may hold, is one section, and denotes that netlist. What the reader refuses
/// for its limits is another matter.
pub fn written_netlists_are_told()
    ensures told { (net : NetlistOf) (plan : List WrittenLine)
        → IsBuilt net
        → IsTellable net
        → All IsPlanLine plan
        → Tells (text_with net plan) net plan }
{}

/// What the reader refuses of such a text is a limit alone. Where each row has one literal per pin and no net stands twice among the
/// outputs, the lines are refused as a netlist without a plan for a limit that they pass, or not at all.
pub fn limits_alone_are_refused()
    ensures refused { (net : NetlistOf) (plan : List WrittenLine)
        → IsBuilt net
        → IsTellable net
        → All HasWholeRows net.circuit.nodes
        → AreApart net.circuit.outputs
        → All IsPlanLine plan
        → IsLimitAlone (refusal Unplanned (told_before_end net plan)) }
{}

/// A netlist with registers is read again as itself, with its clock. The text of such a netlist with a clock, whose control is a
/// word, or without one, and with any plan lines, has only bytes that a text may hold, is one section, denotes that netlist, and
/// has that clock where it has a register.
pub fn registers_are_told()
    ensures told { (clock : Option Clock) (net : NetlistOf) (plan : List WrittenLine)
        → IsBuilt net
        → IsTellable net
        → IsToldClock clock
        → All IsPlanLine plan
        → TellsRegisters clock (clocked_text (clock_words clock) net plan) net plan }
{}

/// The plan lines of a netlist with registers are plan lines of a text, where the plan has a version that there is, and its groups,
/// its checks and what is watched are of the netlist.
pub fn register_plans_are_told()
    ensures told { (net : NetlistOf) (plan : CodePlan) (watches : List (List ℕ))
        → IsBuilt net
        → IsTellable net
        → (plan.version ≡ 1) ⊎ (plan.version ≡ 2)
        → All (λ place. place < length net.circuit.outputs) (concat_places plan.groups)
        → AreNets net.circuit plan.checks
        → All (AreNets net.circuit) watches
        → All IsPlanLine (register_plan_lines net plan watches) }
{}
