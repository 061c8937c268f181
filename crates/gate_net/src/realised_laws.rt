//! Laws of gates that stand in a netlist.
ghost use Rattle.std.specs.Prelude.{◌≡◌, ℕ, ◌<◌, List, Bool, map, length, All};
ghost use Rattle.fault_secure.specs.Circuit.{Circuit, bit, nets};
ghost use Rattle.fault_secure.specs.StuckAt.StuckAt.{NoFault};
ghost use Rattle.fault_secure.specs.Settle.{Settles};
ghost use Rattle.tsc_net.specs.Named.{Named};
ghost use Rattle.tsc_net.specs.Names.{text_at};
ghost use Rattle.tsc_net.specs.NetlistOf.{NetlistOf, IsBuilt, named_of};
ghost use Rattle.fault_secure.specs.CodePlan.{CodePlan, monitored};
ghost use Rattle.fault_secure.specs.Depends.{Depends, InFunction};
ghost use Rattle.fault_secure.specs.Structure.{IsUnate};
ghost use Rattle.gate_net.specs.declared.line.Line.{Line};
ghost use Rattle.gate_net.specs.Signal.{Signal, value, values};
ghost use Rattle.gate_net.specs.Gates.{GateNetwork, IsHashed, AreLines, meanings};
ghost use Rattle.gate_net.specs.Negations.{NegatesOnlyInputs};
ghost use Rattle.gate_net.specs.Written.{NameRealises, NameIsRoot, IsFree, IsDrivenFrom};
ghost use Rattle.gate_net.specs.Realised.{RealisesBefore, RealisesRoot, AllRealise, NegatesInputs, HasRightSigns};

/// A law: in every valuation that settles without a fault a net that realises a signal has its value, and so has a root's net.
pub fn realised_values()
    ensures nets { (N : Circuit) (hi : ℕ) (x s : ℕ → Bool) (v : List Bool) (signal : Signal) (net : ℕ) → Settles N NoFault x s v → RealisesBefore N hi signal net → bit v net ≡ value x s signal }
    ensures roots { (N : Circuit) (hi : ℕ) (x s : ℕ → Bool) (v : List Bool) (signal : Signal) (net : ℕ) → Settles N NoFault x s v → RealisesRoot N hi signal net → bit v net ≡ value x s signal }
    ensures all { (N : Circuit) (hi : ℕ) (x s : ℕ → Bool) (v : List Bool) (signals : List Signal) (nets : List ℕ) → Settles N NoFault x s v → AllRealise N hi signals nets → map (bit v) nets ≡ values x s signals }
{}

/// A law: each node that a realising net depends on stands before place hi, and so does the function where all monitored
/// nets realise signals.
pub fn realised_cones()
    ensures nets { (N : Circuit) (hi : ℕ) (signal : Signal) (net q : ℕ) → RealisesBefore N hi signal net → Depends N q net → q < hi }
    ensures roots { (N : Circuit) (hi : ℕ) (signal : Signal) (net q : ℕ) → RealisesRoot N hi signal net → Depends N q net → q < hi }
    ensures function { (N : Circuit) (P : CodePlan) (hi : ℕ) (signals : List Signal) (q : ℕ) → AllRealise N hi signals (monitored N P) → InFunction N P q → q < hi }
{}

/// A law: where a signal negates only inputs, each node that a root's net depends on has the right signs. So a plan is
/// unate where its monitored nets all realise such signals. And the lines of gates that negate only inputs mean such signals.
pub fn realised_signs()
    ensures roots { (N : Circuit) (hi : ℕ) (signal : Signal) (net q : ℕ) → NegatesInputs signal → RealisesRoot N hi signal net → Depends N q net → HasRightSigns N q }
    ensures unate { (N : Circuit) (P : CodePlan) (hi : ℕ) (signals : List Signal) → All NegatesInputs signals → AllRealise N hi signals (monitored N P) → IsUnate N P }
    ensures lines { (G : GateNetwork) (lines : List Line) → IsHashed G → NegatesOnlyInputs G → AreLines G lines → All NegatesInputs (meanings G lines) }
{}

/// A law: in a checked netlist the net of a name that realises a signal realises it, and so does the net of a root's name.
pub fn named_nets_realise()
    ensures nets { (net : NetlistOf) (lo : ℕ) (signal : Signal) (n : ℕ) → IsBuilt net → n < nets net.circuit → NameRealises (named_of net) lo signal (text_at net.names n) → RealisesBefore net.circuit (length net.circuit.nodes) signal n }
    ensures roots { (net : NetlistOf) (lo : ℕ) (signal : Signal) (n : ℕ) → IsBuilt net → n < nets net.circuit → NameIsRoot (named_of net) lo signal (text_at net.names n) → RealisesRoot net.circuit (length net.circuit.nodes) signal n }
{}

/// A law: a root's name that is no input, and that no latch gives, is driven by a node from place lo on.
pub fn root_is_driven()
    ensures driven { (N : Named) (lo : ℕ) (signal : Signal) (out : List ℕ) → IsFree N out → NameIsRoot N lo signal out → IsDrivenFrom N lo out }
{}
