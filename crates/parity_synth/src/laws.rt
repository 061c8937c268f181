//! Laws of the parity netlist.
ghost use Rattle.std.specs.Prelude.{◌≡◌};
ghost use Rattle.tsc_net.specs.NetlistOf.{NetlistOf};
ghost use Rattle.fault_secure.specs.CodePlan.{CodePlan};
ghost use Rattle.parity_synth.specs.CheckedNet.{checked_netlist, checked_plan};
ghost use Rattle.parity_synth.specs.ParityNet.{parity_logic, parity_checks, parity_netlist, parity_plan, IsParityNetlist};

/// A law: a network has one parity netlist, with one plan.
pub fn one_parity_netlist()
    ensures net { (S N K : NetlistOf) (P Q : CodePlan) → IsParityNetlist S N P → IsParityNetlist S K Q → N ≡ K }
    ensures plan { (S N K : NetlistOf) (P Q : CodePlan) → IsParityNetlist S N P → IsParityNetlist S K Q → P ≡ Q }
{}

/// A law: a parity netlist and its plan are of the form that a netlist over one shared copy has too. It has the own covers, logic that
/// foretells the groups, here one predictor for each, and the checker over outputs and checks.
pub fn parity_is_checked()
    ensures net { (S : NetlistOf) → parity_netlist S ≡ checked_netlist S (parity_logic S.circuit) (parity_checks S.circuit) }
    ensures plan { (S : NetlistOf) → parity_plan S.circuit ≡ checked_plan S.circuit (parity_logic S.circuit) (parity_checks S.circuit) }
{}
