//! A simulation: a netlist step by step, with a fault that comes and goes.
ghost use Rattle.std.specs.Prelude.{◌≡◌, ◌-◌, ◌*◌, ◌<◌, ◌≤◌, ◌^◌, ◌↔◌, Bool, false, List, length, All, IfOk, IsErrOf, IsSome};
ghost use Rattle.fault_secure.specs.Circuit.{nets, bit};
ghost use Rattle.fault_secure.specs.StuckAt.{present};
ghost use Rattle.fault_secure.specs.OneRun.{HasOneValuation};
ghost use Rattle.tsc_net.specs.When.{has_step};
ghost use Rattle.tsc_net.specs.Fault.{stuck_at_or_none};
ghost use Rattle.tsc_net.specs.Limits.{most_nets};
ghost use Rattle.fault_sim.specs.PlanNets.{HasPlanNets};
ghost use Rattle.fault_sim.specs.Sim.{answer_of, is_fault, is_none_or_listed, next_fault, SettlesNext, ShowsFirst, IsCall, IsStill, IsOpened};
ghost use Rattle.fault_sim.specs.Outcomes.{AreOutcomes};

use crate::batch::put_outcomes;
use crate::outcome::OutcomeList;
use crate::reading::first_state;
use crate::settling::{fault_at, if_present, is_none_or_listed, settle};
use crate::shown::{Shown, bench_of, read_state, shown_of, view_of};
use crate::sim_error::SimError;
use crate::step_view::StepView;
use lane_sim::{Bench, Points};
use std::alloc::{AllocError, Global};
use std::marker::Model;
use tsc_net::{Bits, Fault, Netlist, Plan, When};

/// A netlist that is run step by step, under no fault or one that is present at some steps. It borrows the netlist and its plan.
/// It can't be dropped: `close` ends it. Contracts see its bench, whose circuit is the netlist without its names, its plan, its
/// fault and the steps at which that is present. They see the number of its next step, from 0 on, the state bits from which that starts,
/// and what the nets at the latch inputs had in the last step.
pub struct Sim<'a> {
    bench: Bench<'a>,
    points: Points,
    shown: Shown<'a>,
    fault: Option<Fault>,
    when: When,
    step: u64,
    state: Bits,
    next: Bits,
}

impl<'a> Model for Sim<'a> {
    ghost use Rattle.fault_sim.specs.Sim.{SimState};

    ghost Value = { SimState };

    ghost use Rattle.fault_sim.specs.SimView.{sim_as, KeepsSim};

    ghost view = { sim_as };

    ghost invariant = { KeepsSim };
}

impl<'a> Sim<'a> {
    /// A simulation of the netlist before its first step: the latches hold their first bits. The fault, if there is one, is
    /// present at the steps of `when`. It takes all the memory that it will ever have.
    ///
    /// # Errors
    ///
    /// `NotListed` exactly where there is a fault that isn't listed; want of memory.
    pub fn open(
        alloc: Global,
        net: &'a Netlist,
        plan: &'a Plan,
        fault: Option<Fault>,
        when: When,
    ) -> Result<Sim<'a>, SimError>
        requires plan { HasPlanNets net.now.circuit plan.now }
        requires nets { nets net.now.circuit ≤ most_nets }
        ensures opened { IfOk result (IsOpened net.now.circuit plan.now (stuck_at_or_none fault) when) }
        ensures not_listed { IsErrOf result SimError.NotListed ↔ (is_none_or_listed net.now.circuit (stuck_at_or_none fault) ≡ false) }
    {
        if !is_none_or_listed(net, fault) {
            return Err(SimError::NotListed);
        }
        opened(alloc, net, plan, fault, when).map_err(SimError::Memory)
    }

    /// Runs one step with these bits of the inputs, and says what it shows; what the nets at the latch inputs had is in `next` then. It
    /// takes no memory. The fault is present where `when` has the number of the step. A fault at a pin of a latch acts on the next state
    /// alone.
    pub fn step(&mut self, input: &Bits) -> StepView
        requires input { length input.now ≡ self.old.bench.circuit.inputs }
        requires steps { self.old.step < 2 ^ 64 - 1 }
        ensures one { HasOneValuation self.old.bench.circuit (next_fault self.old) (bit input.now) (bit self.old.state) }
        ensures call { IsCall self.old input.now (answer_of result self.new) self.new }
        ensures bench { (v : List Bool) → SettlesNext self.old input.now v → ShowsFirst self.new.bench v }
        ensures settled { IsSome self.new.bench.lanes }
    {
        let fault = fault_at(&self.when, self.step, self.fault);
        settle(&mut self.bench, &mut self.points, &self.state, input, fault);
        let view = view_of(&self.bench, &self.shown, 0);
        read_state(
            &self.bench,
            &self.shown,
            fault,
            &mut self.next,
            &mut self.state,
        );
        self.step += 1;
        view
    }

    /// What steps from each of the first `states` states over each of the inputs would show and leave, with the fault present
    /// or absent at all of them: state by state, and for each state input by input. States are numbers here, so there may be at most 64
    /// latches. They are written over what is in the list, and what is more there goes. It takes no step and no memory; 1,024 of them settle
    /// at once.
    pub fn outcomes_into(
        &mut self,
        with_fault: bool,
        states: usize,
        inputs: &[Bits],
        into: &mut OutcomeList,
    )
        requires few { length self.old.bench.circuit.latches ≤ 64 }
        requires inputs { All (λ input. length input ≡ self.old.bench.circuit.inputs) inputs.now }
        requires states { states ≤ 2 ^ length self.old.bench.circuit.latches }
        requires places { states * length inputs.now ≤ length into.old }
        ensures outcomes { AreOutcomes self.old.bench.circuit self.old.plan (present with_fault self.old.fault) states inputs.now into.new }
        ensures still { IsStill self.old self.new }
    {
        // The list's own length bounds the product.
        let _room = into.len();
        into.truncate(states * inputs.len());
        let fault = if_present(with_fault, self.fault);
        put_outcomes(
            &mut self.bench,
            &mut self.points,
            &self.shown,
            fault,
            inputs,
            into,
        );
    }

    /// Whether there is a fault.
    pub fn has_fault(&self) -> bool
        ensures fault { result ≡ is_fault self.now.fault }
    {
        self.fault.is_some()
    }

    /// Whether the steps at which a fault is present have this one.
    pub fn has_step(&self, step: u64) -> bool
        ensures held { result ≡ has_step self.now.when step }
    {
        self.when.has(step)
    }

    /// The bits of the latches from which the next step starts, the first latch first.
    pub fn state(&self) -> &[bool]
        ensures bits { result.now ≡ self.now.state }
        ensures sized { length result.now ≡ length self.now.bench.circuit.latches }
    {
        self.state.as_slice()
    }

    /// What the nets at the latch inputs had in the last step, before the pins of the latches, the first latch first. Before the first step
    /// it isn't told.
    pub fn next(&self) -> &[bool]
        ensures bits { result.now ≡ self.now.next }
        ensures sized { length result.now ≡ length self.now.bench.circuit.latches }
    {
        self.next.as_slice()
    }

    /// The bench that it runs on. After a step it is settled, and has at point 0 of each watched lane what the net had in the
    /// step.
    pub fn bench(&self) -> &Bench<'a>
        ensures bench { result.now ≡ self.now.bench }
    {
        &self.bench
    }

    /// Ends the simulation.
    pub fn close(self) {
        let Sim {
            bench,
            points: _,
            shown: _,
            fault: _,
            when: _,
            step: _,
            state: _,
            next: _,
        } = self;
        bench.close();
    }
}

/// A simulation before its first step. Want of memory is its only refusal.
fn opened<'a>(
    alloc: Global,
    net: &'a Netlist,
    plan: &'a Plan,
    fault: Option<Fault>,
    when: When,
) -> Result<Sim<'a>, AllocError>
    requires plan { HasPlanNets net.now.circuit plan.now }
    requires nets { nets net.now.circuit ≤ most_nets }
    ensures opened { IfOk result (IsOpened net.now.circuit plan.now (stuck_at_or_none fault) when) }
{
    let shown = shown_of(alloc, net, plan)?;
    let points = Points::new(alloc, net)?;
    let state = first_state(alloc, &shown.latches)?;
    let next = first_state(alloc, &shown.latches)?;
    let bench = bench_of(alloc, net, &shown)?;
    Ok(Sim {
        bench,
        points,
        shown,
        fault,
        when,
        step: 0,
        state,
        next,
    })
}
