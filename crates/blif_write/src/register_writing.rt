//! Writing a netlist with registers, with a clock and with what is watched.
ghost use Rattle.std.specs.Prelude.{◌≡◌, IfOk, OnOk};
ghost use Rattle.fault_secure.specs.CodePlan.{IsPlanOf, IsWellMade};
ghost use Rattle.tsc_net.specs.NetlistOf.{IsBuilt, names_of};
ghost use Rattle.tsc_net.specs.PlanView.{net_numbers};
ghost use Rattle.blif_write.specs.NetLines.{AreNets};
ghost use Rattle.blif_write.specs.RegisterText.{lists_of, register_plan_lines, register_text, registers_as_inputs, watch_line, watch_lines};
ghost use Rattle.blif_write.specs.Steps.{after_line, after_lines};
ghost use Rattle.blif_write.specs.Told.{IsTellable, IsToldClock, TellsRegisters};

use crate::head::push_head;
use crate::latches::push_latches;
use crate::net_names::push_names;
use crate::nodes::push_nodes;
use crate::plan_lines::push_code_lines;
use crate::words::{end_line, push_word};
use crate::writer::push_end_line;
use blif_read::Clock;
use std::alloc::{AllocError, Global};
use tsc_io::Bytes;
use tsc_net::{NetId, Netlist, Plan};

/// The text of a netlist with registers and its plan, in time linear in its length. The plan has no state words: it is one of the
/// netlist with its registers as further inputs. `watch` has the watched registers and then the check of the watch; where it is
/// empty nothing is watched, and no line says so. The `#tsc watch` line stands after those of the checks, and each line of a
/// register is `.latch READS OUT INIT`, or `.latch READS OUT TYPE CONTROL INIT` with a clock. Where its names are words, the
/// text denotes this netlist and, where it has a register, this clock; what a reader refuses for its limits is another matter.
///
/// # Errors
///
/// Want of memory.
pub fn write_registers(
    alloc: Global,
    net: &Netlist,
    plan: &Plan,
    watch: &[NetId],
    clock: &Option<Clock>,
) -> Result<Bytes, AllocError>
    requires of_net { IsPlanOf (registers_as_inputs net.now.circuit) plan.now }
    requires watched { AreNets net.now.circuit (net_numbers watch.now) }
    ensures text { IfOk result (λ text. text ≡ register_text clock.now net.now plan.now (lists_of (net_numbers watch.now))) }
    ensures told { IfOk result (λ text. IsTellable net.now → IsToldClock clock.now → TellsRegisters clock.now text net.now (register_plan_lines net.now plan.now (lists_of (net_numbers watch.now)))) }
{
    // What each netlist keeps is known from here on.
    let _nets = net.nets();
    let mut out = Bytes::new(alloc);
    push_head(&mut out, net)?;
    push_register_plan(&mut out, net, plan, watch)?;
    push_latches(&mut out, net, clock)?;
    push_nodes(&mut out, net)?;
    push_end_line(&mut out)?;
    Ok(out)
}

/// Adds the lines of a plan without state words, and those of what is watched.
fn push_register_plan(
    out: &mut Bytes,
    net: &Netlist,
    plan: &Plan,
    watch: &[NetId],
) -> Result<(), AllocError>
    requires checked { IsBuilt net.now }
    requires of_net { IsPlanOf (registers_as_inputs net.now.circuit) plan.now }
    requires watched { AreNets net.now.circuit (net_numbers watch.now) }
    ensures lines { OnOk result (out.new ≡ after_lines out.old (register_plan_lines net.now plan.now (lists_of (net_numbers watch.now)))) }
    ensures well_made { OnOk result (IsWellMade plan.now) }
{
    push_code_lines(out, net, plan)?;
    push_watch(out, net, watch)
}

/// Adds the line of what is watched, if anything is.
fn push_watch(out: &mut Bytes, net: &Netlist, watch: &[NetId]) -> Result<(), AllocError>
    requires known { AreNets net.now.circuit (net_numbers watch.now) }
    ensures lines { OnOk result (out.new ≡ after_lines out.old (watch_lines net.now (lists_of (net_numbers watch.now)))) }
{
    if watch.is_empty() {
        Ok(())
    } else {
        push_watch_line(out, net, watch)
    }
}

/// Adds the line of the watched nets.
fn push_watch_line(out: &mut Bytes, net: &Netlist, watch: &[NetId]) -> Result<(), AllocError>
    requires known { AreNets net.now.circuit (net_numbers watch.now) }
    ensures line { OnOk result (out.new ≡ after_line out.old (watch_line (names_of net.now.names (net_numbers watch.now)))) }
{
    out.append(b"#tsc")?;
    push_word(out, b"watch")?;
    push_names(out, net, watch)?;
    end_line(out)
}
