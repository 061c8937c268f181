//! Writing a netlist with its plan.
ghost use Rattle.std.specs.Prelude.{◌≡◌, IfOk, OnOk};
ghost use Rattle.fault_secure.specs.CodePlan.{IsPlanOf};
ghost use Rattle.blif_write.specs.Layout.{end_line, netlist_text};
ghost use Rattle.blif_write.specs.IsReadAs.{IsReadAs};
ghost use Rattle.blif_write.specs.Steps.{after_line};
ghost use Rattle.blif_write.specs.Writable.{IsWritable};

use crate::head::push_head;
use crate::latches::push_latches;
use crate::nodes::push_nodes;
use crate::plan_lines::push_plan;
use crate::words::end_line;
use std::alloc::{AllocError, Global};
use tsc_io::Bytes;
use tsc_net::{Netlist, Plan};

/// The text of a netlist with its plan, in time linear in its length.
///
/// # Errors
///
/// Want of memory.
pub fn write_blif(alloc: Global, net: &Netlist, plan: &Plan) -> Result<Bytes, AllocError>
    requires of_net { IsPlanOf net.now.circuit plan.now }
    ensures text { IfOk result (λ text. text ≡ netlist_text net.now plan.now) }
    ensures read { IfOk result (λ text. IsWritable net.now → IsReadAs text net.now plan.now) }
{
    // What each netlist keeps is known from here on.
    let _nets = net.nets();
    let mut out = Bytes::new(alloc);
    push_head(&mut out, net)?;
    push_plan(&mut out, net, plan)?;
    push_latches(&mut out, net, &None)?;
    push_nodes(&mut out, net)?;
    push_end_line(&mut out)?;
    Ok(out)
}

/// Adds the last line.
pub fn push_end_line(out: &mut Bytes) -> Result<(), AllocError>
    ensures line { OnOk result (out.new ≡ after_line out.old end_line) }
{
    out.append(b".end")?;
    end_line(out)
}
