//! The lines before the plan.
ghost use Rattle.std.specs.Prelude.{◌≡◌, OnOk, take};
ghost use Rattle.tsc_net.specs.NetlistOf.{IsBuilt, names_of, named_of};
ghost use Rattle.blif_write.specs.Layout.{model_line, inputs_line, outputs_line, head_lines};
ghost use Rattle.blif_write.specs.Steps.{after_line, after_lines};

use crate::net_names::{push_inputs, push_names};
use crate::words::{end_line, push_word};
use std::alloc::AllocError;
use tsc_io::Bytes;
use tsc_net::Netlist;

/// Adds the lines of the model, the inputs and the outputs.
pub fn push_head(out: &mut Bytes, net: &Netlist) -> Result<(), AllocError>
    requires checked { IsBuilt net.now }
    ensures lines { OnOk result (out.new ≡ after_lines out.old (head_lines (named_of net.now))) }
{
    push_model_line(out, net.model_name())?;
    push_inputs_line(out, net)?;
    push_outputs_line(out, net)
}

/// Adds the line of the model.
fn push_model_line(out: &mut Bytes, name: &[u8]) -> Result<(), AllocError>
    ensures line { OnOk result (out.new ≡ after_line out.old (model_line name.now)) }
{
    out.append(b".model")?;
    push_word(out, name)?;
    end_line(out)
}

/// Adds the line of the inputs.
fn push_inputs_line(out: &mut Bytes, net: &Netlist) -> Result<(), AllocError>
    requires checked { IsBuilt net.now }
    ensures line { OnOk result (out.new ≡ after_line out.old (inputs_line (take net.now.circuit.inputs net.now.names))) }
{
    out.append(b".inputs")?;
    push_inputs(out, net)?;
    end_line(out)
}

/// Adds the line of the outputs, the rails last.
fn push_outputs_line(out: &mut Bytes, net: &Netlist) -> Result<(), AllocError>
    requires checked { IsBuilt net.now }
    ensures line { OnOk result (out.new ≡ after_line out.old (outputs_line (names_of net.now.names net.now.circuit.outputs))) }
{
    out.append(b".outputs")?;
    push_names(out, net, net.outputs())?;
    end_line(out)
}
