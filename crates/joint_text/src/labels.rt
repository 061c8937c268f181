//! The labels of parts, and the names of their nets after them.
ghost use Rattle.std.specs.Prelude.{◌≡◌, ◌<◌, ◌++◌, map, IfOk};
ghost use Rattle.std.specs.List.{range_with_len};
ghost use Rattle.fault_secure.specs.Circuit.{nets};
ghost use Rattle.tsc_net.specs.Names.{text_at};
ghost use Rattle.joint_text.specs.JointNamed.{names_under, part_label};

use module_join::own_text;
use std::alloc::{AllocError, Global};
use tsc_io::Bytes;
use tsc_net::{NameTexts, NetId, Netlist};

/// The labels of so many parts: the prefix, the number of the part, and `_`.
///
/// # Errors
///
/// Want of memory.
pub fn labels_of(alloc: Global, prefix: &[u8], count: usize) -> Result<NameTexts, AllocError>
    ensures labels { IfOk result (λ labels. labels ≡ map (part_label prefix.now) (range_with_len 0 count)) }
{
    let mut labels = NameTexts::new(alloc);
    for part in 0..count {
        labels.push(label_of(alloc, prefix, part)?)?;
    }
    Ok(labels)
}

/// The label of the part with this number.
fn label_of(alloc: Global, prefix: &[u8], part: usize) -> Result<Bytes, AllocError>
    ensures label { IfOk result (λ label. label ≡ part_label prefix.now part) }
{
    own_text(alloc, prefix, part, b"")
}

/// What stands before the name of a net: nothing at an input, else the label.
pub fn label_before<'a>(label: &'a [u8], net: &Netlist, id: NetId) -> &'a [u8]
    requires net { id.number < nets net.now.circuit }
    ensures name { result.now ++ text_at net.now.names id.number ≡ text_at (names_under label.now net.now) id.number }
{
    // What the netlist keeps is known from here on.
    let _nets = net.nets();
    if (id.number as usize) < net.inputs() {
        b""
    } else {
        label
    }
}

/// The name of a net after a label, where it is no input.
///
/// # Errors
///
/// Want of memory.
pub fn net_text(alloc: Global, label: &[u8], net: &Netlist, id: NetId) -> Result<Bytes, AllocError>
    requires net { id.number < nets net.now.circuit }
    ensures text { IfOk result (λ text. text ≡ text_at (names_under label.now net.now) id.number) }
{
    let mut text = Bytes::from_slice(alloc, label_before(label, net, id))?;
    text.append(net.name(id))?;
    Ok(text)
}
