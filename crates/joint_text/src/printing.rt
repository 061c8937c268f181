//! Printing the text of a joint.
ghost use Rattle.std.specs.Prelude.{◌≡◌};
ghost use Rattle.std.specs.Option.{option_copied};
ghost use Rattle.buffered_sink.specs.Output.{Prints, output};
ghost use Rattle.blif_write.specs.RegisterText.{clock_words};
ghost use Rattle.module_join.specs.JoinParts.{parts_as};
ghost use Rattle.joint_text.specs.JointNamed.{labels_of, prefix_of};
ghost use Rattle.joint_text.specs.JointText.{joint_bytes};
ghost use Rattle.joint_text.specs.JointTextLaws.{AreJoinable};
ghost use Rattle.joint_text.specs.Portions.{head_text, latches_text, nodes_text, tail_text};

use crate::joint::{Ends, Joint};
use crate::part_lines::{print_part_latches, print_part_nodes};
use blif_read::Clock;
use buffered_sink::{Page, print};
use module_join::{Part, joint_clock};
use tsc_io::{Items, Sink, WriteFault};
use tsc_net::NameTexts;

/// Prints the text of the joint netlist of the parts, node by node, in time linear in its length. It takes no memory.
///
/// # Errors
///
/// The sink failed.
pub fn print_joint<K: Sink>(sink: &mut K, page: &mut Page, joint: &Joint) -> Result<(), WriteFault>
    ensures printed { Prints result (output (K.written sink.old) (K.faults sink.old) page.old) (output (K.written sink.new) (K.faults sink.new) page.new) (joint_bytes joint.now) }
{
    print_parts(sink, page, &joint.ends, &joint.labels, &joint.parts)
}

/// Prints the text of the joint netlist of parts with these labels, and with these texts around their lines.
fn print_parts<K: Sink>(
    sink: &mut K,
    page: &mut Page,
    ends: &Ends,
    labels: &NameTexts,
    parts: &Items<Part>,
) -> Result<(), WriteFault>
    requires joinable { AreJoinable (parts_as parts.now) }
    requires labels { labels.now ≡ labels_of (parts_as parts.now) }
    requires head { ends.now.head ≡ head_text (parts_as parts.now) }
    requires tail { ends.now.tail ≡ tail_text (parts_as parts.now) }
    ensures printed { Prints result (output (K.written sink.old) (K.faults sink.old) page.old) (output (K.written sink.new) (K.faults sink.new) page.new) (joint_bytes (parts_as parts.now)) }
{
    print(sink, page, ends.head.as_slice())?;
    print_latches(sink, page, joint_clock(parts.as_slice()), labels, parts)?;
    print_nodes(sink, page, labels, parts)?;
    print(sink, page, ends.tail.as_slice())
}

/// Prints the lines of the latches of the parts, with the words of a clock.
fn print_latches<K: Sink>(
    sink: &mut K,
    page: &mut Page,
    clock: Option<&Clock>,
    labels: &NameTexts,
    parts: &Items<Part>,
) -> Result<(), WriteFault>
    requires labels { labels.now ≡ labels_of (parts_as parts.now) }
    ensures printed { Prints result (output (K.written sink.old) (K.faults sink.old) page.old) (output (K.written sink.new) (K.faults sink.new) page.new) (latches_text (clock_words (option_copied clock.entry)) (prefix_of (parts_as parts.now)) 0 (parts_as parts.now)) }
{
    for place in 0..parts.len() {
        let label = labels.get(place).as_slice();
        print_part_latches(sink, page, clock, label, &parts.get(place).net)?;
    }
    Ok(())
}

/// Prints the lines of the nodes of the parts.
fn print_nodes<K: Sink>(
    sink: &mut K,
    page: &mut Page,
    labels: &NameTexts,
    parts: &Items<Part>,
) -> Result<(), WriteFault>
    requires labels { labels.now ≡ labels_of (parts_as parts.now) }
    ensures printed { Prints result (output (K.written sink.old) (K.faults sink.old) page.old) (output (K.written sink.new) (K.faults sink.new) page.new) (nodes_text (prefix_of (parts_as parts.now)) 0 (parts_as parts.now)) }
{
    for place in 0..parts.len() {
        let label = labels.get(place).as_slice();
        print_part_nodes(sink, page, label, &parts.get(place).net)?;
    }
    Ok(())
}
