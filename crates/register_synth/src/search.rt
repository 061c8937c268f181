//! What reaches some nets of a netlist, through registers.
ghost use Rattle.std.specs.Prelude.{◌≡◌, ◌<◌, length, All, IfOk, OnOk};
ghost use Rattle.fault_secure.specs.Circuit.{nets, node};
ghost use Rattle.tsc_net.specs.PlanView.{net_numbers};
ghost use Rattle.register_synth.specs.Reaching.{MarksReaching};
ghost use Rattle.register_synth.specs.inner.Search.{found_net, found_nets, nets_read, led_on, searched};

use std::alloc::{AllocError, Global};
use std::marker::Model;
use tsc_net::{NetId, Netlist};

/// A mark for each net that was found, and the nets that were found, once each, in order.
#[derive(Drop)]
struct Found {
    marks: Vec<bool>,
    nets: Vec<NetId>,
}

impl Model for Found {
    ghost use Rattle.register_synth.specs.inner.Search.{Search};
    ghost use Rattle.tsc_net.specs.PlanView.{net_numbers};

    ghost Value = { Search };

    ghost view = { λ found. record { marks = found.marks.items; found = net_numbers found.nets.items } };
}

impl Found {
    /// Finds a net, perhaps again.
    fn find(&mut self, net: NetId) -> Result<(), AllocError>
        requires within { net.number < length self.old.marks }
        ensures found { OnOk result (self.new ≡ found_net self.old net.number) }
    {
        let place = net.number as usize;
        let again = self.marks[place];
        self.marks[place] = true;
        if again {
            return Ok(());
        }
        self.nets.push(net)?;
        Ok(())
    }

    /// Finds some nets.
    fn find_all(&mut self, list: &[NetId]) -> Result<(), AllocError>
        requires within { All (λ net. net.number < length self.old.marks) list.now }
        ensures found { OnOk result (self.new ≡ found_nets self.old (net_numbers list.now)) }
    {
        for net in list {
            self.find(*net)?;
        }
        Ok(())
    }

    /// Finds what the register or cover reads that gives a net.
    fn find_read(&mut self, net: &Netlist, given: NetId) -> Result<(), AllocError>
        requires sized { length self.old.marks ≡ nets net.now.circuit }
        requires within { given.number < nets net.now.circuit }
        ensures found { OnOk result (self.new ≡ found_nets self.old (nets_read net.now.circuit given.number)) }
    {
        // What the netlist keeps is known from here on.
        let _nets = net.nets();
        let number = given.number as usize;
        let inputs = net.inputs();
        let first = inputs + net.latches();
        if number < inputs {
            return Ok(());
        }
        if number < first {
            return self.find_all(&[net.latch(number - inputs).reads]);
        }
        self.find_all(net.node_reads(number - first))
    }

    /// The net at a place of the list, if one is there, leads to those that it is made from.
    fn lead_on(&mut self, net: &Netlist, place: usize) -> Result<(), AllocError>
        requires sized { length self.old.marks ≡ nets net.now.circuit }
        requires within { All (λ net_found. net_found < nets net.now.circuit) self.old.found }
        ensures found { OnOk result (self.new ≡ led_on net.now.circuit self.old place) }
    {
        if place >= self.nets.len() {
            return Ok(());
        }
        let given = self.nets[place];
        self.find_read(net, given)
    }
}

/// A mark for each net of `net`: whether it reaches some net of `roots`, at this step or a later one. Registers are crossed. Each net is
/// looked at once.
///
/// # Errors
///
/// Want of memory.
pub fn reaching_marks(
    alloc: Global,
    net: &Netlist,
    roots: &[NetId],
) -> Result<Vec<bool>, AllocError>
    requires nets { All (λ root. root.number < nets net.now.circuit) roots.now }
    ensures marks { IfOk result (λ marks. MarksReaching net.now.circuit (net_numbers roots.now) marks.items) }
{
    // What the netlist keeps is known from here on.
    let _nets = net.nets();
    let found = search(alloc, net, roots)?;
    Ok(found.marks)
}

/// The search from the roots on.
fn search(alloc: Global, net: &Netlist, roots: &[NetId]) -> Result<Found, AllocError>
    requires nets { All (λ root. root.number < nets net.now.circuit) roots.now }
    ensures searched { IfOk result (λ found. found ≡ searched net.now.circuit (net_numbers roots.now) (nets net.now.circuit)) }
{
    let count = net.nets();
    let mut found = Found {
        marks: vec![in alloc; false; count]?,
        nets: Vec::new(alloc),
    };
    found.find_all(roots)?;
    for place in 0..count {
        found.lead_on(net, place)?;
    }
    Ok(found)
}
