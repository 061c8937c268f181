//! The listed faults of a netlist.
ghost use Rattle.std.specs.Prelude.{◌≡◌, ◌<◌, ◌≤◌, ◌^◌, ◌++◌, [], ◌∷◌, true, false, length, Some, IfOk, OnOk, slice_get};
ghost use Rattle.fault_secure.specs.StuckAt.{StuckAt, is_listed, pins_of};
ghost use Rattle.fault_secure.specs.Circuit.{nets};
ghost use Rattle.tsc_net.specs.Fault.{stuck_at};
ghost use Rattle.tsc_net.specs.inner.FaultView.{kept_as};
ghost use Rattle.fault_secure.specs.Listed.{listed_faults, faults_at};

use crate::fault::Fault;
use crate::ids::NetId;
use crate::netlist::Netlist;
use std::alloc::{AllocError, Global};
use std::marker::Model;
use std::mem::size_of;

/// Whether the fault is listed: a value of the stem of a net that isn't an input, or of a pin of a node or a latch.
/// It takes no memory.
pub fn is_listed(net: &Netlist, fault: &Fault) -> bool
    ensures listed { result ≡ is_listed net.now.circuit (stuck_at fault.now) }
{
    match fault {
        Fault::Stem { net: at, value: _ } => is_listed_stem(net, *at),
        Fault::Pin {
            driver,
            index,
            value: _,
        } => is_listed_pin(net, *driver, *index),
    }
}

/// Whether the net isn't an input.
fn is_listed_stem(net: &Netlist, at: NetId) -> bool
    ensures listed { result ≡ is_listed net.now.circuit (StuckAt.Stem at.number true) }
{
    let at = at.number as usize;
    net.inputs() <= at && at < net.nets()
}

/// Whether a node or latch drives the net and has a pin with this index.
fn is_listed_pin(net: &Netlist, driver: NetId, index: usize) -> bool
    ensures listed { result ≡ is_listed net.now.circuit (StuckAt.Pin driver.number index true) }
{
    let driver = driver.number as usize;
    driver < net.nets() && index < pins_of(net, driver)
}

/// How many pins the node or latch has that drives a net: a node as many as its cover, so at most 64. An input has none.
pub fn pins_of(net: &Netlist, at: usize) -> usize
    requires net { at < nets net.now.circuit }
    ensures pins { result ≡ pins_of net.now.circuit at }
    ensures few { result ≤ 64 }
{
    let first_node = net.inputs() + net.latches();
    // What a checked netlist keeps is known from here on.
    let _nets = net.nets();
    if at < net.inputs() {
        0
    } else if at < first_node {
        1
    } else {
        net.node_cover(at - first_node).width()
    }
}

/// How many faults are listed: two a net that isn't an input, and two a pin. It takes no memory.
pub fn fault_count(net: &Netlist) -> usize
    ensures count { result ≡ length (listed_faults net.now.circuit) }
{
    let mut count: usize = 0;
    for at in net.inputs()..net.nets() {
        count += 2 + 2 * pins_of(net, at);
    }
    count
}

/// A listed fault, as it is kept.
#[derive(Clone, Copy, Debug)]
struct KeptFault {
    /// The net that is held, or that the node or latch of the pin drives.
    net: NetId,
    /// 0 at a stem, and one more than the pin's place at a pin.
    pin: u8,
    /// The bit that it is held at.
    value: bool,
}

// There is one for each listed fault.
const _: () = prove!(size_of::<KeptFault>() == 8);

impl KeptFault {
    /// The stem of a net, held at a bit.
    fn of_stem(net: NetId, value: bool) -> KeptFault
        ensures kept { kept_as result ≡ StuckAt.Stem net.number value }
    {
        KeptFault { net, pin: 0, value }
    }

    /// The pin with this index of the node or latch that drives a net, held at a bit.
    fn of_pin(driver: NetId, index: usize, value: bool) -> KeptFault
        requires few { index < 64 }
        ensures kept { kept_as result ≡ StuckAt.Pin driver.number index value }
    {
        KeptFault {
            net: driver,
            pin: index as u8 + 1,
            value,
        }
    }

    /// The fault that is kept so.
    fn fault(&self) -> Fault
        ensures fault { stuck_at result ≡ kept_as self.now }
    {
        if self.pin == 0 {
            Fault::Stem {
                net: self.net,
                value: self.value,
            }
        } else {
            Fault::Pin {
                driver: self.net,
                index: self.pin as usize - 1,
                value: self.value,
            }
        }
    }
}

/// The listed faults of a netlist, each once: latches in order, then nodes in text order; for each the stem at 0 and 1,
/// then pin by pin at 0 and 1.
#[derive(Debug, Drop)]
pub struct Faults {
    items: Vec<KeptFault>,
}

impl Model for Faults {
    ghost use Rattle.std.specs.Prelude.{List, map};
    ghost use Rattle.fault_secure.specs.StuckAt.{StuckAt};

    ghost Value = { List StuckAt };

    ghost use Rattle.tsc_net.specs.inner.FaultView.{kept_as};

    ghost view = { λ faults. map kept_as faults.items.items };
}

impl Faults {
    /// The listed faults of a netlist.
    ///
    /// # Errors
    ///
    /// Want of memory.
    pub fn of(alloc: Global, net: &Netlist) -> Result<Faults, AllocError>
        ensures listed { IfOk result (λ faults. faults ≡ listed_faults net.now.circuit) }
    {
        let mut faults = Faults {
            items: Vec::with_capacity(alloc, fault_count(net))?,
        };
        for at in net.inputs()..net.nets() {
            faults.push_driver(at, pins_of(net, at))?;
        }
        Ok(faults)
    }

    /// Adds the faults of the node or latch that drives a net and has so many pins.
    fn push_driver(&mut self, at: usize, pins: usize) -> Result<(), AllocError>
        requires net { at < 2 ^ 32 }
        requires few { pins ≤ 64 }
        ensures ok { OnOk result (self.new ≡ self.old ++ faults_at at pins) }
    {
        let net = NetId { number: at as u32 };
        self.push(KeptFault::of_stem(net, false))?;
        self.push(KeptFault::of_stem(net, true))?;
        for index in 0..pins {
            self.push_pin(net, index)?;
        }
        Ok(())
    }

    /// Adds both faults of a pin.
    fn push_pin(&mut self, driver: NetId, index: usize) -> Result<(), AllocError>
        requires few { index < 64 }
        ensures ok { OnOk result (self.new ≡ self.old ++ StuckAt.Pin driver.number index false ∷ StuckAt.Pin driver.number index true ∷ []) }
    {
        self.push(KeptFault::of_pin(driver, index, false))?;
        self.push(KeptFault::of_pin(driver, index, true))?;
        Ok(())
    }

    /// Adds a fault.
    fn push(&mut self, fault: KeptFault) -> Result<(), AllocError>
        ensures ok { OnOk result (self.new ≡ self.old ++ kept_as fault ∷ []) }
    {
        self.items.push(fault)?;
        Ok(())
    }

    /// The number of faults.
    pub fn len(&self) -> usize
        ensures count { result ≡ length self.now }
    {
        self.items.len()
    }

    /// The fault at `place`, counted from 0.
    pub fn get(&self, place: usize) -> Fault
        requires { place < length self.now }
        ensures found { slice_get self.now place ≡ Some (stuck_at result) }
    {
        self.items[place].fault()
    }
}
