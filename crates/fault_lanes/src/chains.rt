//! Which lanes have their faults at a net.
ghost use Rattle.std.specs.Prelude.{◌≡◌, ◌≢◌, ℕ, ◌+◌, ◌*◌, ◌^◌, ◌<◌, ◌≤◌, ◌⊎◌, false, length, All, IfOk, IsTrue};
ghost use Rattle.fault_secure.specs.StuckAt.{NoFault, on_stem, on_pin, fault_cell};
ghost use Rattle.tsc_net.specs.Fault.{stuck_at};
ghost use Rattle.lane_sim.specs.Again.{is_at};
ghost use Rattle.lane_sim.specs.Points.{source_bit};
ghost use Rattle.fault_lanes.specs.Batch.{batch_fault, lane_fault};
ghost use Rattle.fault_lanes.specs.Chains.{AreChains, LeadThrough};

use crate::holding::{hold_pin, hold_stem};
use std::alloc::{AllocError, Global};
use tsc_net::Fault;

/// The fault of each lane, and the lanes by the nets where their faults act. 0 says that there is no lane, since lane 0 is without
/// a fault.
#[derive(Drop)]
pub(crate) struct Chains {
    /// The fault of each lane.
    pub faults: Vec<Option<Fault>>,
    /// Per net the last lane whose fault is there.
    pub newest: Vec<usize>,
    /// Per lane the last one before it whose fault is at the same net.
    pub older: Vec<usize>,
}

impl Chains {
    /// Chains for so many nets, with no fault in any lane. No other call takes memory.
    ///
    /// # Errors
    ///
    /// Want of memory.
    pub fn with_room(alloc: Global, nets: usize) -> Result<Chains, AllocError>
        requires few { nets < 2 ^ 32 }
        ensures chains { IfOk result (AreChains nets) }
        ensures free { IfOk result (λ chains. (lane : ℕ) → lane_fault chains.faults.items lane ≡ NoFault) }
    {
        let faults = vec![in alloc; None; 1024]?;
        let newest = vec![in alloc; 0; nets]?;
        let older = vec![in alloc; 0; 1024]?;
        Ok(Chains {
            faults,
            newest,
            older,
        })
    }

    /// Gives each lane its fault of a batch, in place of those of the batch before.
    pub fn load(&mut self, faults: &[Fault])
        requires few { length faults.now < 1024 }
        requires chains { AreChains (length self.old.newest.items) self.old }
        requires within { All (λ fault. fault_cell (stuck_at fault) < length self.old.newest.items) faults.now }
        ensures chains { AreChains (length self.old.newest.items) self.new }
        ensures faults { (lane : ℕ) → lane < 1024 → lane_fault self.new.faults.items lane ≡ batch_fault faults.now lane }
    {
        self.clear();
        for (index, fault) in faults.iter().enumerate() {
            self.put(index + 1, *fault);
        }
    }

    /// Takes the fault of each lane away.
    fn clear(&mut self)
        requires chains { AreChains (length self.old.newest.items) self.old }
        ensures chains { LeadThrough (length self.old.newest.items) 1 self.new }
    {
        self.faults.fill(None);
        self.newest.fill(0);
    }

    /// Gives a lane a fault, where no later lane has one.
    fn put(&mut self, lane: usize, fault: Fault)
        requires some { 0 < lane }
        requires few { lane < 1024 }
        requires within { fault_cell (stuck_at fault) < length self.old.newest.items }
        requires chains { LeadThrough (length self.old.newest.items) lane self.old }
        ensures chains { LeadThrough (length self.old.newest.items) (lane + 1) self.new }
        ensures here { lane_fault self.new.faults.items lane ≡ stuck_at fault }
        ensures others { (other : ℕ) → other ≢ lane → lane_fault self.new.faults.items other ≡ lane_fault self.old.faults.items other }
    {
        let net = cell_of(fault);
        self.older[lane] = self.newest[net];
        self.newest[net] = lane;
        self.faults[lane] = Some(fault);
    }

    /// Whether no lane has a fault at a net. It looks at one number.
    pub fn is_free(&self, net: usize) -> bool
        requires chains { AreChains (length self.now.newest.items) self.now }
        requires net { net < length self.now.newest.items }
        ensures free { IsTrue result → (lane : ℕ) → lane < 1024 → is_at (lane_fault self.now.faults.items lane) net ≡ false }
    {
        self.newest[net] == 0
    }

    /// Holds a net in each lane whose fault is its stem.
    pub fn hold_stems(&self, words: &mut [u64], net: usize)
        requires chains { AreChains (length self.now.newest.items) self.now }
        requires net { net < length self.now.newest.items }
        requires room { net * 16 + 16 ≤ length words.old }
        ensures here { (lane : ℕ) → lane < 1024 → source_bit words.new net lane ≡ on_stem (lane_fault self.now.faults.items lane) net (source_bit words.old net lane) }
        ensures others { (other lane : ℕ) → lane < 1024 → other ≢ net → source_bit words.new other lane ≡ source_bit words.old other lane }
    {
        let mut lane = self.newest[net];
        while lane != 0 {
            hold_stem(words, net, lane, self.faults[lane]);
            lane = self.older[lane];
        }
    }

    /// Holds each of the first pins of what drives a net in the lanes whose fault it is; the rows of the pins stand from the row
    /// `base` on.
    pub fn hold_pins(&self, words: &mut [u64], base: usize, pins: usize, driver: usize)
        requires chains { AreChains (length self.now.newest.items) self.now }
        requires driver { driver < length self.now.newest.items }
        requires room { (base + pins) * 16 ≤ length words.old }
        ensures here { (pin lane : ℕ) → pin < pins → lane < 1024
            → source_bit words.new (base + pin) lane ≡ on_pin (lane_fault self.now.faults.items lane) driver pin (source_bit words.old (base + pin) lane) }
        ensures others { (other lane : ℕ) → lane < 1024 → (other < base) ⊎ (base + pins ≤ other) → source_bit words.new other lane ≡ source_bit words.old other lane }
    {
        let mut lane = self.newest[driver];
        while lane != 0 {
            hold_pin(words, base, pins, driver, lane, self.faults[lane]);
            lane = self.older[lane];
        }
    }
}

/// The net of the cell at which a fault is.
fn cell_of(fault: Fault) -> usize
    ensures cell { result ≡ fault_cell (stuck_at fault) }
{
    match fault {
        Fault::Stem { net, value: _ } => net.number as usize,
        Fault::Pin {
            driver,
            index: _,
            value: _,
        } => driver.number as usize,
    }
}
