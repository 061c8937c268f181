//! How the bits of a settled bench are read at a point.
ghost use Rattle.std.specs.Prelude.{◌≡◌, ◌<◌, ◌≤◌, true, map, length, All, IfOk, IsSome};
ghost use Rattle.tsc_bits.specs.Bits.{binary};
ghost use Rattle.fault_secure.specs.StuckAt.{on_pin};
ghost use Rattle.tsc_net.specs.Fault.{stuck_at_or_none};
ghost use Rattle.tsc_net.specs.Order.{has_place};
ghost use Rattle.fault_sim.specs.Sim.{point_bit};
ghost use Rattle.fault_sim.specs.Shown.{taken_bit};

use lane_sim::Bench;
use std::alloc::{AllocError, Global};
use tsc_bits::push_bit;
use tsc_cover::bit_at;
use tsc_net::{Bits, Fault, LatchView, NetId};

/// The bit of a watched net at a point.
pub(crate) fn point_bit(bench: &Bench, point: usize, net: NetId) -> bool
    requires point { point < 1024 }
    requires settled { IsSome bench.now.lanes }
    requires watched { has_place bench.now.watched net.number ≡ true }
    ensures bit { result ≡ point_bit bench.now point net.number }
{
    bit_at(bench.lane(net)[point / 64], point % 64)
}

/// The bits of watched nets at a point, as a number.
pub(crate) fn number_at(bench: &Bench, point: usize, nets: &[NetId]) -> u64
    requires point { point < 1024 }
    requires few { length nets.now ≤ 64 }
    requires settled { IsSome bench.now.lanes }
    requires watched { All (λ net. has_place bench.now.watched net.number ≡ true) nets.now }
    ensures number { result ≡ binary (map (λ net. point_bit bench.now point net.number) nets.now) }
{
    let mut number = 0;
    for net in nets {
        number = push_bit(number, point_bit(bench, point, *net));
    }
    number
}

/// The bits that the pins of few latches read at a point, as a number.
pub(crate) fn state_at(
    bench: &Bench,
    point: usize,
    latches: &[LatchView],
    fault: Option<Fault>,
) -> u64
    requires point { point < 1024 }
    requires few { length latches.now ≤ 64 }
    requires settled { IsSome bench.now.lanes }
    requires watched { All (λ latch. has_place bench.now.watched latch.reads.number ≡ true) latches.now }
    ensures state { result ≡ binary (map (taken_bit (stuck_at_or_none fault) (point_bit bench.now point)) latches.now) }
{
    let mut state = 0;
    for latch in latches {
        let read = pin_bit(fault, latch.out, point_bit(bench, point, latch.reads));
        state = push_bit(state, read);
    }
    state
}

/// Reads the bits at the inputs of latches at a point into a list, and those that their pins read into another one. It takes no memory.
pub(crate) fn read_latches(
    bench: &Bench,
    point: usize,
    latches: &[LatchView],
    fault: Option<Fault>,
    next: &mut Bits,
    state: &mut Bits,
)
    requires point { point < 1024 }
    requires settled { IsSome bench.now.lanes }
    requires watched { All (λ latch. has_place bench.now.watched latch.reads.number ≡ true) latches.now }
    requires next { length next.old ≡ length latches.now }
    requires state { length state.old ≡ length latches.now }
    ensures next { next.new ≡ map (λ latch. point_bit bench.now point latch.reads.number) latches.now }
    ensures state { state.new ≡ map (taken_bit (stuck_at_or_none fault) (point_bit bench.now point)) latches.now }
{
    for place in 0..latches.len() {
        let latch = latches[place];
        let bit = point_bit(bench, point, latch.reads);
        next.replace(place, bit);
        state.replace(place, pin_bit(fault, latch.out, bit));
    }
}

/// The bits that latches hold first.
///
/// # Errors
///
/// Want of memory.
pub(crate) fn first_state(alloc: Global, latches: &[LatchView]) -> Result<Bits, AllocError>
    ensures state { IfOk result (λ state. state ≡ map (λ latch. latch.init) latches.now) }
{
    let mut state = Bits::with_room(alloc, latches.len())?;
    for latch in latches {
        state.push(latch.init)?;
    }
    Ok(state)
}

/// What the pin of a latch reads whose net has this bit.
fn pin_bit(fault: Option<Fault>, out: NetId, bit: bool) -> bool
    ensures bit { result ≡ on_pin (stuck_at_or_none fault) out.number 0 bit }
{
    match fault {
        Some(
            Fault::Pin {
                driver,
                index,
                value,
            },
        ) => {
            if driver.number == out.number && index == 0 {
                value
            } else {
                bit
            }
        }
        Some(Fault::Stem { net: _, value: _ }) => bit,
        None => bit,
    }
}
