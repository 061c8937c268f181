//! A bench with what it takes.
ghost use Rattle.std.specs.Prelude.{◌≡◌, ◌<◌, ◌≤◌, length, All, IfOk};
ghost use Rattle.fault_secure.specs.Circuit.{nets};
ghost use Rattle.tsc_net.specs.Limits.{most_nets};
ghost use Rattle.behaviour_audit.specs.Trial.{IsWatchOf};

use lane_sim::{Bench, Points};
use std::alloc::{AllocError, Global};
use tsc_net::{Bits, Netlist, Nets};

/// A bench that watches the nets that are read, and the points at which it settles.
pub(crate) struct Watch<'a> {
    /// The bench.
    pub bench: Bench<'a>,
    /// The nets that it watches, in the order in which they are read.
    pub nets: Nets,
    /// Its points.
    pub points: Points,
}

impl<'a> Watch<'a> {
    /// Ends the bench.
    pub(crate) fn close(self) {
        let Watch {
            bench,
            nets: _,
            points: _,
        } = self;
        bench.close();
    }
}

/// A bench of a netlist that watches these nets. It takes all the memory that it will ever have.
///
/// # Errors
///
/// Want of memory.
pub(crate) fn watch_of<'a>(
    alloc: Global,
    net: &'a Netlist,
    watched: Nets,
) -> Result<Watch<'a>, AllocError>
    requires latches { length net.now.circuit.latches ≤ 64 }
    requires nets { nets net.now.circuit ≤ most_nets }
    requires watched { All (λ watched. watched.number < nets net.now.circuit) watched }
    ensures watch { IfOk result (IsWatchOf net.now.circuit) }
    ensures nets { IfOk result (λ watch. watch.nets ≡ watched) }
{
    let points = Points::new(alloc, net)?;
    let bench = Bench::open(alloc, net, &watched)?;
    Ok(Watch {
        bench,
        nets: watched,
        points,
    })
}

/// A list of so many bits, to be written over.
///
/// # Errors
///
/// Want of memory.
pub(crate) fn zeros(alloc: Global, count: usize) -> Result<Bits, AllocError>
    ensures sized { IfOk result (λ bits. length bits ≡ count) }
{
    let mut bits = Bits::new(alloc);
    for _ in 0..count {
        bits.push(false)?;
    }
    Ok(bits)
}
