//! What a settle needs of a netlist, worked out once.
ghost use Rattle.std.specs.Prelude.{◌≡◌, ◌≤◌, IfOk};
ghost use Rattle.std.specs.List.{range_with_len};
ghost use Rattle.tsc_net.specs.PlanView.{net_numbers};
ghost use Rattle.lane_sim.specs.TwoPins.{IsTableOf};
ghost use Rattle.fault_lanes.specs.Ready.{AreTables, IsReady};

use lane_sim::table_of;
use std::alloc::{AllocError, Global};
use tsc_cover::Cover;
use tsc_net::{NetId, Netlist};

/// The numbers of the functions of nodes of at most two pins, by node, and the rows of pins, in order: as nets, so that a cover
/// reads them as it reads nets.
#[derive(Drop)]
pub(crate) struct Ready {
    /// Per node the number of its function, or 0 where it has more than two pins.
    pub tables: Vec<u8>,
    /// The numbers from 0 to 63.
    pub places: Vec<NetId>,
}

impl Ready {
    /// What a settle of the netlist needs.
    ///
    /// # Errors
    ///
    /// Want of memory.
    pub fn of(alloc: Global, net: &Netlist) -> Result<Ready, AllocError>
        ensures ready { IfOk result (IsReady net.now.circuit) }
    {
        let tables = tables_of(alloc, net)?;
        let places = pin_places(alloc)?;
        Ok(Ready { tables, places })
    }
}

/// Per node the number of its function, or 0 where it has more than two pins.
fn tables_of(alloc: Global, net: &Netlist) -> Result<Vec<u8>, AllocError>
    ensures tables { IfOk result (λ tables. AreTables net.now.circuit tables.items) }
{
    // What the netlist keeps is known from here on.
    let _nets = net.nets();
    let mut tables = Vec::with_capacity(alloc, net.nodes())?;
    for place in 0..net.nodes() {
        tables.push(table_or_none(net.node_cover(place)))?;
    }
    Ok(tables)
}

/// The number of a cover's function, or 0 where it has more than two pins.
fn table_or_none(cover: &Cover) -> u8
    ensures table { cover.now.width ≤ 2 → IsTableOf cover.now cover.now.width result }
{
    if cover.width() <= 2 {
        table_of(cover)
    } else {
        0
    }
}

/// The numbers from 0 to 63.
fn pin_places(alloc: Global) -> Result<Vec<NetId>, AllocError>
    ensures places { IfOk result (λ places. net_numbers places.items ≡ range_with_len 0 64) }
{
    let mut places = Vec::with_capacity(alloc, 64)?;
    for number in 0..64 {
        places.push(NetId { number })?;
    }
    Ok(places)
}
