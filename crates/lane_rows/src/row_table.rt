//! Rows while they are given out.
ghost use Rattle.std.specs.Prelude.{◌≡◌, ℕ, ◌<◌, ◌^◌, ◌==◌, ◌&&◌, ◌||◌, not, nat_lt, Bool, Some, None, IfOk, OnOk, All, length, replicate, [], slice_index, slice_set, vec_len};
ghost use Rattle.tsc_net.specs.Order.{has_place};
ghost use Rattle.tsc_net.specs.PlanView.{net_numbers};
ghost use Rattle.lane_rows.specs.Holding.{IsNext, IsHolding};

use std::alloc::{AllocError, Global};
use tsc_net::NetId;

/// Which nets have which rows.
#[derive(Drop)]
pub struct RowTable {
    /// The row that each net got.
    pub rows: Vec<Option<u32>>,
    /// The row that each net still holds.
    pub held: Vec<Option<u32>>,
    /// The rows that no net holds.
    pub free: Vec<u32>,
    /// The number of rows.
    pub count: usize,
    ghost sized: { vec_len held ≡ vec_len rows },
}

impl RowTable {
    /// No row given yet, for this number of nets.
    pub fn new(alloc: Global, nets: usize) -> Result<RowTable, AllocError>
        ensures rows { IfOk result (λ table. table.rows.items ≡ replicate nets None) }
        ensures held { IfOk result (λ table. table.held.items ≡ replicate nets None) }
        ensures free { IfOk result (λ table. table.free.items ≡ []) }
        ensures count { IfOk result (λ table. table.count ≡ 0) }
    {
        Ok(RowTable {
            rows: vec![in alloc; None; nets]?,
            held: vec![in alloc; None; nets]?,
            free: Vec::new(alloc),
            count: 0,
        })
    }

    /// The row that was freed last, or a new one where none is free.
    fn next(&mut self) -> u32
        requires room { self.old.count < 2 ^ 32 }
        ensures next { IsNext self.old.free.items self.old.count self.new.free.items self.new.count result }
        ensures rows { self.new.rows ≡ self.old.rows }
        ensures held { self.new.held ≡ self.old.held }
    {
        if let Some(row) = self.free.pop() {
            return row;
        }
        let row = self.count as u32;
        self.count += 1;
        row
    }

    /// Gives a row to a net.
    pub fn give(&mut self, net: usize) -> u32
        requires net { net < vec_len self.old.rows }
        requires room { self.old.count < 2 ^ 32 }
        ensures next { IsNext self.old.free.items self.old.count self.new.free.items self.new.count result }
        ensures rows { self.new.rows.items ≡ slice_set self.old.rows.items net (Some result) }
        ensures held { self.new.held.items ≡ slice_set self.old.held.items net (Some result) }
    {
        let row = self.next();
        self.rows[net] = Some(row);
        self.held[net] = Some(row);
        row
    }

    /// Frees the row that a net holds, if it holds one, unless it is needed at a place or after it.
    fn release(&mut self, net: usize, ends: &[usize], place: usize) -> Result<(), AllocError>
        requires net { net < vec_len self.old.rows }
        requires ends { net < length ends.now }
        ensures rows { self.new.rows ≡ self.old.rows }
        ensures count { self.new.count ≡ self.old.count }
        ensures holding { (live : ℕ → Bool) → IsHolding self.old.rows.items self.old.held.items self.old.free.items self.old.count live
            → OnOk result (IsHolding self.new.rows.items self.new.held.items self.new.free.items self.new.count (λ other. live other && (not (net == other) || nat_lt place (slice_index ends.now net)))) }
    {
        if place < ends[net] {
            return Ok(());
        }
        if let Some(row) = self.held[net] {
            self.free.push(row)?;
            self.held[net] = None;
        }
        Ok(())
    }

    /// Frees the rows that these nets hold, unless they are needed at a place or after it.
    pub fn release_each(
        &mut self,
        nets: &[NetId],
        ends: &[usize],
        place: usize,
    ) -> Result<(), AllocError>
        requires nets { All (λ net. net.number < vec_len self.old.rows) nets.now }
        requires ends { length ends.now ≡ vec_len self.old.rows }
        ensures rows { self.new.rows ≡ self.old.rows }
        ensures count { self.new.count ≡ self.old.count }
        ensures holding { (live : ℕ → Bool) → IsHolding self.old.rows.items self.old.held.items self.old.free.items self.old.count live
            → OnOk result (IsHolding self.new.rows.items self.new.held.items self.new.free.items self.new.count (λ other. live other && (not (has_place (net_numbers nets.now) other) || nat_lt place (slice_index ends.now other)))) }
    {
        for net in nets {
            self.release(net.number as usize, ends, place)?;
        }
        Ok(())
    }
}
