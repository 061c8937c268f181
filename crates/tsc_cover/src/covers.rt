//! Covers, and their truth.
ghost use Rattle.std.specs.Prelude.{◌≡◌, ◌<◌, ◌≤◌, ◌^◌, ◌↔◌, [], ◌∷◌, ◌++◌, length, All, IsTrue, IfOk, OnOk, OnErr, bit_and, bit_xor, ◌==◌, ◌&&◌};
ghost use Rattle.std.specs.List.{list_any};
ghost use Rattle.tsc_bits.specs.Bits.{bits_of, bit_worth, same};
ghost use Rattle.tsc_cover.specs.Cover.{CoverTable, truth, wrong_sign};
ghost use Rattle.tsc_cover.specs.Row.{literals_of, literals_of_each, table_of, IsRow};

use crate::rows::{Row01, bit_at};
use std::alloc::{AllocError, Global};
use std::marker::Model;

/// A cover of up to 64 pins, whose rows are its on-set or its off-set.
#[derive(Drop)]
pub struct Cover {
    width: usize,
    on: bool,
    rows: Vec<Row01>,
}

impl Model for Cover {
    ghost use Rattle.tsc_cover.specs.Cover.{CoverTable};
    ghost use Rattle.tsc_cover.specs.Row.{table_of, AreRows};

    ghost Value = { CoverTable };

    ghost view = { λ c. table_of c.width c.on c.rows.items };

    ghost invariant = { λ c. AreRows c.width c.rows.items };
}

impl Cover {
    /// A cover of `width` pins without rows: an on-set if `on`, else an off-set. It takes no memory.
    pub fn new(alloc: Global, width: usize, on: bool) -> Cover
        requires wide { width ≤ 64 }
        ensures cover { result ≡ record { width = width; on = on; rows = [] } }
    {
        Cover {
            width,
            on,
            rows: Vec::new(alloc),
        }
    }

    /// A cover of `width` pins without rows, as `new` makes it, that has the memory for so many rows.
    ///
    /// # Errors
    ///
    /// Want of memory.
    pub fn with_capacity(
        alloc: Global,
        width: usize,
        on: bool,
        rows: usize,
    ) -> Result<Cover, AllocError>
        requires wide { width ≤ 64 }
        ensures cover { IfOk result (λ c. c ≡ record { width = width; on = on; rows = [] }) }
    {
        Ok(Cover {
            width,
            on,
            rows: Vec::with_capacity(alloc, rows)?,
        })
    }

    /// Adds a row at the end.
    ///
    /// # Errors
    ///
    /// Want of memory.
    pub fn push_row(&mut self, row: Row01) -> Result<(), AllocError>
        requires within { bit_and row.value row.care ≡ row.value }
        requires narrow { row.care < 2 ^ self.old.width }
        ensures ok { OnOk result (self.new ≡ record self.old { rows = self.old.rows ++ literals_of self.old.width row ∷ [] }) }
        ensures err { OnErr result (self.new ≡ self.old) }
    {
        self.rows.push(row)?;
        Ok(())
    }

    /// The value of the cover on the bits of its pins, the first most significant.
    pub fn truth(&self, read: u64) -> bool
        ensures truth { result ≡ truth self.now (bits_of self.now.width read) }
    {
        some_row_matches(&self.rows, read) == self.on
    }

    /// Whether the cover reads the pin in negated form: an on-set row asks for 0 there, or an
    /// off-set row for 1.
    pub fn wrong_sign(&self, pin: usize) -> bool
        requires below { pin < self.now.width }
        ensures sign { result ≡ wrong_sign self.now pin }
    {
        some_row_asks(&self.rows, self.width - 1 - pin, !self.on)
    }

    /// How many pins the cover has, at most 64.
    pub fn width(&self) -> usize
        ensures width { result ≡ self.now.width }
        ensures limit { result ≤ 64 }
        ensures sized { All (λ row. length row ≡ self.now.width) self.now.rows }
    {
        self.width
    }

    /// Whether the rows are the on-set, and not the off-set.
    pub fn on(&self) -> bool
        ensures on { result ≡ self.now.on }
    {
        self.on
    }

    /// The rows, in the order in which they were added.
    pub fn rows(&self) -> &[Row01]
        ensures rows { literals_of_each self.now.width result.now ≡ self.now.rows }
        ensures fit { All (IsRow self.now.width) result.now }
    {
        &self.rows
    }

    /// A cover with these rows.
    ///
    /// # Errors
    ///
    /// Want of memory.
    pub fn of_rows(
        alloc: Global,
        width: usize,
        on: bool,
        rows: &[Row01],
    ) -> Result<Cover, AllocError>
        requires wide { width ≤ 64 }
        requires fit { All (IsRow width) rows.now }
        ensures cover { IfOk result (λ c. c ≡ table_of width on rows.now) }
    {
        Ok(Cover {
            width,
            on,
            rows: rows.to_vec(alloc)?,
        })
    }

    /// A copy of the cover.
    ///
    /// # Errors
    ///
    /// Want of memory.
    pub fn copy_of(&self) -> Result<Cover, AllocError>
        ensures copy { IfOk result (λ c. c ≡ self.now) }
    {
        Ok(Cover {
            width: self.width,
            on: self.on,
            rows: self.rows.clone()?,
        })
    }

    /// Whether the cover has that many pins, is that set, and has these rows in this order.
    pub(crate) fn is_table_of(&self, width: usize, on: bool, rows: &[Row01]) -> bool
        requires fit { All (IsRow width) rows.now }
        ensures same { IsTrue result ↔ (self.now ≡ table_of width on rows.now) }
    {
        self.width == width && self.on == on && same_rows(&self.rows, rows)
    }
}

/// Whether some row has, at each bit that it reads, the value of that bit of `read`.
fn some_row_matches(rows: &[Row01], read: u64) -> bool
    ensures some { result ≡ list_any (λ row. bit_and (bit_xor read row.value) row.care == 0) rows.now }
{
    rows.iter().any(|row| (read ^ row.value) & row.care == 0)
}

/// Whether some row reads the bit that is worth `2^place`, and asks for `wanted` there.
fn some_row_asks(rows: &[Row01], place: usize, wanted: bool) -> bool
    requires below { place < 64 }
    ensures some { result ≡ list_any (λ row. bit_worth place row.care && same (bit_worth place row.value) wanted) rows.now }
{
    rows.iter().any(|row| bit_at(row.care, place) && bit_at(row.value, place) == wanted)
}

/// Whether the two lists have the same rows.
fn same_rows(a: &[Row01], b: &[Row01]) -> bool
    ensures same { IsTrue result ↔ (a.now ≡ b.now) }
{
    a == b
}
