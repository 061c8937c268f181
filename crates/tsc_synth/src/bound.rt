//! The bound on the covers of a netlist by a way of synthesis.
ghost use Rattle.std.specs.Prelude.{◌≡◌, ◌+◌, ◌-◌, ◌*◌, ◌^◌, length, min};
ghost use Rattle.tsc_cover.specs.Row.{literals_of, IsRow};
ghost use Rattle.fault_secure.specs.Size.{row_literals, cover_literals, literal_count, rows, network_size};
ghost use Rattle.tsc_synth.specs.CoverBound.{bound_over};

use tsc_cover::{Cover, Row01};
use tsc_net::Netlist;

/// The most covers that a netlist is bound to have where it is made.
pub const MOST_COVERS: usize = 1_048_576;

/// The bound on the covers of a netlist that costs so many copies of a network; the greatest number, where it is above it.
pub fn bound_over(source: &Netlist, copies: usize) -> usize
    ensures bound { result ≡ min (bound_over copies source.now.circuit) (2 ^ 64 - 1) }
{
    let nodes = network_size(source).saturating_mul(copies);
    nodes
        .saturating_add(source.inputs())
        .saturating_add(checker_size(source.outputs().len()))
        .saturating_mul(4)
}

/// What the checker of so many outputs may cost; the greatest number, where it is above it.
fn checker_size(outputs: usize) -> usize
    ensures size { result ≡ min (16 * (outputs + 1) ^ 2) (2 ^ 64 - 1) }
{
    let side = outputs.saturating_add(1);
    side.saturating_mul(side).saturating_mul(16)
}

/// What one copy of a network may cost; the greatest number, where it is above it.
fn network_size(source: &Netlist) -> usize
    ensures size { result ≡ min (network_size source.now.circuit) (2 ^ 64 - 1) }
{
    literals(source)
        .saturating_add(rows(source))
        .saturating_add(source.nodes())
        .saturating_add(1)
}

/// How many literals of the covers ask for a bit; the greatest number, where it is above it.
fn literals(source: &Netlist) -> usize
    ensures count { result ≡ min (literal_count source.now.circuit) (2 ^ 64 - 1) }
{
    let mut total: usize = 0;
    for place in 0..source.nodes() {
        total = total.saturating_add(cover_literals(source.node_cover(place)));
    }
    total
}

/// How many rows the covers have; the greatest number, where it is above it.
fn rows(source: &Netlist) -> usize
    ensures count { result ≡ min (rows source.now.circuit) (2 ^ 64 - 1) }
{
    let mut total: usize = 0;
    for place in 0..source.nodes() {
        total = total.saturating_add(cover_rows(source.node_cover(place)));
    }
    total
}

/// How many rows a cover has.
fn cover_rows(cover: &Cover) -> usize
    ensures count { result ≡ length cover.now.rows }
{
    cover.rows().len()
}

/// How many literals of a cover ask for a bit; the greatest number, where it is above it.
fn cover_literals(cover: &Cover) -> usize
    ensures count { result ≡ min (cover_literals cover.now) (2 ^ 64 - 1) }
{
    let width = cover.width();
    let mut total: usize = 0;
    for row in cover.rows() {
        total = total.saturating_add(row_literals(width, row));
    }
    total
}

/// How many literals of a row ask for a bit.
fn row_literals(width: usize, row: &Row01) -> usize
    requires row { IsRow width row.now }
    ensures count { result ≡ row_literals (literals_of width row.now) }
{
    row.care.count_ones() as usize
}
