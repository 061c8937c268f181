//! The variables of the nodes in the copy with a failing cell.
ghost use Rattle.std.specs.Prelude.{◌≡◌};
ghost use Rattle.question_text.specs.Failing.{cell_at};

/// The variables of a node.
#[derive(Clone, Copy, Debug)]
pub struct Cell {
    /// That the node is the cell that fails.
    pub choice: u32,
    /// What its cover gives.
    pub gate: u32,
    /// The bit of its net.
    pub net: u32,
    /// Its first row of two or more literals.
    pub rows: u32,
    /// That the bit of its net is another one than without a fault.
    pub differs: u32,
    /// That some node up to it is chosen.
    pub chosen: u32,
}

/// The variables of the node at a place, and zeros past the end.
pub(crate) fn cell_at(cells: &[Cell], place: usize) -> Cell
    ensures cell { result ≡ cell_at cells.now place }
{
    match cells.get(place) {
        Some(cell) => *cell,
        None => Cell {
            choice: 0,
            gate: 0,
            net: 0,
            rows: 0,
            differs: 0,
            chosen: 0,
        },
    }
}
