//! Gates: the nodes of a netlist, made ready for a settle.
use std::mem::size_of;
use tsc_io::Items;

/// Where the lanes of a net are: among those of the points, by the net, or in a row of the bench.
#[derive(Clone, Copy)]
pub(crate) enum Operand {
    Points(u32),
    Row(u32),
}

/// A gate of at most two pins, as a settle takes it. A pin that it doesn't have has some net's lanes, and the function doesn't look
/// at them. The function is a sum modulo 2, as a number below 16: 1 for a constant, 2 for the first bit, 4 for the second, 8 for
/// their product.
#[derive(Clone, Copy)]
pub(crate) struct TwoPins {
    /// The word at which the lanes of the first pin start.
    pub first: u32,
    /// The word at which those of the second pin start.
    pub second: u32,
    /// Whether the lanes of the first pin are in the rows, else among those of the points.
    pub first_in_rows: bool,
    /// Whether those of the second pin are in the rows.
    pub second_in_rows: bool,
    /// The place at which the masks of the function start: ten times its number.
    pub masks: u8,
}

/// A gate of any number of pins.
#[derive(Clone, Copy)]
pub(crate) struct ManyPins {
    /// Its place among such gates: there its rows of terms stand.
    pub place: u32,
    /// Whether they are the on-set.
    pub on: bool,
}

/// What a step of a settle does. The parts of a gate stand here one by one, so that the tag and the small ones share a word.
#[derive(Clone, Copy)]
pub(crate) enum Operation {
    Two {
        first_in_rows: bool,
        second_in_rows: bool,
        masks: u8,
        first: u32,
        second: u32,
    },
    Many {
        on: bool,
        place: u32,
    },
}

/// A step of a settle: it writes the lanes of the net that a node drives.
#[derive(Clone, Copy)]
pub(crate) struct Step {
    /// The number of the net.
    pub driver: u32,
    /// The word at which the net's row starts.
    pub to: u32,
    /// How the lanes are got.
    pub operation: Operation,
}

// A bench keeps a step for each node.
const _: () = prove!(size_of::<Step>() == 20);

// And a term for each literal of a cover of more than two pins.
const _: () = prove!(size_of::<Term>() == 8);

/// One literal of a cover's row.
#[derive(Clone, Copy)]
pub(crate) struct Term {
    /// Where the lanes of its pin are: the number of the row, or of the net among the points' lanes.
    pub number: u32,
    /// Whether they are in a row.
    pub in_rows: bool,
    /// The pin that it reads, counted from 0.
    pub pin: u8,
    /// The bit that it wants there.
    pub wants: bool,
}

/// The literals of a cover's row.
pub(crate) type TermList = Items<Term>;

/// Members of a list.
#[derive(Clone, Copy)]
pub(crate) struct ListRange {
    /// The place of the first one.
    pub start: usize,
    /// The place after the last one.
    pub end: usize,
}
