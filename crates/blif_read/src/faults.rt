//! Why a line is refused, after what was seen.
ghost use Rattle.std.specs.Prelude.{◌≡◌, [], ◌∷◌, length, nat_lt, ◌&&◌, ◌==◌};
ghost use Rattle.tsc_cover.specs.Text.{is_row_text};
ghost use Rattle.blif_read.specs.LineKind.{names_of};
ghost use Rattle.blif_read.specs.Rows.{has_row_shape, is_bit_word};
ghost use Rattle.blif_read.specs.Faults.{fault_of, has_any_init, has_init, has_latch_shape, is_latch_type, is_mixed, latch_fault, latch_limit, limit, limit_in, model_fault, most_latches, most_nodes, most_outputs, names_fault, plan_line_fault, row_fault};

use crate::cause::Cause;
use crate::kinds::{Kind, LineKind, is_word, word_or_empty};
use crate::limits::{Tally, is_long, limit_in};
use crate::plan_lines::{has_any_shape, has_plan_shape};
use crate::seen::{OpenCover, Seen, row_output};
use tsc_cover::is_row_text;
use tsc_text::{TextLine, Which};

/// The greatest number of outputs.
fn most_outputs(kind: Kind) -> usize
    ensures most { result ≡ most_outputs kind }
{
    match kind {
        Kind::Source | Kind::Registers => 64,
        Kind::Netlist | Kind::AnyPlan | Kind::Unplanned => 66,
    }
}

/// The greatest number of nodes.
fn most_nodes(kind: Kind) -> usize
    ensures most { result ≡ most_nodes kind }
{
    match kind {
        Kind::Source | Kind::Registers => 16384,
        Kind::Netlist | Kind::AnyPlan | Kind::Unplanned => 1_048_576,
    }
}

/// The greatest number of latches.
fn most_latches(kind: Kind) -> usize
    ensures most { result ≡ most_latches kind }
{
    match kind {
        Kind::Registers => 16384,
        Kind::AnyPlan | Kind::Unplanned => 32768,
        Kind::Source | Kind::Netlist => 64,
    }
}

/// The fault of a line of that kind, with the lowest number where it has several.
pub fn fault_of(kind: Kind, seen: &Seen, line_kind: LineKind, line: &TextLine) -> Option<Cause>
    ensures fault { result ≡ fault_of kind seen.now line_kind line.now }
{
    match line_kind {
        LineKind::PlanLine => plan_line_fault(kind, seen, line),
        LineKind::Model => model_fault(seen, line),
        LineKind::Inputs => {
            let tally = Tally {
                which: Which::Inputs,
                most: 1024,
                count: seen.inputs,
            };
            names_limit(tally, line)
        }
        LineKind::Outputs => {
            let tally = Tally {
                which: Which::Outputs,
                most: most_outputs(kind),
                count: seen.outputs,
            };
            names_limit(tally, line)
        }
        LineKind::Names => names_fault(kind, seen, line),
        LineKind::Latch => latch_fault(kind, seen, line),
        LineKind::OtherDirective => Some(Cause::Unsupported),
        LineKind::Row => row_fault(seen.cover, line),
    }
}

/// A limit as a cause.
fn limit(which: Option<Which>) -> Option<Cause>
    ensures cause { result ≡ limit which }
{
    which.map(Cause::Limit)
}

/// The limit that the names of a line pass.
fn names_limit(tally: Tally, line: &TextLine) -> Option<Cause>
    ensures limit { result ≡ limit (limit_in tally.which tally.most tally.count (names_of line.now)) }
{
    let words = line.words();
    if words == 0 {
        return None;
    }
    limit(limit_in(tally, line, 1, words))
}

/// The fault of a line of `.model`.
fn model_fault(seen: &Seen, line: &TextLine) -> Option<Cause>
    ensures fault { result ≡ model_fault seen.now line.now }
{
    if seen.has_model {
        Some(Cause::Unsupported)
    } else if line.words() > 2 {
        Some(Cause::WordCount)
    } else if is_long(word_or_empty(line, 1)) {
        Some(Cause::Limit(Which::NameBytes))
    } else {
        None
    }
}

/// The limit that one name passes, which is counted.
fn name_limit(tally: Tally, name: &[u8]) -> Option<Which>
    ensures limit { result ≡ limit_in tally.which tally.most tally.count (name.now ∷ []) }
{
    if is_long(name) {
        Some(Which::NameBytes)
    } else if tally.count >= tally.most {
        Some(tally.which)
    } else {
        None
    }
}

/// The fault of a line of `.names`.
fn names_fault(kind: Kind, seen: &Seen, line: &TextLine) -> Option<Cause>
    ensures fault { result ≡ names_fault kind seen.now line.now }
{
    let words = line.words();
    if words < 2 {
        return Some(Cause::WordCount);
    }
    let pins = Tally {
        which: Which::Pins,
        most: 64,
        count: 0,
    };
    let nodes = Tally {
        which: Which::Nodes,
        most: most_nodes(kind),
        count: seen.nodes,
    };
    match limit_in(pins, line, 1, words - 1) {
        Some(which) => Some(Cause::Limit(which)),
        None => limit(name_limit(nodes, line.word(words - 1))),
    }
}

/// Whether the word is the type of a latch.
fn is_latch_type(word: &[u8]) -> bool
    ensures latch_type { result ≡ is_latch_type word.now }
{
    is_word(word, b"fe")
        || is_word(word, b"re")
        || is_word(word, b"ah")
        || is_word(word, b"al")
        || is_word(word, b"as")
}

/// Whether the word is `0` or `1`.
fn is_bit_word(word: &[u8]) -> bool
    ensures bit { result ≡ is_bit_word word.now }
{
    is_word(word, b"0") || is_word(word, b"1")
}

/// Whether a latch has its words.
pub fn has_latch_shape(line: &TextLine) -> bool
    ensures shape { result ≡ has_latch_shape line.now }
{
    let words = line.words();
    3 <= words && words <= 6 && (words < 5 || is_latch_type(line.word(3)))
}

/// Whether the last word of a latch is the bit that it holds first.
fn has_init(line: &TextLine) -> bool
    ensures init { result ≡ has_init line.now }
{
    let words = line.words();
    (words == 4 || words == 6) && is_bit_word(line.word(words - 1))
}

/// Whether the last word of a latch is the bit that it holds first, or says that either bit will do.
fn has_any_init(line: &TextLine) -> bool
    ensures init { result ≡ has_any_init line.now }
{
    let words = line.words();
    (words == 4 || words == 6)
        && (is_bit_word(line.word(words - 1)) || is_word(line.word(words - 1), b"2"))
}

/// The fault of a line of `.latch`.
fn latch_fault(kind: Kind, seen: &Seen, line: &TextLine) -> Option<Cause>
    ensures fault { result ≡ latch_fault kind seen.now line.now }
{
    if !has_latch_shape(line) {
        return Some(Cause::WordCount);
    }
    let has_init = match kind {
        Kind::Source => return Some(Cause::LatchInSource),
        Kind::Registers => has_any_init(line),
        Kind::Netlist | Kind::AnyPlan | Kind::Unplanned => has_init(line),
    };
    if has_init {
        limit(latch_limit(kind, seen, line))
    } else {
        Some(Cause::LatchInit)
    }
}

/// The limit that the names of a latch or the count of latches pass.
fn latch_limit(kind: Kind, seen: &Seen, line: &TextLine) -> Option<Which>
    ensures limit { result ≡ latch_limit kind seen.now line.now }
{
    if is_long(word_or_empty(line, 1)) {
        return Some(Which::NameBytes);
    }
    let latches = Tally {
        which: Which::Latches,
        most: most_latches(kind),
        count: seen.latches,
    };
    name_limit(latches, word_or_empty(line, 2))
}

/// Whether there is a pin, and the word has one character per pin.
fn has_pins(width: usize, input: &[u8]) -> bool
    ensures pins { result ≡ ((nat_lt 0 width && length input.now == width) && is_row_text input.now) }
{
    width > 0 && input.len() == width && is_row_text(input)
}

/// Whether a line is a row of a cover with that many pins.
fn has_row_shape(width: usize, line: &TextLine) -> bool
    ensures shape { result ≡ has_row_shape width line.now.words }
{
    match line.words() {
        1 => width == 0 && is_bit_word(line.word(0)),
        2 => { has_pins(width, line.word(0)) && is_bit_word(line.word(1)) }
        _ => false,
    }
}

/// The fault of a row.
fn row_fault(cover: Option<OpenCover>, line: &TextLine) -> Option<Cause>
    ensures fault { result ≡ row_fault cover line.now }
{
    match cover {
        None => Some(Cause::RowOutside),
        Some(open) => {
            if !has_row_shape(open.width, line) {
                Some(Cause::RowShape)
            } else if is_mixed(open.first, row_output(line)) {
                Some(Cause::Mixed)
            } else {
                None
            }
        }
    }
}

/// Whether an output isn't that of the cover's first row.
fn is_mixed(first: Option<bool>, output: bool) -> bool
    ensures mixed { result ≡ is_mixed first output }
{
    match first {
        None => false,
        Some(first) => first != output,
    }
}

/// The fault of a plan line.
fn plan_line_fault(kind: Kind, seen: &Seen, line: &TextLine) -> Option<Cause>
    ensures fault { result ≡ plan_line_fault kind seen.now line.now }
{
    match kind {
        Kind::Source | Kind::Registers | Kind::Unplanned => None,
        Kind::Netlist => {
            if has_plan_shape(line, seen.has_plan) {
                None
            } else {
                Some(Cause::PlanShape)
            }
        }
        Kind::AnyPlan => {
            if has_any_shape(line, seen.has_plan) {
                None
            } else {
                Some(Cause::PlanShape)
            }
        }
    }
}
