//! The clock of registers: the type and the control of their lines.
ghost use Rattle.std.specs.Prelude.{◌≡◌, IfOk};
ghost use Rattle.std.specs.List.{list_any};
ghost use Rattle.std.specs.Str.{bytes_eq};
ghost use Rattle.blif_read.specs.LineKind.{names_of};
ghost use Rattle.blif_read.specs.Clocks.{clock_at, clock_misfit, clock_text, edge_of, first_latch, first_misfit, fits_clock, has_clock, is_edge, is_latch, is_misfit, is_used_clock, used_clock, uses_net};

use crate::faults::has_latch_shape;
use crate::kinds::{Kind, LineKind, is_word, kind_of, word_or_empty};
use std::alloc::{AllocError, Global};
use tsc_io::Bytes;
use tsc_text::{SectionLines, TextLine};

/// The edge of a clock at which registers take their next bits.
#[derive(Clone, Copy, Debug, PartialEq, Eq)]
pub enum Edge {
    /// From 0 to 1: `re`.
    Rising,
    /// From 1 to 0: `fe`.
    Falling,
}

/// The clock of all registers of a section.
#[derive(Debug, Drop)]
pub struct Clock {
    /// The edge at which they take their next bits.
    pub edge: Edge,
    /// The name of the clock.
    pub control: Bytes,
}

/// Whether the kind is that of `.latch`.
fn is_latch(kind: LineKind) -> bool
    ensures latch { result ≡ is_latch kind }
{
    match kind {
        LineKind::Latch => true,
        _ => false,
    }
}

/// The first line of a latch. It takes no memory.
#[tactic(auto, using(crate::proofs::ClockWalk::latch_here, crate::proofs::ClockWalk::latch_later, crate::proofs::ClockWalk::latch_end))]
pub fn first_latch<'a>(section: &SectionLines<'a>) -> Option<TextLine<'a>>
    ensures line { result ≡ first_latch section.now }
{
    for place in 0..section.len() {
        let line = section.line(place);
        if is_latch(kind_of(&line)) {
            return Some(line);
        }
    }
    None
}

/// Whether the line of a latch has a type and a control.
fn has_clock(line: &TextLine) -> bool
    ensures clock { result ≡ has_clock line.now }
{
    line.words() >= 5
}

/// Whether the type is that of an edge.
fn is_edge(word: &[u8]) -> bool
    ensures edge { result ≡ is_edge word.now }
{
    is_word(word, b"re") || is_word(word, b"fe")
}

/// Whether the clock of a latch is that of the first one.
fn fits_clock(first: &TextLine, line: &TextLine) -> bool
    ensures fits { result ≡ fits_clock first.now line.now }
{
    if !has_clock(line) {
        return !has_clock(first);
    }
    let edge = word_or_empty(line, 3);
    has_clock(first)
        && is_edge(edge)
        && is_word(word_or_empty(first, 3), edge)
        && is_word(word_or_empty(first, 4), word_or_empty(line, 4))
}

/// Whether the line is that of a latch, with its words, whose clock doesn't fit.
fn is_misfit(first: &TextLine, line: &TextLine) -> bool
    ensures misfit { result ≡ is_misfit first.now line.now }
{
    is_latch(kind_of(line)) && has_latch_shape(line) && !fits_clock(first, line)
}

/// The number of the first line whose clock doesn't fit.
#[tactic(auto, using(crate::proofs::ClockWalk::misfit_here, crate::proofs::ClockWalk::misfit_later, crate::proofs::ClockWalk::misfit_end))]
fn first_misfit(section: &SectionLines, first: &TextLine) -> Option<usize>
    ensures line { result ≡ first_misfit first.now section.now }
{
    for place in 0..section.len() {
        let line = section.line(place);
        if is_misfit(first, &line) {
            return Some(line.number());
        }
    }
    None
}

/// The number of the first line whose clock doesn't fit that of the first latch. It takes no memory.
pub fn clock_misfit(section: &SectionLines) -> Option<usize>
    ensures line { result ≡ clock_misfit section.now }
{
    match first_latch(section) {
        None => None,
        Some(first) => first_misfit(section, &first),
    }
}

/// Whether a name stands among the words of a line after the first.
#[tactic(auto, using(crate::proofs::ClockWalk::name_here, crate::proofs::ClockWalk::name_later, crate::proofs::ClockWalk::name_end))]
fn has_name(name: &[u8], line: &TextLine) -> bool
    ensures found { result ≡ list_any (bytes_eq name.now) (names_of line.now) }
{
    for place in 1..line.words() {
        if is_word(name, line.word(place)) {
            return true;
        }
    }
    false
}

/// Whether a line gives or reads a net of this name.
fn uses_net(name: &[u8], line: &TextLine) -> bool
    ensures uses { result ≡ uses_net name.now line.now }
{
    match kind_of(line) {
        LineKind::Outputs | LineKind::Names => has_name(name, line),
        LineKind::Latch => {
            is_word(name, word_or_empty(line, 1)) || is_word(name, word_or_empty(line, 2))
        }
        _ => false,
    }
}

/// Whether some line gives or reads a net of this name.
#[tactic(auto, using(crate::proofs::ClockWalk::used_here, crate::proofs::ClockWalk::used_later, crate::proofs::ClockWalk::used_end))]
fn is_used(section: &SectionLines, name: &[u8]) -> bool
    ensures used { result ≡ list_any (uses_net name.now) section.now }
{
    for place in 0..section.len() {
        if uses_net(name, &section.line(place)) {
            return true;
        }
    }
    false
}

/// The number of the first line of a latch, where a cover or a latch gives its control, or a cover, a latch or an output
/// reads it. It takes no memory.
pub fn used_clock(section: &SectionLines) -> Option<usize>
    ensures line { result ≡ used_clock section.now }
{
    let first = first_latch(section)?;
    if has_clock(&first) && is_used(section, word_or_empty(&first, 4)) {
        Some(first.number())
    } else {
        None
    }
}

/// The edge of a type.
fn edge_of(word: &[u8]) -> Edge
    ensures edge { result ≡ edge_of word.now }
{
    if is_word(word, b"fe") {
        Edge::Falling
    } else {
        Edge::Rising
    }
}

/// The clock of the first latch, if there is one and it has one.
fn first_clock(alloc: Global, section: &SectionLines) -> Result<Option<Clock>, AllocError>
    ensures clock { IfOk result (λ clock. clock ≡ clock_at (first_latch section.now)) }
{
    match first_latch(section) {
        None => Ok(None),
        Some(first) => {
            if !has_clock(&first) {
                return Ok(None);
            }
            let control = Bytes::from_slice(alloc, word_or_empty(&first, 4))?;
            let edge = edge_of(word_or_empty(&first, 3));
            Ok(Some(Clock { edge, control }))
        }
    }
}

/// The clock of registers, and of a netlist whose plan may list no states; of other sections none is read.
///
/// # Errors
///
/// Want of memory.
pub fn clock_of(
    alloc: Global,
    section: &SectionLines,
    kind: Kind,
) -> Result<Option<Clock>, AllocError>
    ensures clock { IfOk result (λ clock. clock ≡ clock_text kind section.now) }
{
    match kind {
        Kind::Registers | Kind::AnyPlan => first_clock(alloc, section),
        Kind::Source | Kind::Netlist | Kind::Unplanned => Ok(None),
    }
}
