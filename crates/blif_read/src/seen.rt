//! What matters of the lines before a line.
ghost use Rattle.std.specs.Prelude.{◌≡◌, [], None};
ghost use Rattle.blif_read.specs.Rows.{output_of};
ghost use Rattle.blif_read.specs.Seen.{seen_behind, seen_of, with_row};
ghost use Rattle.blif_read.specs.Faults.{fault_of, IsWithin};

use crate::kinds::{Kind, LineKind, is_word, word_or_empty};
use tsc_text::TextLine;

/// A cover whose rows may come.
#[derive(Clone, Copy)]
pub struct OpenCover {
    /// The number of its pins.
    pub width: usize,
    /// What its first row gives, once there is one.
    pub first: Option<bool>,
}

/// What matters of the lines before a line.
#[derive(Clone, Copy)]
pub struct Seen {
    /// Whether there was a `.model`.
    pub has_model: bool,
    /// Whether there was a plan line.
    pub has_plan: bool,
    /// The cover to which a row would belong.
    pub cover: Option<OpenCover>,
    /// The number of inputs.
    pub inputs: usize,
    /// The number of outputs.
    pub outputs: usize,
    /// The number of nodes.
    pub nodes: usize,
    /// The number of latches.
    pub latches: usize,
}

impl Seen {
    /// Before the first line.
    pub fn new() -> Seen
        ensures start { result ≡ seen_of [] }
        ensures within { (kind : Kind) → IsWithin kind result }
    {
        Seen {
            has_model: false,
            has_plan: false,
            cover: None,
            inputs: 0,
            outputs: 0,
            nodes: 0,
            latches: 0,
        }
    }

    /// After one more line of that kind.
    pub fn behind(self, kind: Kind, line_kind: LineKind, line: &TextLine) -> Seen
        requires within { IsWithin kind self }
        requires sound { fault_of kind self line_kind line.now ≡ None }
        ensures seen { result ≡ seen_behind self line_kind line.now }
        ensures within { IsWithin kind result }
    {
        let mut seen = self;
        let more = line.words().saturating_sub(1);
        match line_kind {
            LineKind::PlanLine => seen.has_plan = true,
            LineKind::Row => seen.cover = with_row(self.cover, row_output(line)),
            LineKind::Names => {
                seen.nodes += 1;
                seen.cover = Some(OpenCover {
                    width: more.saturating_sub(1),
                    first: None,
                });
            }
            LineKind::Inputs => {
                seen.inputs += more;
                seen.cover = None;
            }
            LineKind::Outputs => {
                seen.outputs += more;
                seen.cover = None;
            }
            LineKind::Latch => {
                seen.latches += 1;
                seen.cover = None;
            }
            LineKind::Model => {
                seen.has_model = true;
                seen.cover = None;
            }
            LineKind::OtherDirective => seen.cover = None,
        }
        seen
    }
}

/// The open cover after a row with this output.
fn with_row(cover: Option<OpenCover>, output: bool) -> Option<OpenCover>
    ensures cover { result ≡ with_row cover output }
{
    let open = cover?;
    Some(OpenCover {
        width: open.width,
        first: match open.first {
            None => Some(output),
            Some(first) => Some(first),
        },
    })
}

/// Whether the output of a row is `1`.
pub fn row_output(line: &TextLine) -> bool
    ensures output { result ≡ output_of line.now }
{
    if line.words() < 2 {
        is_word(word_or_empty(line, 0), b"1")
    } else {
        is_word(line.word(1), b"1")
    }
}
