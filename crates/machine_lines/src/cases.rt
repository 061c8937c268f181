//! The cases of a machine.
ghost use Rattle.std.specs.Prelude.{◌≡◌, ◌+◌, ◌<◌, ◌≤◌, length};
ghost use Rattle.tsc_bits.specs.Bits.{bits_of};
ghost use Rattle.fault_secure.specs.CodePlan.{HasWidth, IsUnorderedCode};
ghost use Rattle.machine_lines.specs.Cases.{word_of, case_word, has_one};

use crate::checks::check_number;
use crate::widths::Widths;
use gate_net::Line;
use state_code::StateCode;
use tsc_cover::bit_at;
use tsc_io::Items;
use tsc_net::Code;

/// A case of a machine: a row at a state, or no row at a state, and what is answered there. Of n bits the first is worth
/// `2^(n-1)`.
#[derive(Clone, Copy)]
pub struct Case {
    /// The line that is 1 where the state's word is decoded.
    pub decoded: Line,
    /// The line that is 1 where the row matches the input bits, or where no row does.
    pub line: Line,
    /// The outputs that are answered.
    pub outputs: u64,
    /// The check of these outputs.
    pub check: u64,
    /// The word of the next state.
    pub next: u64,
}

/// A list of cases.
pub type CaseList = Items<Case>;

/// Whether a case answers with a 1 at a place of the word.
pub fn has_one(case: &Case, widths: Widths, place: usize) -> bool
    requires outputs { widths.outputs ≤ 64 }
    requires checks { widths.checks ≤ 64 }
    requires bits { widths.bits ≤ 64 }
    requires within { place < widths.outputs + widths.checks + widths.bits }
    ensures bit { result ≡ has_one widths place case.now }
{
    let outputs = widths.outputs;
    let checked = outputs + widths.checks;
    if place < outputs {
        return bit_at(case.outputs, outputs - 1 - place);
    }
    if place < checked {
        return bit_at(case.check, checked - 1 - place);
    }
    bit_at(case.next, checked + widths.bits - 1 - place)
}

/// The case of these lines, with these outputs and this next state.
pub fn case_of(
    decoded: Line,
    line: Line,
    outputs: u64,
    next: u32,
    codes: &StateCode,
    code: Code,
    widths: Widths,
) -> Case
    requires unordered { IsUnorderedCode code }
    requires some { 0 < widths.outputs }
    requires most { widths.outputs ≤ 64 }
    requires checks { HasWidth code widths.outputs widths.checks }
    requires state { next < length codes.now.words.words }
    ensures decoded { result.decoded ≡ decoded }
    ensures line { result.line ≡ line }
    ensures outputs { result.outputs ≡ outputs }
    ensures word { case_word widths result ≡ word_of code widths.checks widths.bits codes.now.words.words (bits_of widths.outputs outputs) next }
{
    Case {
        decoded,
        line,
        outputs,
        check: check_number(code, widths.outputs, outputs),
        next: *codes.words.get(next as usize),
    }
}
