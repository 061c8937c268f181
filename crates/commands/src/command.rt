//! Commands on a text that is read.
ghost use Rattle.std.specs.Prelude.{◌≡◌, ◌<◌, length, option_map, true, IfErr, IfOk};
ghost use Rattle.commands.specs.Meaning.{blif_synthesis_named, command_named};
ghost use Rattle.commands.specs.SimWords.{has_fault_form, sim_fault};
ghost use Rattle.commands.specs.Words.{are_two, begin_so, format_named, is_only, machine_code_named, rows_named, way_named, word_at, word_is};

use crate::machine_code::MachineCode;
use crate::row_count::{RowCount, rows_named};
use crate::sim_words::{SimFault, sim_fault};
use crate::source_format::SourceFormat;
use std::alloc::{AllocError, Global};
use synth_ways::Way;
use tsc_io::Words;

/// A command on a text that is read.
#[derive(Drop)]
pub enum Command {
    /// `synth blif parity`, `synth blif duplex`, `synth blif berger` or `synth blif mofn`: from a BLIF source to a netlist made in this way.
    /// `duplex` takes registers too.
    SynthBlif(Way),
    /// `synth blif watched`: from a BLIF source, with or without registers, to a netlist of two copies whose registers are watched.
    SynthWatched,
    /// `synth kiss berger` or `synth kiss mofn`: from a KISS2 source to a netlist under this code.
    SynthKiss(MachineCode),
    /// `synth pla parity`, `synth pla duplex`, `synth pla berger` or `synth pla mofn`: from a PLA source to a netlist made in this way.
    SynthPla(Way),
    /// `audit blif`, `audit kiss` or `audit pla`: from a source with a netlist after it to a verdict.
    Audit(SourceFormat),
    /// `audit wide ROWS`: from a BLIF source with a netlist without latches after it to a verdict, whatever the number of inputs, by decision
    /// diagrams of at most so many rows.
    AuditWide(RowCount),
    /// `audit exact blif`, `audit exact kiss` or `audit exact pla`: from a source with a netlist after it to whether this follows it, and no one
    /// failing cell makes a wrong output or next bit without an alarm, at any listed state and input.
    AuditExact(SourceFormat),
    /// `audit mapped`: from a netlist with a mapped one after it to whether this is the first one mapped cover by cover.
    AuditMapped,
    /// `audit proof`: from a BLIF source with a netlist after it, and after this a refutation of the exact question of both, to whether the netlist
    /// follows the source and each failing cell is heard.
    AuditProof,
    /// `ask exact`: from a BLIF source with a netlist after it to the exact question of both, as clauses.
    AskExact,
    /// `faults`: from a netlist to its fault list.
    Faults,
    /// `vectors`: from a netlist to its test vectors.
    Vectors,
    /// `grade`: from a netlist with step lines after it to what they show of each listed fault.
    Grade,
    /// `sim ..`: from a netlist with step lines after it to one line per step, under this fault.
    Sim(SimFault),
    /// `join`: from netlists one after another to the one netlist of all of them, with one pair of rails.
    Join,
}

/// The command on a text that the words after the program's name ask for, if they ask for one.
pub fn command_of(alloc: Global, words: &Words) -> Result<Option<Command>, AllocError>
    ensures command { IfOk result (λ command. command ≡ command_named words.now) }
    ensures memory { IfErr result (λ error. has_fault_form words.now ≡ true) }
{
    if begin_so(words, b"synth", b"blif") {
        Ok(blif_synthesis_named(word_at(words, 2)))
    } else if begin_so(words, b"synth", b"kiss") {
        Ok(machine_code_named(word_at(words, 2)).map(Command::SynthKiss))
    } else if begin_so(words, b"synth", b"pla") {
        Ok(way_named(word_at(words, 2)).map(Command::SynthPla))
    } else if are_two(words, b"audit", b"blif") {
        Ok(Some(Command::Audit(SourceFormat::Blif)))
    } else if are_two(words, b"audit", b"kiss") {
        Ok(Some(Command::Audit(SourceFormat::Kiss)))
    } else if are_two(words, b"audit", b"pla") {
        Ok(Some(Command::Audit(SourceFormat::Pla)))
    } else if begin_so(words, b"audit", b"wide") {
        Ok(rows_named(word_at(words, 2)).map(Command::AuditWide))
    } else if begin_so(words, b"audit", b"exact") {
        Ok(format_named(word_at(words, 2)).map(Command::AuditExact))
    } else if are_two(words, b"audit", b"mapped") {
        Ok(Some(Command::AuditMapped))
    } else if are_two(words, b"ask", b"exact") {
        Ok(Some(Command::AskExact))
    } else if are_two(words, b"audit", b"proof") {
        Ok(Some(Command::AuditProof))
    } else if is_only(words, b"faults") {
        Ok(Some(Command::Faults))
    } else if is_only(words, b"vectors") {
        Ok(Some(Command::Vectors))
    } else if is_only(words, b"grade") {
        Ok(Some(Command::Grade))
    } else if is_only(words, b"join") {
        Ok(Some(Command::Join))
    } else {
        sim_of(alloc, words)
    }
}

/// The format of a source that a word names.
fn format_named(word: &[u8]) -> Option<SourceFormat>
    ensures format { result ≡ format_named word.now }
{
    if word == b"blif".as_slice() {
        Some(SourceFormat::Blif)
    } else if word == b"kiss".as_slice() {
        Some(SourceFormat::Kiss)
    } else if word == b"pla".as_slice() {
        Some(SourceFormat::Pla)
    } else {
        None
    }
}

/// The code of machines' netlists that a word names.
fn machine_code_named(word: &[u8]) -> Option<MachineCode>
    ensures code { result ≡ machine_code_named word.now }
{
    if word == b"berger".as_slice() {
        Some(MachineCode::Berger)
    } else if word == b"mofn".as_slice() {
        Some(MachineCode::MOutOfN)
    } else {
        None
    }
}

/// The synthesis of a BLIF source that a word names.
fn blif_synthesis_named(word: &[u8]) -> Option<Command>
    ensures command { result ≡ blif_synthesis_named word.now }
{
    if word == b"watched".as_slice() {
        Some(Command::SynthWatched)
    } else {
        way_named(word).map(Command::SynthBlif)
    }
}

/// The way of synthesis that a word names.
fn way_named(word: &[u8]) -> Option<Way>
    ensures way { result ≡ way_named word.now }
{
    if word == b"parity".as_slice() {
        Some(Way::Parity)
    } else if word == b"duplex".as_slice() {
        Some(Way::Duplex)
    } else if word == b"berger".as_slice() {
        Some(Way::Berger)
    } else if word == b"mofn".as_slice() {
        Some(Way::MOutOfN)
    } else {
        None
    }
}

/// What the words of a simulation ask for, if they are such.
fn sim_of(alloc: Global, words: &Words) -> Result<Option<Command>, AllocError>
    ensures command { IfOk result (λ command. command ≡ option_map Command.Sim (sim_fault words.now)) }
    ensures memory { IfErr result (λ error. has_fault_form words.now ≡ true) }
{
    Ok(sim_fault(alloc, words)?.map(Command::Sim))
}

/// Whether the word is this.
pub(crate) fn is_only(words: &Words, first: &[u8]) -> bool
    ensures same { result ≡ is_only words.now first.now }
{
    words.len() == 1 && word_is(words, 0, first)
}

/// Whether the words are these two.
fn are_two(words: &Words, first: &[u8], second: &[u8]) -> bool
    ensures same { result ≡ are_two words.now first.now second.now }
{
    words.len() == 2 && word_is(words, 0, first) && word_is(words, 1, second)
}

/// Whether there are three words, and the first are these two.
fn begin_so(words: &Words, first: &[u8], second: &[u8]) -> bool
    ensures same { result ≡ begin_so words.now first.now second.now }
    ensures count { result ≡ true → length words.now ≡ 3 }
{
    words.len() == 3 && word_is(words, 0, first) && word_is(words, 1, second)
}

/// The word at `place`, counted from 0.
pub fn word_at(words: &Words, place: usize) -> &[u8]
    requires within { place < length words.now }
    ensures word { result.now ≡ word_at words.now place }
{
    words.get(place).as_slice()
}

/// Whether the word at `place`, counted from 0, is this text.
pub fn word_is(words: &Words, place: usize, text: &[u8]) -> bool
    requires within { place < length words.now }
    ensures same { result ≡ word_is words.now place text.now }
{
    words.get(place).as_slice() == text
}
