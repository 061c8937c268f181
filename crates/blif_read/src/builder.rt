//! Collecting the parts of a netlist, line by line.
ghost use Rattle.std.specs.Prelude.{◌≡◌, ◌+◌, ◌^◌, ◌<◌, ◌≤◌, [], ◌∷◌, length, drop, All, IfOk, OnOk};
ghost use Rattle.tsc_net.specs.Parts.{no_parts, with_name};
ghost use Rattle.tsc_net.specs.PartsView.{text_of, texts_of, IsName};
ghost use Rattle.blif_read.specs.LineKind.{kind_of, names_of, pins_of};
ghost use Rattle.blif_read.specs.NamedText.{latch_at, name_or, node_at};
ghost use Rattle.blif_read.specs.Clean.{IsCleanAt, IsCleanNode};
ghost use Rattle.blif_read.specs.Added.{with_inputs, with_latch, with_line, with_model_name, with_node, with_outputs};

use crate::cover_rows::cover_at;
use crate::kinds::{LineKind, is_word, kind_of};
use std::alloc::{AllocError, Global};
use std::marker::Model;
use tsc_io::{Items, TextKey};
use tsc_net::{Name, NameList, Parts};
use tsc_text::{SectionLines, TextLine};

/// The parts of a netlist.
#[derive(Drop)]
pub struct Builder {
    alloc: Global,
    parts: Parts,
}

impl Model for Builder {
    ghost use Rattle.tsc_net.specs.Parts.{PartsOf};
    ghost use Rattle.std.specs.Prelude.{◌≡◌, None};

    ghost Value = { PartsOf };

    ghost view = { λ b. b.parts };

    ghost invariant = { λ b. b.parts.fresh ≡ None };
}

impl Builder {
    /// No part yet, under the key of the text that is read.
    pub fn new(alloc: Global, key: TextKey) -> Builder
        ensures empty { result ≡ no_parts }
    {
        Builder {
            alloc,
            parts: Parts::keyed(alloc, key),
        }
    }

    /// The parts.
    pub fn finish(self) -> Parts
        ensures parts { result ≡ self }
    {
        self.parts
    }

    /// The name with this text.
    fn name(&mut self, text: &[u8]) -> Result<Name, AllocError>
        requires room { length self.old.names + 1 < 2 ^ 32 }
        ensures ok { OnOk result (self.new ≡ with_name self.old text.now) }
        ensures name { IfOk result (IsName self.new.names) }
        ensures text { IfOk result (λ name. text_of self.new.names name ≡ text.now) }
        ensures few { length self.new.names ≤ length self.old.names + 1 }
    {
        self.parts.name(text)
    }

    /// Adds an input.
    fn input(&mut self, text: &[u8]) -> Result<(), AllocError>
        requires room { length self.old.names + 1 < 2 ^ 32 }
        ensures named { OnOk result (self.new.named ≡ with_inputs self.old.named (text.now ∷ [])) }
        ensures few { length self.new.names ≤ length self.old.names + 1 }
    {
        let name = self.name(text)?;
        self.parts.input(name)
    }

    /// Adds an output.
    fn output(&mut self, text: &[u8]) -> Result<(), AllocError>
        requires room { length self.old.names + 1 < 2 ^ 32 }
        ensures named { OnOk result (self.new.named ≡ with_outputs self.old.named (text.now ∷ [])) }
        ensures few { length self.new.names ≤ length self.old.names + 1 }
    {
        let name = self.name(text)?;
        self.parts.output(name)
    }

    /// Adds the names of a line to the inputs.
    fn inputs(&mut self, line: &TextLine) -> Result<(), AllocError>
        requires room { length self.old.names + length line.now.words < 2 ^ 32 }
        ensures named { OnOk result (self.new.named ≡ with_inputs self.old.named (names_of line.now)) }
        ensures few { OnOk result (length self.new.names ≤ length self.old.names + length line.now.words) }
    {
        for place in 1..line.words() {
            self.input(line.word(place))?;
        }
        Ok(())
    }

    /// Adds the names of a line to the outputs.
    fn outputs(&mut self, line: &TextLine) -> Result<(), AllocError>
        requires room { length self.old.names + length line.now.words < 2 ^ 32 }
        ensures named { OnOk result (self.new.named ≡ with_outputs self.old.named (names_of line.now)) }
        ensures few { OnOk result (length self.new.names ≤ length self.old.names + length line.now.words) }
    {
        for place in 1..line.words() {
            self.output(line.word(place))?;
        }
        Ok(())
    }

    /// Gives the model the name of a line, if it has one.
    fn model(&mut self, line: &TextLine) -> Result<(), AllocError>
        ensures named { OnOk result (self.new.named ≡ with_model_name self.old.named (name_or self.old.named.model (names_of line.now))) }
        ensures few { OnOk result (length self.new.names ≤ length self.old.names) }
    {
        if line.words() < 2 {
            return Ok(());
        }
        self.parts.model(line.word(1))
    }

    /// Adds the latch of a line.
    fn latch(&mut self, line: &TextLine) -> Result<(), AllocError>
        requires words { 3 ≤ length line.now.words }
        requires room { length self.old.names + length line.now.words < 2 ^ 32 }
        ensures named { OnOk result (self.new.named ≡ with_latch self.old.named (latch_at line.now)) }
        ensures few { OnOk result (length self.new.names ≤ length self.old.names + length line.now.words) }
    {
        let reads = self.name(line.word(1))?;
        let out = self.name(line.word(2))?;
        let init = is_word(line.word(line.words() - 1), b"1");
        self.parts.latch(reads, out, init)
    }

    /// The names at the pins of a line of `.names`.
    fn pins(&mut self, line: &TextLine) -> Result<NameList, AllocError>
        requires words { 2 ≤ length line.now.words }
        requires room { length self.old.names + length line.now.words < 2 ^ 32 }
        ensures named { OnOk result (self.new.named ≡ self.old.named) }
        ensures texts { IfOk result (λ reads. texts_of self.new.names reads ≡ pins_of line.now) }
        ensures own { IfOk result (All (IsName self.new.names)) }
        ensures few { OnOk result (length self.new.names + 1 ≤ length self.old.names + length line.now.words) }
    {
        let mut reads = Items::new(self.alloc);
        for place in 1..line.words() - 1 {
            let name = self.name(line.word(place))?;
            reads.push(name)?;
        }
        Ok(reads)
    }

    /// Adds the node of a line of `.names` and of the rows from `behind` on.
    fn node(
        &mut self,
        line: &TextLine,
        section: &SectionLines,
        behind: usize,
    ) -> Result<(), AllocError>
        requires behind { behind ≤ length section.now }
        requires clean { IsCleanNode line.now (drop behind section.now) }
        requires room { length self.old.names + length line.now.words < 2 ^ 32 }
        ensures named { OnOk result (self.new.named ≡ with_node self.old.named (node_at line.now (drop behind section.now))) }
        ensures few { OnOk result (length self.new.names ≤ length self.old.names + length line.now.words) }
    {
        let words = line.words();
        let reads = self.pins(line)?;
        let out = self.name(line.word(words - 1))?;
        let cover = cover_at(self.alloc, words - 2, section, behind)?;
        self.parts.node(reads, out, cover)?;
        Ok(())
    }

    /// Adds what a line gives, after which the lines from `behind` on stand.
    pub fn line(
        &mut self,
        line: &TextLine,
        section: &SectionLines,
        behind: usize,
    ) -> Result<(), AllocError>
        requires behind { behind ≤ length section.now }
        requires clean { IsCleanAt (kind_of line.now) line.now (drop behind section.now) }
        requires room { length self.old.names + length line.now.words < 2 ^ 32 }
        ensures named { OnOk result (self.new.named ≡ with_line self.old.named (kind_of line.now) line.now (drop behind section.now)) }
        ensures few { OnOk result (length self.new.names ≤ length self.old.names + length line.now.words) }
    {
        match kind_of(line) {
            LineKind::Model => self.model(line),
            LineKind::Inputs => self.inputs(line),
            LineKind::Outputs => self.outputs(line),
            LineKind::Latch => self.latch(line),
            LineKind::Names => self.node(line, section, behind),
            LineKind::PlanLine | LineKind::OtherDirective | LineKind::Row => Ok(()),
        }
    }
}
