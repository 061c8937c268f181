//! A netlist by names, as it is collected.
ghost use Rattle.std.specs.Prelude.{◌≡◌, ◌+◌, ◌<◌, ◌^◌, false, length, All, IfOk, OnOk, OnErr};
ghost use Rattle.tsc_net.specs.Names.{place_of_text, has_text, text_at};
ghost use Rattle.tsc_net.specs.Named.{latch_outs};
ghost use Rattle.tsc_net.specs.Parts.{PartsOf, no_parts, with_name, with_model, with_input, with_output, with_latch, with_node, with_fresh, next_fresh, MayBeNamed};
ghost use Rattle.tsc_net.specs.PartsView.{text_of, texts_of, IsName};

use crate::fresh::{FreshPart, first_fresh, fresh_text};
use crate::ids::{Name, NameList};
use crate::names::NameTable;
use smallvec::SmallVec;
use std::alloc::{AllocError, Global};
use std::marker::Model;
use tsc_cover::Cover;
use tsc_io::{Bytes, Items, TextKey};

/// A latch by names.
#[derive(Clone, Copy)]
pub struct LatchPart {
    /// The name that it reads.
    pub reads: Name,
    /// The name that it drives.
    pub out: Name,
    /// The bit that it holds first.
    pub init: bool,
}

/// A node by names.
#[derive(Drop)]
pub struct NodePart {
    /// The names at its pins.
    pub reads: SmallVec<Name, 4>,
    /// The name that it drives.
    pub out: Name,
    /// What it makes of its pins.
    pub cover: Cover,
}

/// A netlist by names, as it is collected. Nothing of it is checked until `build`.
#[derive(Drop)]
pub struct Parts {
    alloc: Global,
    pub(crate) names: NameTable,
    pub(crate) model: Option<Bytes>,
    pub(crate) inputs: NameList,
    pub(crate) outputs: NameList,
    pub(crate) latches: Vec<LatchPart>,
    pub(crate) nodes: Vec<NodePart>,
    pub(crate) fresh: Option<FreshPart>,
}

impl Model for Parts {
    ghost use Rattle.tsc_net.specs.Named.{latch_outs};
    ghost use Rattle.tsc_net.specs.Parts.{PartsOf};

    ghost Value = { PartsOf };

    ghost use Rattle.tsc_net.specs.PartsView.{parts_of, KeepsNames};

    ghost view = { parts_of };

    ghost invariant = { KeepsNames };
}

impl Parts {
    /// No part yet; the model's name is `model`. It takes no memory.
    ///
    /// The names are keyed by the empty text. Names that stand in a text, or in a netlist, ask for `keyed`.
    pub fn new(alloc: Global) -> Parts
        ensures empty { result ≡ no_parts }
    {
        Parts::keyed(alloc, TextKey::of(&[]))
    }

    /// No part yet, under the key of the text that the names come from; the model's name is `model`. It takes no memory.
    pub fn keyed(alloc: Global, key: TextKey) -> Parts
        ensures empty { result ≡ no_parts }
    {
        Parts {
            alloc,
            names: NameTable::new(alloc, key),
            model: None,
            inputs: Items::new(alloc),
            outputs: Items::new(alloc),
            latches: Vec::new(alloc),
            nodes: Vec::new(alloc),
            fresh: None,
        }
    }

    /// The name with this text, the same one for the same text.
    ///
    /// # Errors
    ///
    /// Want of memory.
    pub fn name(&mut self, text: &[u8]) -> Result<Name, AllocError>
        requires room { length self.old.names + 1 < 2 ^ 32 }
        requires leaves_fresh { MayBeNamed self.old text.now }
        ensures ok { OnOk result (self.new ≡ with_name self.old text.now) }
        ensures number { IfOk result (λ name. name.number ≡ place_of_text self.old.names text.now) }
        ensures name { IfOk result (IsName self.new.names) }
        ensures text { IfOk result (λ name. text_of self.new.names name ≡ text.now) }
        ensures err { OnErr result (self.new ≡ self.old) }
    {
        let number = self.names.add(text)?;
        Ok(Name {
            number: number as u32,
        })
    }

    /// The next fresh name, which stood in no name before. The first one fixes how fresh names begin.
    ///
    /// # Errors
    ///
    /// Want of memory.
    pub fn fresh(&mut self) -> Result<Name, AllocError>
        requires room { length self.old.names + 1 < 2 ^ 32 }
        ensures ok { OnOk result (self.new ≡ with_fresh self.old) }
        ensures name { IfOk result (IsName self.new.names) }
        ensures number { IfOk result (λ name. name.number ≡ length self.old.names) }
        ensures text { IfOk result (λ name. text_of self.new.names name ≡ next_fresh self.old) }
        ensures is_new { OnOk result (has_text self.old.names (next_fresh self.old) ≡ false) }
        ensures err { OnErr result (self.new ≡ self.old) }
    {
        let fresh = match self.fresh {
            Some(fresh) => fresh,
            None => first_fresh(self.alloc, &self.names)?,
        };
        let text = fresh_text(self.alloc, fresh)?;
        let number = self.names.add(text.as_bytes())?;
        self.fresh = Some(FreshPart {
            number: fresh.number,
            next: fresh.next + 1,
        });
        Ok(Name {
            number: number as u32,
        })
    }

    /// Gives the model a name, in the place of an earlier one.
    ///
    /// # Errors
    ///
    /// Want of memory.
    pub fn model(&mut self, text: &[u8]) -> Result<(), AllocError>
        ensures ok { OnOk result (self.new ≡ with_model self.old text.now) }
        ensures err { OnErr result (self.new ≡ self.old) }
    {
        let model = Items::from_slice(self.alloc, text)?;
        self.model = Some(model);
        Ok(())
    }

    /// Adds an input.
    ///
    /// # Errors
    ///
    /// Want of memory.
    pub fn input(&mut self, name: Name) -> Result<(), AllocError>
        requires name { IsName self.old.names name }
        ensures ok { OnOk result (self.new ≡ with_input self.old (text_of self.old.names name)) }
        ensures err { OnErr result (self.new ≡ self.old) }
    {
        self.inputs.push(name)
    }

    /// Adds an output.
    ///
    /// # Errors
    ///
    /// Want of memory.
    pub fn output(&mut self, name: Name) -> Result<(), AllocError>
        requires name { IsName self.old.names name }
        ensures ok { OnOk result (self.new ≡ with_output self.old (text_of self.old.names name)) }
        ensures err { OnErr result (self.new ≡ self.old) }
    {
        self.outputs.push(name)
    }

    /// Adds a latch, which holds `init` first.
    ///
    /// # Errors
    ///
    /// Want of memory.
    pub fn latch(&mut self, reads: Name, out: Name, init: bool) -> Result<(), AllocError>
        requires reads { IsName self.old.names reads }
        requires out { IsName self.old.names out }
        ensures ok { OnOk result (self.new ≡ with_latch self.old (text_of self.old.names reads) (text_of self.old.names out) init) }
        ensures err { OnErr result (self.new ≡ self.old) }
    {
        self.latches.push(LatchPart { reads, out, init })?;
        Ok(())
    }

    /// Adds a node, whose cover has a pin for each name that it reads.
    ///
    /// # Errors
    ///
    /// Want of memory.
    pub fn node(&mut self, reads: NameList, out: Name, cover: Cover) -> Result<(), AllocError>
        requires pins { length reads ≡ cover.width }
        requires reads { All (IsName self.old.names) reads }
        requires out { IsName self.old.names out }
        ensures ok { OnOk result (self.new ≡ with_node self.old (texts_of self.old.names reads) (text_of self.old.names out) cover) }
        ensures err { OnErr result (self.new ≡ self.old) }
    {
        let reads = SmallVec::from_slice(self.alloc, reads.as_slice())?;
        self.nodes.push(NodePart { reads, out, cover })?;
        Ok(())
    }

    /// The input that was added as number `place`, from 0. It takes no memory.
    pub fn input_name(&self, place: usize) -> Name
        requires within { place < length self.now.named.inputs }
        ensures name { IsName self.now.names result }
        ensures text { text_of self.now.names result ≡ text_at self.now.named.inputs place }
    {
        *self.inputs.get(place)
    }

    /// What the latch gives that was added as number `place`, from 0. It takes no memory.
    pub fn latch_out(&self, place: usize) -> Name
        requires within { place < length self.now.named.latches }
        ensures name { IsName self.now.names result }
        ensures text { text_of self.now.names result ≡ text_at (latch_outs self.now.named) place }
    {
        self.latches[place].out
    }
}
