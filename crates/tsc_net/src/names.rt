//! Tables of names, numbered in the order in which they were first seen.
ghost use Rattle.std.specs.Prelude.{◌≡◌, ◌<◌, ◌^◌, [], false, length, is_some, IfSome, IfOk, OnOk, OnErr};
ghost use Rattle.std.specs.List.{list_any};
ghost use Rattle.tsc_net.specs.Parts.{begins_with, free_number_under, is_taken_under};
ghost use Rattle.tsc_net.specs.Names.{has_text, with_text, place_of_text, find_text, text_at, IsNumbering};

use crate::ids::NetId;
use crate::netlist::Netlist;
use crate::sought::Sought;
use indexmap::IndexSet;
use smallvec::SmallVec;
use std::alloc::{AllocError, Global};
use std::marker::Model;
use tsc_io::{Bytes, TextKey};

/// Texts, each once, numbered from 0. A text of up to 16 bytes takes no memory of its own.
#[derive(Drop)]
pub struct NameTable {
    texts: IndexSet<SmallVec<u8, 16>, TextKey>,
}

impl Model for NameTable {
    ghost use Rattle.std.specs.Prelude.{ℕ, List, map};

    ghost Value = { List (List ℕ) };

    ghost use Rattle.tsc_net.specs.Names.{IsNumbering};

    ghost view = { λ table. map (λ text. text.items) table.texts.keys };

    ghost invariant = { λ table. IsNumbering (map (λ text. text.items) table.texts.keys) };
}

impl NameTable {
    /// No text yet, under the key of the text that fills the table. It takes no memory.
    pub fn new(alloc: Global, key: TextKey) -> NameTable
        ensures empty { result ≡ [] }
    {
        NameTable {
            texts: IndexSet::with_hasher(alloc, key),
        }
    }

    /// The names of the nets of a netlist, each with the number of its net, for who looks up many.
    ///
    /// # Errors
    ///
    /// Want of memory.
    pub fn of(alloc: Global, net: &Netlist) -> Result<NameTable, AllocError>
        ensures names { IfOk result (λ table. table ≡ net.now.names) }
    {
        let mut table = NameTable::new(alloc, net.key());
        for number in 0..net.nets() {
            let id = NetId {
                number: number as u32,
            };
            table.add(net.name(id))?;
        }
        Ok(table)
    }

    /// The key of the table, for tables of the same names.
    pub fn key(&self) -> TextKey {
        *self.texts.hasher()
    }

    /// The number of texts.
    pub fn len(&self) -> usize
        ensures count { result ≡ length self.now }
        ensures numbering { IsNumbering self.now }
    {
        self.texts.len()
    }

    /// The number of a text, if it is there. It takes no memory.
    pub fn find(&self, text: &[u8]) -> Option<usize>
        ensures found { result ≡ find_text self.now text.now }
        ensures place { IfSome result (λ place. place ≡ place_of_text self.now text.now) }
        ensures has { is_some result ≡ has_text self.now text.now }
    {
        self.texts.get_index_of(Sought { text })
    }

    /// The text with this number.
    pub fn text(&self, number: usize) -> &[u8]
        requires within { number < length self.now }
        ensures text { result.now ≡ text_at self.now number }
    {
        self.texts.as_slice()[number].as_slice()
    }

    /// The least number such that no text begins with the letter, the number and `_`.
    ///
    /// # Errors
    ///
    /// Want of memory.
    pub fn free_number(&self, alloc: Global, letter: u8) -> Result<u32, AllocError>
        requires room { length self.now < 2 ^ 32 }
        ensures number { IfOk result (λ number. number ≡ free_number_under letter self.now) }
        ensures free { IfOk result (λ number. is_taken_under letter self.now number ≡ false) }
    {
        for number in 0..self.len() {
            let number = number as u32;
            if !self.is_taken(alloc, letter, number)? {
                return Ok(number);
            }
        }
        Ok(self.len() as u32)
    }

    /// Whether some text begins with the letter, the number and `_`.
    fn is_taken(&self, alloc: Global, letter: u8, number: u32) -> Result<bool, AllocError>
        ensures taken { IfOk result (λ taken. taken ≡ is_taken_under letter self.now number) }
    {
        let mut prefix = Bytes::from_slice(alloc, &[letter])?;
        let tail = format!(in alloc; "{number}_")?;
        prefix.append(tail.as_bytes())?;
        Ok(self.some_begins_with(prefix.as_slice()))
    }

    /// Whether some text begins with `prefix`.
    pub(crate) fn some_begins_with(&self, prefix: &[u8]) -> bool
        ensures begins { result ≡ list_any (begins_with prefix.now) self.now }
    {
        some_begins_with(self.texts.as_slice(), prefix)
    }

    /// The number of a text, which goes last where it wasn't there. Where memory is missing the table is unchanged.
    ///
    /// # Errors
    ///
    /// Want of memory.
    pub fn add(&mut self, text: &[u8]) -> Result<usize, AllocError>
        ensures ok { OnOk result (self.new ≡ with_text self.old text.now) }
        ensures place { IfOk result (λ number. number ≡ place_of_text self.old text.now) }
        ensures within { IfOk result (λ number. number < length self.new) }
        ensures stored { IfOk result (λ number. text_at self.new number ≡ text.now) }
        ensures err { OnErr result (self.new ≡ self.old) }
    {
        let key = SmallVec::from_slice(*self.texts.allocator(), text)?;
        let (number, _) = self.texts.insert_full(key)?;
        Ok(number)
    }
}

/// Whether some text begins with `prefix`.
fn some_begins_with(texts: &[SmallVec<u8, 16>], prefix: &[u8]) -> bool
    ensures begins { result ≡ list_any (λ text. begins_with prefix.now text.items) texts.now }
{
    texts.iter().any(|text| text.as_slice().starts_with(prefix))
}
