//! The names of nets, by the numbers that names have in a table.
ghost use Rattle.std.specs.Prelude.{◌≡◌, ◌<◌, ◌^◌, length, All, None, IfSome, IfOk, OnOk, IfErr, is_some};
ghost use Rattle.std.specs.Option.{option_map};
ghost use Rattle.tsc_net.specs.Names.{text_at, has_text, place_of_text, find_text};
ghost use Rattle.tsc_net.specs.NetFault.{first_repeat};
ghost use Rattle.tsc_net.specs.inner.NetNames.{NetNamesOf, AreMarks, KeepsMarks};
ghost use Rattle.tsc_net.specs.PartsView.{texts_of, IsName};
ghost use Rattle.tsc_net.specs.inner.Build.{IsTwice};

use crate::ids::{Name, NameList, NetId};
use crate::names::NameTable;
use crate::net_error::NetError;
use std::alloc::Global;
use std::marker::Model;
use tsc_io::{Items, TextKey};

/// What is driven: the name of each net, and for each name one more than its net, or 0 where nothing drives it.
#[derive(Drop)]
pub struct Driven {
    /// The name of each net.
    pub nets: NameList,
    /// For each name one more than its net, or 0.
    pub marks: Vec<u32>,
}

/// The names of nets within a table of names, found both ways without a look at a text.
#[derive(Drop)]
pub struct NetNames {
    names: NameTable,
    driven: Driven,
}

impl Model for NetNames {
    ghost use Rattle.tsc_net.specs.inner.NetNames.{NetNamesOf};

    ghost Value = { NetNamesOf };

    ghost use Rattle.tsc_net.specs.PartsView.{texts_of};

    ghost view = { λ n. record { names = n.names; nets = texts_of n.names n.driven.nets } };

    ghost use Rattle.tsc_net.specs.inner.NetNames.{KeepsMarks};

    ghost invariant = { λ n. KeepsMarks n.names n.driven };
}

impl NetNames {
    /// The names of nets within a table.
    pub fn new(names: NameTable, driven: Driven) -> NetNames
        requires marks { KeepsMarks names driven }
        ensures names { result.names ≡ names }
        ensures nets { result.nets ≡ texts_of names driven.nets }
    {
        NetNames { names, driven }
    }

    /// The key of the table of names.
    pub fn key(&self) -> TextKey {
        self.names.key()
    }

    /// The number of nets.
    pub fn len(&self) -> usize
        ensures count { result ≡ length self.now.nets }
    {
        self.driven.nets.len()
    }

    /// The name of a net.
    pub fn text(&self, net: usize) -> &[u8]
        requires within { net < length self.now.nets }
        ensures text { result.now ≡ text_at self.now.nets net }
    {
        let name = *self.driven.nets.get(net);
        self.names.text(name.number as usize)
    }

    /// The name with this number in the table.
    pub fn name(&self, number: usize) -> &[u8]
        requires within { number < length self.now.names }
        ensures text { result.now ≡ text_at self.now.names number }
    {
        self.names.text(number)
    }

    /// The net that is driven by the name with this number in the table.
    pub fn net_at(&self, number: usize) -> Option<NetId>
        requires within { number < length self.now.names }
        ensures found { option_map (λ net. net.number) result ≡ find_text self.now.nets (text_at self.now.names number) }
        ensures place { IfSome result (λ net. net.number ≡ place_of_text self.now.nets (text_at self.now.names number)) }
        ensures has { is_some result ≡ has_text self.now.nets (text_at self.now.names number) }
    {
        let mark = self.driven.marks[number];
        if mark == 0 {
            return None;
        }
        Some(NetId { number: mark - 1 })
    }

    /// The net with this name, if there is one.
    pub fn find(&self, text: &[u8]) -> Option<NetId>
        ensures found { option_map (λ net. net.number) result ≡ find_text self.now.nets text.now }
    {
        let number = self.names.find(text)?;
        self.net_at(number)
    }
}

/// For each name of the table one more than its place in the list, or 0 where it isn't there; or the first text that stands there twice.
pub fn marks_of(alloc: Global, names: &NameTable, list: &[Name]) -> Result<Vec<u32>, NetError>
    requires room { length names.now < 2 ^ 32 }
    requires names { All (IsName names.now) list.now }
    ensures marks { IfOk result (λ marks. AreMarks names.now (texts_of names.now list.now) marks.items) }
    ensures once { OnOk result (first_repeat (texts_of names.now list.now) ≡ None) }
    ensures few { OnOk result (length list.now < 2 ^ 32) }
    ensures twice { IfErr result (IsTwice (texts_of names.now list.now)) }
{
    let mut marks = vec![in alloc; 0; names.len()].map_err(NetError::Memory)?;
    for (place, name) in list.iter().enumerate() {
        let number = name.number as usize;
        if marks[number] != 0 {
            let net = Items::from_slice(alloc, names.text(number)).map_err(NetError::Memory)?;
            return Err(NetError::Twice { net });
        }
        marks[number] = place as u32 + 1;
    }
    Ok(marks)
}
