//! The places of the words that are kept of a text, four bytes a word, and eight more for one of 63 bytes or more.
ghost use Rattle.std.specs.Prelude.{◌≡◌, ◌^◌, ◌<◌, ◌≤◌, [], ◌∷◌, ◌++◌, length, IfOk, OnOk, OnErr, slice_index_or};

use crate::places::Place;
use std::alloc::{AllocError, Global};
use std::marker::Model;
use tsc_io::Items;

/// What stands in place of a length where a word has this length or a greater one.
const LONG: u32 = 63;

/// The places of words, in the order in which they were pushed.
///
/// A word of fewer than 63 bytes is one number: 64 times its start, and its length. A longer one is 64 times its place
/// among the longer ones, and 63; there are few of these, since each has so many bytes of the text.
#[derive(Drop)]
pub struct WordPlaces {
    codes: Items<u32>,
    longer: Items<Place>,
}

impl Model for WordPlaces {
    ghost use Rattle.std.specs.Prelude.{List, map};
    ghost use Rattle.tsc_text.specs.declared.places.Place.{Place};

    ghost Value = { List Place };

    ghost use Rattle.tsc_text.specs.PlaceCode.{AreCodes, place_of};

    ghost view = { λ list. map (place_of list.longer) list.codes };

    ghost invariant = { λ list. AreCodes list.longer list.codes };
}

impl WordPlaces {
    /// An empty list with room for `room` words of fewer than 63 bytes.
    ///
    /// # Errors
    ///
    /// Want of memory.
    pub fn with_room(alloc: Global, room: usize) -> Result<WordPlaces, AllocError>
        ensures empty { IfOk result (λ list. list ≡ []) }
    {
        let codes = Items::with_room(alloc, room)?;
        let longer = Items::new(alloc);
        Ok(WordPlaces { codes, longer })
    }

    /// How many words there are.
    pub fn len(&self) -> usize
        ensures count { result ≡ length self.now }
    {
        self.codes.len()
    }

    /// The place of the word `place`, counted from 0.
    pub fn get(&self, place: usize) -> Place
        requires { place < length self.now }
        ensures item { result ≡ slice_index_or self.now place result }
    {
        let code = *self.codes.get(place);
        if code % 64 == LONG {
            *self.longer.get((code / 64) as usize)
        } else {
            Place {
                start: code / 64,
                past: code / 64 + code % 64,
            }
        }
    }

    /// Adds a word at the end. Where memory is missing the list is unchanged.
    ///
    /// # Errors
    ///
    /// Want of memory.
    pub fn push(&mut self, place: Place) -> Result<(), AllocError>
        requires start { place.start < 2 ^ 26 }
        requires rises { place.start ≤ place.past }
        requires few { length self.old < 2 ^ 26 }
        ensures ok { OnOk result (self.new ≡ self.old ++ place ∷ []) }
        ensures err { OnErr result (self.new ≡ self.old) }
    {
        let length = place.past - place.start;
        if length < LONG {
            self.codes.push(place.start * 64 + length)
        } else {
            self.push_longer(place)
        }
    }

    /// Adds a word that doesn't fit into one number.
    fn push_longer(&mut self, place: Place) -> Result<(), AllocError>
        requires few { length self.old < 2 ^ 26 }
        ensures ok { OnOk result (self.new ≡ self.old ++ place ∷ []) }
        ensures err { OnErr result (self.new ≡ self.old) }
    {
        let count = self.longer.len();
        self.longer.push(place)?;
        let pushed = self.codes.push(count as u32 * 64 + LONG);
        if pushed.is_err() {
            self.longer.truncate(count);
        }
        pushed
    }
}
