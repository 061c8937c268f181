//! Faults that are graded at once: which they are, and where their grades stand.
ghost use Rattle.std.specs.Prelude.{◌≡◌, ℕ, ◌+◌, ◌<◌, ◌≤◌, length, slice_index_or, All, IfOk};
ghost use Rattle.fault_grades.specs.Batch.{HasRoom, IsBatch, AreWritten, TakesUp};

use crate::grade::Grade;
use std::alloc::{AllocError, Global};
use tsc_net::{Bits, Fault, Faults, NetId};

/// Room for a batch: the place of each of its faults among all, the faults, the grade of each lane, and the input bits of a step.
#[derive(Drop)]
pub(crate) struct Room {
    /// The place of each fault.
    pub places: Vec<usize>,
    /// The faults: that of lane p stands at place p - 1.
    pub faults: Vec<Fault>,
    /// The grade of each lane so far.
    pub marks: Vec<Grade>,
    /// The input bits of a step.
    pub input: Bits,
}

/// Which faults a batch has.
#[derive(Clone, Copy)]
pub(crate) struct Batch {
    /// How many.
    pub count: usize,
    /// The place up to which all undecided faults are in it.
    pub next: usize,
}

/// Lists the undecided faults from a place on, at most 1,023 of them.
pub(crate) fn next_batch(
    faults: &Faults,
    grades: &[Grade],
    from: usize,
    places: &mut [usize],
    into: &mut [Fault],
) -> Batch
    requires sized { length grades.now ≡ length faults.now }
    requires from { from < length grades.now }
    requires places { length places.old ≡ 1023 }
    requires room { length into.old ≡ 1023 }
    ensures batch { IsBatch faults.now grades.now from result.count result.next places.new into.new }
    ensures on { from < result.next }
    ensures end { result.next ≤ length grades.now }
{
    let mut count = 0;
    for place in from..grades.len() {
        if count == 1023 {
            return Batch { count, next: place };
        }
        count = take_up(faults, grades[place], place, count, places, into);
    }
    Batch {
        count,
        next: grades.len(),
    }
}

/// Adds a fault to those of a batch, if it is undecided, and says how many they are then.
fn take_up(
    faults: &Faults,
    grade: Grade,
    place: usize,
    count: usize,
    places: &mut [usize],
    into: &mut [Fault],
) -> usize
    requires place { place < length faults.now }
    requires count { count < 1023 }
    requires places { length places.old ≡ 1023 }
    requires room { length into.old ≡ 1023 }
    ensures taken { TakesUp faults.now grade place count result places.old into.old places.new into.new }
{
    match grade {
        Grade::Unseen => {
            places[count] = place;
            into[count] = faults.get(place);
            count + 1
        }
        Grade::Alarm(_) => count,
        Grade::Silent(_) => count,
    }
}

/// Writes the grades of lanes, from lane 1 on, to the places of their faults.
pub(crate) fn write_grades(places: &[usize], marks: &[Grade], grades: &mut [Grade])
    requires within { All (λ place. place < length grades.old) places.now }
    requires lanes { length places.now < length marks.now }
    ensures written { AreWritten places.now marks.now (length places.now) grades.old grades.new }
{
    for (index, place) in places.iter().enumerate() {
        grades[*place] = marks[index + 1];
    }
}

/// Room for a batch of a netlist with so many inputs.
///
/// # Errors
///
/// Want of memory.
pub(crate) fn room_for(alloc: Global, inputs: usize) -> Result<Room, AllocError>
    ensures room { IfOk result (HasRoom inputs) }
{
    let places = vec![in alloc; 0; 1023]?;
    let blank = Fault::Stem {
        net: NetId { number: 0 },
        value: false,
    };
    let faults = vec![in alloc; blank; 1023]?;
    let marks = vec![in alloc; Grade::Unseen; 1024]?;
    let input = blank_bits(alloc, inputs)?;
    Ok(Room {
        places,
        faults,
        marks,
        input,
    })
}

/// A list of so many bits, to be written over.
///
/// # Errors
///
/// Want of memory.
fn blank_bits(alloc: Global, count: usize) -> Result<Bits, AllocError>
    ensures count { IfOk result (λ bits. length bits ≡ count) }
{
    let mut bits = Bits::with_room(alloc, count)?;
    for _ in 0..count {
        bits.push(false)?;
    }
    Ok(bits)
}
