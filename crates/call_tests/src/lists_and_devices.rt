//! Lists, sources, sinks and keys: each call once, and each kind of list and of device.
ghost use Rattle.std.specs.Prelude.{◌≡◌, ◌<◌, ◌≤◌, ◌++◌, [], ◌∷◌, length, IsOk, OnOk, IfOk, slice_index_or, slice_set};

use std::alloc::{AllocError, Global};
use std::hash::BuildHasher;
use std::test::Fail;
use tsc_io::{
    Bytes, CallList, InError, Items, MemSink, MemSource, NullSink, PlainSource, StdSink, StdSource,
    TextKey, Words, WriteFault, read_all, write_all,
};

#[derive(Clone, Copy, Debug, PartialEq, Eq)]
struct Net {
    number: u32,
}

fn two_bytes(alloc: Global, first: u8, second: u8) -> Result<Bytes, AllocError>
    ensures items { IfOk result (λ list. list ≡ first ∷ second ∷ []) }
{
    let mut list = Bytes::new(alloc);
    list.push(first)?;
    list.append(&[second])?;
    Ok(list)
}

fn two_words(alloc: Global, first: Bytes, second: Bytes) -> Result<Words, AllocError>
    ensures items { IfOk result (λ list. list ≡ first ∷ second ∷ []) }
{
    let mut list = Words::new(alloc);
    list.push(first)?;
    list.push(second)?;
    Ok(list)
}

fn with_net(nets: &mut Items<Net>, net: Net) -> Result<(), AllocError>
    ensures ok { OnOk result (nets.new ≡ nets.old ++ net ∷ []) }
{
    nets.push(net)
}

fn number_at(nets: &Items<Net>, place: usize) -> u32
    requires { place < length nets.now }
    ensures number { result ≡ (slice_index_or nets.now place (record { number = 0 })).number }
{
    nets.get(place).number
}

fn add_to_group(
    groups: &mut Items<Items<usize>>,
    group: usize,
    place: usize,
) -> Result<(), AllocError>
    requires { group < length groups.old }
    ensures ok { OnOk result (groups.new ≡ slice_set groups.old group (slice_index_or groups.old group [] ++ place ∷ [])) }
{
    groups.get_mut(group).push(place)
}

fn sum(calls: &CallList) -> u64 {
    let mut sum: u64 = 0;
    for call in calls.as_slice() {
        sum = sum.wrapping_add(*call);
    }
    sum
}

#[test]
fn lists_of_lists(rt: HostRuntime) -> Result<(), Fail> {
    let bytes = two_bytes(rt.alloc(), 7, 8)?;
    let words = two_words(rt.alloc(), bytes, Bytes::from_slice(rt.alloc(), b"ab")?)?;
    assert!(rt;
        words.len() == 2
            && words.get(0).as_slice() == [7, 8].as_slice()
            && words.get(1).as_slice() == b"ab".as_slice()
    );
    Ok(())
}

#[test]
fn lists_of_structs(rt: HostRuntime) -> Result<(), Fail> {
    let mut nets = Items::new(rt.alloc());
    with_net(&mut nets, Net { number: 5 })?;
    assert!(rt;
        nets.len() == 1
            && nets.replace(0, Net { number: 6 }).number == 5
            && number_at(&nets, 0) == 6
    );
    Ok(())
}

#[test]
fn lists_in_groups(rt: HostRuntime) -> Result<(), Fail> {
    let mut groups = Items::new(rt.alloc());
    groups.push(Items::new(rt.alloc()))?;
    if groups.len() == 1 {
        add_to_group(&mut groups, 0, 9)?;
    }
    assert!(rt; groups.len() == 1 && groups.get(0).len() == 1);
    Ok(())
}

#[test]
fn lists_of_numbers(rt: HostRuntime) -> Result<(), Fail> {
    let mut calls = CallList::new(rt.alloc());
    calls.append(&[3, 4, 5])?;
    let all = sum(&calls);
    calls.truncate(2);
    let some = sum(&calls);
    calls.clear();
    assert!(rt; all == 12 && some == 7 && calls.is_empty());
    Ok(())
}

/// Reads back what a source in memory was made of.
fn read_back(alloc: Global, bytes: Bytes) -> Result<Bytes, InError>
    requires { length bytes ≤ 67108864 }
    ensures same { IfOk result (λ text. text ≡ bytes) }
{
    read_all(alloc, &mut PlainSource::new(bytes), 67108864)
}

/// Writing to nowhere never fails.
fn write_nowhere(bytes: &[u8]) -> Result<(), WriteFault>
    ensures ok { IsOk result }
{
    write_all(&mut NullSink::new(), bytes)
}

/// A source of 21 bytes that gives four a call, and fails the call `fails`, from 0.
fn source(alloc: Global, fails: u64) -> Result<MemSource, AllocError> {
    let bytes = Bytes::from_slice(alloc, b"the bytes of a source")?;
    Ok(MemSource::new(bytes, 4, CallList::from_slice(alloc, &[fails])?))
}

/// How many bytes are read of that source, which are at most `limit`.
fn count_read(alloc: Global, fails: u64, limit: usize) -> Result<usize, InError>
    requires few { limit ≤ 67108864 }
{
    let mut source = source(alloc, fails).map_err(InError::Memory)?;
    Ok(read_all(alloc, &mut source, limit)?.len())
}

#[test]
fn reads_to_the_end_and_no_further(rt: HostRuntime) -> Result<(), Fail> {
    assert_eq!(rt; count_read(rt.alloc(), 7, 21)?, 21);
    assert!(rt; matches!(count_read(rt.alloc(), 6, 20), Err(InError::TooLong)));
    assert!(rt; matches!(count_read(rt.alloc(), 5, 21), Err(InError::ReadFault)));
    Ok(())
}

/// Whether a text is what is read of a source in memory, and of one of the standard library where just so many bytes are allowed.
fn is_read(alloc: Global, text: &[u8]) -> Result<bool, InError>
    requires short { length text.now ≤ 67108864 }
{
    let bytes = Bytes::from_slice(alloc, text).map_err(InError::Memory)?;
    let plain = read_back(alloc, bytes)?;
    let other = read_all(alloc, &mut StdSource::new(text), text.len())?;
    Ok(plain.as_slice() == text && other.as_slice() == text)
}

#[test]
fn reads_from_each_source(rt: HostRuntime) -> Result<(), Fail> {
    assert!(rt; is_read(rt.alloc(), b"plain")?);
    Ok(())
}

/// Whether a sink fails on these bytes, and `written` is what it has then.
fn is_refused(sink: &mut MemSink, bytes: &[u8], written: &[u8]) -> bool {
    write_all(sink, bytes) == Err(WriteFault) && sink.written() == written
}

/// The sink takes two bytes a call, fails the fourth, and has room for six.
#[test]
fn writes_all(rt: HostRuntime) -> Result<(), Fail> {
    let mut sink = MemSink::new(rt.alloc(), 6, 2, CallList::from_slice(rt.alloc(), &[3])?)?;
    write_all(&mut sink, b"abcde")?;
    assert!(rt; is_refused(&mut sink, b"f", b"abcde") && is_refused(&mut sink, b"fg", b"abcdef"));
    Ok(())
}

/// Whether a list of bytes holds what is written to it.
fn is_kept(alloc: Global, bytes: &[u8]) -> Result<bool, WriteFault> {
    let mut held = Vec::<u8>::new(alloc);
    write_all(&mut StdSink::new(&mut held), bytes)?;
    Ok(held.as_slice() == bytes)
}

#[test]
fn writes_to_each_sink(rt: HostRuntime) -> Result<(), Fail> {
    write_nowhere(b"gone")?;
    assert!(rt; is_kept(rt.alloc(), b"kept")?);
    Ok(())
}

/// The number is that of other programs for SHA-256 of `abc` and for SipHash-1-3 of the digest and `x`.
#[test]
fn key_of_a_text(rt: HostRuntime) -> Result<(), Fail> {
    let key = TextKey::of(b"abc");
    assert_eq!(rt; key.hash_one(b'x'), 0x562b_37c2_03e3_bc8d);
    Ok(())
}
