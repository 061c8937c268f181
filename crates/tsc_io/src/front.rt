//! Copying bytes from a place on.
ghost use Rattle.std.specs.Prelude.{◌≡◌, ◌+◌, ◌^◌, ◌<◌, ◌≤◌, ◌++◌, take, drop, min, length};

use crate::items::Bytes;

/// Copies the bytes from `start` on to the front of `into`, as many as both have, `most` at most, and answers how many.
pub(crate) fn copy_from(bytes: &Bytes, start: usize, into: &mut [u8], most: usize) -> usize
    requires { start ≤ length bytes.now }
    ensures count { result ≡ min most (min (length (drop start bytes.now)) (length into.old)) }
    ensures copied { drop start bytes.now ≡ take result into.new ++ drop (start + result) bytes.now }
    ensures within { start + result ≤ length bytes.now }
    ensures fits { start + result < 2 ^ 64 }
{
    let rest = rest_of(bytes.as_slice(), start);
    copy_front(rest, into, most.min(rest.len().min(into.len())))
}

/// The bytes from `start` on.
fn rest_of(bytes: &[u8], start: usize) -> &[u8]
    requires { start ≤ length bytes.now }
    ensures rest { result.now ≡ drop start bytes.now }
{
    &bytes[start..]
}

/// Copies the first `count` bytes, and answers `count`.
fn copy_front(from: &[u8], into: &mut [u8], count: usize) -> usize
    requires from { count ≤ length from.now }
    requires into { count ≤ length into.old }
    ensures count { result ≡ count }
    ensures copied { take count into.new ≡ take count from.now }
{
    into[..count].copy_from_slice(&from[..count]);
    count
}
