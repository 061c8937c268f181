//! The names of the joint's nets that aren't inputs.
ghost use Rattle.std.specs.Prelude.{◌≡◌, ◌<◌, ◌^◌, length, IfOk};
ghost use Rattle.module_join.specs.JointNet.{joint_prefix, own_text, tree_text};

use std::alloc::{AllocError, Global};
use tsc_io::Bytes;
use tsc_net::NameTable;

/// What the names of all nets except the inputs begin with: `p`, the least number with which no name that is taken begins so, and `_`.
///
/// # Errors
///
/// Want of memory.
pub fn joint_prefix(alloc: Global, taken: &NameTable) -> Result<Bytes, AllocError>
    requires room { length taken.now < 2 ^ 32 }
    ensures prefix { IfOk result (λ prefix. prefix ≡ joint_prefix taken.now) }
{
    let number = taken.free_number(alloc, b'p')?;
    let mut prefix = Bytes::from_slice(alloc, b"p")?;
    let tail = format!(in alloc; "{number}_")?;
    prefix.append(tail.as_bytes())?;
    Ok(prefix)
}

/// The name that a net NAME of the part with this number, counted from 0, has in the joint.
///
/// # Errors
///
/// Want of memory.
pub fn own_text(alloc: Global, prefix: &[u8], part: usize, name: &[u8]) -> Result<Bytes, AllocError>
    ensures text { IfOk result (λ text. text ≡ own_text prefix.now part name.now) }
{
    let mut text = Bytes::from_slice(alloc, prefix)?;
    let number = format!(in alloc; "{part}_")?;
    text.append(number.as_bytes())?;
    text.append(name)?;
    Ok(text)
}

/// The name of the node of the tree with this number, counted from 0.
///
/// # Errors
///
/// Want of memory.
pub fn tree_text(alloc: Global, prefix: &[u8], node: usize) -> Result<Bytes, AllocError>
    ensures text { IfOk result (λ text. text ≡ tree_text prefix.now node) }
{
    let mut text = Bytes::from_slice(alloc, prefix)?;
    let number = format!(in alloc; "t{node}")?;
    text.append(number.as_bytes())?;
    Ok(text)
}
