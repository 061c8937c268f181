//! What a synthesis writes is accepted by an audit with its source.

use crate::chains::{Chain, DUPLEX, PARITY, UNORDERED, controller};
use crate::runs::{NO_FAULTS, after_run, ends, joined};
use std::alloc::{AllocError, Global};
use std::test::Fail;
use tsc_io::Bytes;

/// The words of a synthesis, those of the audit, and the source.
type Accepted = (&'static [u8], &'static [u8], &'static [u8]);

/// An output that is 0 where all of 20 inputs are 1: 1,048,576 points, the most that are audited.
static WIDE: [Accepted; 2] = [
    (
        b"synth blif berger",
        b"audit blif",
        b".inputs a b c d e f g h i j k l m n o p q r s t\n.outputs y\n.names a b c d e f g h i j k l m n o p q r s t y\n11111111111111111111 0\n.end\n",
    ),
    (
        b"synth blif parity",
        b"audit blif",
        b".inputs a b c d e f g h i j k l m n o p q r s t\n.outputs y\n.names a b c d e f g h i j k l m n o p q r s t y\n11111111111111111111 0\n.end\n",
    ),
];

/// Whether the audit says yes to what the synthesis writes of the source.
pub fn is_accepted(
    alloc: Global,
    synth: &[u8],
    audit: &[u8],
    source: &[u8],
) -> Result<bool, AllocError> {
    let text = Bytes::from_slice(alloc, source)?;
    let made = after_run(alloc, synth, text, NO_FAULTS)?;
    let both = joined(alloc, source, made.sink.written())?;
    ends(alloc, audit, both, 0, b"yes\n", b"")
}

/// The place of the first row whose netlist the audit doesn't accept.
pub fn first_not_accepted(
    alloc: Global,
    audit: &[u8],
    rows: &[Chain],
) -> Result<Option<usize>, AllocError> {
    for (place, row) in rows.iter().enumerate() {
        let (synth, source, _, _, _) = row;
        if !is_accepted(alloc, synth, audit, source)? {
            return Ok(Some(place));
        }
    }
    Ok(None)
}

#[test]
fn parity_netlists_are_accepted(rt: HostRuntime) -> Result<(), Fail> {
    assert_eq!(rt;
        first_not_accepted(rt.alloc(), b"audit blif", &PARITY)?,
        None
    );
    Ok(())
}

#[test]
fn duplex_netlists_are_accepted(rt: HostRuntime) -> Result<(), Fail> {
    assert_eq!(rt;
        first_not_accepted(rt.alloc(), b"audit blif", &DUPLEX)?,
        None
    );
    Ok(())
}

#[test]
fn unordered_netlists_are_accepted(rt: HostRuntime) -> Result<(), Fail> {
    assert_eq!(rt;
        first_not_accepted(rt.alloc(), b"audit blif", &UNORDERED)?,
        None
    );
    Ok(())
}

#[test]
fn a_controller_is_accepted(rt: HostRuntime) -> Result<(), Fail> {
    let source = controller(rt.alloc())?;
    let source = source.as_slice();
    assert!(rt; is_accepted(rt.alloc(), b"synth kiss berger", b"audit kiss", source)?);
    assert!(rt; is_accepted(rt.alloc(), b"synth kiss mofn", b"audit kiss", source)?);
    Ok(())
}

#[test]
fn the_most_points_are_audited(rt: HostRuntime) -> Result<(), Fail> {
    for (synth, audit, source) in &WIDE {
        assert!(rt; is_accepted(rt.alloc(), synth, audit, source)?);
    }
    Ok(())
}
