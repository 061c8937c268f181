//! A table of two outputs, one of which is free at one input.
use pla_read::{PlaError, PlaText, read_pla};
use std::alloc::Global;
use std::test::Fail;
use tsc_io::Bytes;
use tsc_net::{NameTexts, Netlist};
use tsc_text::{End, LONGEST, Lines};

/// A table of two outputs, of which the second is free where both inputs are 1.
const TABLE: &[u8] = b".i 2\n.o 2\n.type fd\n.ob y z\n11 1-\n0- 01\n.e\n";

/// The values of each output at the inputs 00, 01, 10 and 11.
static VALUES: [[bool; 4]; 2] = [[false, false, false, true], [true, true, false, false]];

/// What the first section of a text denotes.
#[tactic(auto, using(kiss_read::proofs::Sections::is_section))]
fn read(alloc: Global, text: &Bytes) -> Result<PlaText, PlaError> {
    if text.len() > LONGEST {
        return Err(PlaError::Header { line: 0 });
    }
    match Lines::of(alloc, text) {
        Ok(lines) => read_pla(alloc, &lines, lines.section(0, End::Kiss)),
        Err(_) => Err(PlaError::Header { line: 0 }),
    }
}

/// Whether the cover of a node has these values.
fn has_values(net: &Netlist, place: usize, values: &[bool]) -> bool {
    if place >= net.nodes() {
        return false;
    }
    let cover = net.node_cover(place);
    for (read, value) in values.iter().enumerate() {
        if cover.truth(read as u64) != *value {
            return false;
        }
    }
    true
}

/// Whether the first of some names is this.
fn is_first(names: &NameTexts, name: &[u8]) -> bool {
    match names.as_slice() {
        [first, ..] => first.as_slice() == name,
        [] => false,
    }
}

#[test]
fn a_table_is_read(rt: HostRuntime) -> Result<(), Fail> {
    let bytes = Bytes::from_slice(rt.alloc(), TABLE)?;
    let text = read(rt.alloc(), &bytes)?;
    assert!(rt; is_first(&text.inputs, b"i0") && is_first(&text.outputs, b"y"));
    assert_eq!(rt; text.loose.value.nodes(), 2);
    for (place, values) in VALUES.iter().enumerate() {
        assert!(rt; has_values(&text.loose.value, place, values));
    }
    assert_eq!(rt; text.loose.free.inputs(), 2);
    assert_eq!(rt; text.loose.free.outputs().len(), 2);
    Ok(())
}
