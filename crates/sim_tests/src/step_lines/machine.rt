//! A machine of two states, whose steps are looked up or settle one by one.

use super::is_printed;
use shared_tests::TOGGLE;
use std::test::Fail;
use tsc_net::{Fault, NetId, Span};

/// The first latch reads a wrong 1.
const PIN: Fault = Fault::Pin {
    driver: NetId { number: 1 },
    index: 0,
    value: true,
};

/// As many steps of the machine as there are states and inputs, and one more. The latch reads it in step 4 alone.
#[test]
fn states_that_are_looked_up(rt: HostRuntime) -> Result<(), Fail> {
    let steps = b"1\n0\n1\n0\n0\n1\n1\n0\n0\n";
    let shown =
        b"0 1 0 10 10 quiet\n1 0 1 10 01 quiet\n2 1 0 01 01 quiet\n3 0 1 01 10 quiet\n4 0 1 01 10 quiet\n5 1 0 11 11 alarm\n6 1 0 11 11 alarm\n7 0 1 11 11 alarm\n8 0 1 11 11 alarm\n";
    let held = Span { first: 4, last: 4 };
    assert_eq!(rt;
        is_printed(rt.alloc(), TOGGLE, PIN, held, steps, shown),
        Some(true)
    );
    Ok(())
}

/// Four steps of the machine, which settle one by one.
#[test]
fn fewer_steps_than_states(rt: HostRuntime) -> Result<(), Fail> {
    let steps = b"0\n0\n0\n1\n";
    let shown = b"0 0 1 01 10 quiet\n1 0 1 01 10 quiet\n2 0 1 11 11 alarm\n3 1 0 11 11 alarm\n";
    let held = Span { first: 1, last: 1 };
    assert_eq!(rt;
        is_printed(rt.alloc(), TOGGLE, PIN, held, steps, shown),
        Some(true)
    );
    Ok(())
}
