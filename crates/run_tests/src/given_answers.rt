//! Runs that are done.

use crate::runs::{Done, first_not_done};
use crate::texts::{
    AND2, AND2_FAULTS, CHAINED, DUPLEX_CHAINED, DUPLEX_SHARING, DUPLEX_TICKED, DUPLEX_UNREAD, HELD,
    LATCHED, LATCHED_FAULTS, LISTLESS, LISTLESS_FAULTS, LOOSE, ONE, SAFE_AND2, SAFE_LOOSE,
    SAFE_ONE, SAFE_SHARING, SAFE_WIRE, SHARING, TICKED, TOGGLE, UNREAD, WATCHED_HELD,
    WATCHED_TICKED, WIRE, WIRE_FAULTS,
};
use std::test::Fail;

/// Netlists and fault lists, as they follow from the stated constructions. Over one copy a netlist of one group is parity's.
static WRITTEN: [Done; 22] = [
    (b"synth blif parity", AND2, b"", SAFE_AND2),
    (b"synth blif parity", WIRE, b"", SAFE_WIRE),
    (b"synth blif parity", LOOSE, b"", SAFE_LOOSE),
    (b"synth blif parity", SHARING, b"", SAFE_SHARING),
    (b"synth blif parity", ONE, b"", SAFE_ONE),
    (b"synth blif duplex", SHARING, b"", DUPLEX_SHARING),
    (b"synth blif duplex", CHAINED, b"", DUPLEX_CHAINED),
    (b"synth blif duplex", AND2, b"", SAFE_AND2),
    (b"synth blif duplex", WIRE, b"", SAFE_WIRE),
    (b"synth blif duplex", LOOSE, b"", SAFE_LOOSE),
    (b"synth blif duplex", ONE, b"", SAFE_ONE),
    (b"synth blif watched", SHARING, b"", DUPLEX_SHARING),
    (b"synth blif watched", AND2, b"", SAFE_AND2),
    (b"synth blif duplex", TICKED, b"", DUPLEX_TICKED),
    (b"synth blif watched", TICKED, b"", WATCHED_TICKED),
    (b"synth blif watched", HELD, b"", WATCHED_HELD),
    (b"synth blif duplex", UNREAD, b"", DUPLEX_UNREAD),
    (b"synth blif watched", UNREAD, b"", DUPLEX_UNREAD),
    (b"faults", SAFE_AND2, b"", AND2_FAULTS),
    (b"faults", SAFE_WIRE, b"", WIRE_FAULTS),
    (b"faults", LATCHED, b"", LATCHED_FAULTS),
    (b"faults", LISTLESS, b"", LISTLESS_FAULTS),
];

#[test]
fn texts_are_written(rt: HostRuntime) -> Result<(), Fail> {
    assert_eq!(rt; first_not_done(rt.alloc(), &WRITTEN)?, None);
    Ok(())
}

/// Step by step, without latches.
static NETWORKS: [Done; 13] = [
    (
        b"sim none",
        SAFE_AND2,
        b"00\n\n11 # a comment\n01",
        b"0 0 1 . 01 quiet\n1 1 0 . 10 quiet\n2 0 1 . 01 quiet\n",
    ),
    (b"sim none", SAFE_AND2, b"", b""),
    (
        b"sim none",
        SAFE_ONE,
        b".\n.\n",
        b"0 1 0 . 10 quiet\n1 1 0 . 10 quiet\n",
    ),
    (
        b"sim stem t0_2 0 0",
        SAFE_AND2,
        b"11\n",
        b"0 1 0 . 00 alarm\n",
    ),
    (
        b"sim pin y 0 1 0",
        SAFE_AND2,
        b"01\n",
        b"0 1 1 . 11 alarm\n",
    ),
    (
        b"sim stem t0_2 0 0",
        SAFE_AND2,
        b"11\n11\n",
        b"0 1 0 . 00 alarm\n1 1 0 . 00 alarm\n",
    ),
    (
        b"sim stem t0_2 0 2",
        SAFE_AND2,
        b"11\n11\n11\n11\n",
        b"0 1 0 . 10 quiet\n1 1 0 . 10 quiet\n2 1 0 . 00 alarm\n3 1 0 . 00 alarm\n",
    ),
    (
        b"sim stem t0_2 0 1-1",
        SAFE_AND2,
        b"11\n\n11\n11\n",
        b"0 1 0 . 10 quiet\n1 1 0 . 00 alarm\n2 1 0 . 10 quiet\n",
    ),
    (
        b"sim stem t0_2 0 01,2",
        SAFE_AND2,
        b"11\n11\n11\n11\n",
        b"0 1 0 . 10 quiet\n1 1 0 . 00 alarm\n2 1 0 . 00 alarm\n3 1 0 . 10 quiet\n",
    ),
    (
        b"sim stem t0_2 0 1,3-4,6-",
        SAFE_AND2,
        b"11\n11\n11\n11\n11\n11\n11\n11\n",
        b"0 1 0 . 10 quiet\n1 1 0 . 00 alarm\n2 1 0 . 10 quiet\n3 1 0 . 00 alarm\n4 1 0 . 00 alarm\n5 1 0 . 10 quiet\n6 1 0 . 00 alarm\n7 1 0 . 00 alarm\n",
    ),
    (
        b"sim stem t0_2 0 18446744073709551615",
        SAFE_AND2,
        b"11\n",
        b"0 1 0 . 10 quiet\n",
    ),
    (
        b"sim pin t0_3 00 1 0,18446744073709551615-18446744073709551615",
        SAFE_AND2,
        b"11\n11\n",
        b"0 1 0 . 11 alarm\n1 1 0 . 10 quiet\n",
    ),
    (
        b"sim stem t0_2 0 0,2,4,6,8,10,12,14,16,18,20,22,24,26,28,30,32,34,36,38,40,42,44,46,48,50,52,54,56,58,60,62,64,66,68,70,72,74,76,78,80,82,84,86,88,90,92,94,96,98,100,102,104,106,108,110,112,114,116,118,120,122,124,126",
        SAFE_AND2,
        b"11\n11\n11\n",
        b"0 1 0 . 00 alarm\n1 1 0 . 10 quiet\n2 1 0 . 00 alarm\n",
    ),
];

#[test]
fn networks_are_run(rt: HostRuntime) -> Result<(), Fail> {
    assert_eq!(rt; first_not_done(rt.alloc(), &NETWORKS)?, None);
    Ok(())
}

/// Step by step, with latches: a wrong state bit enters a step after the latch's pin was held, and stays where it is kept.
static MACHINES: [Done; 8] = [
    (
        b"sim none",
        TOGGLE,
        b"1\n0\n1\n",
        b"0 1 0 10 10 quiet\n1 0 1 10 01 quiet\n2 1 0 01 01 quiet\n",
    ),
    (b"sim none", TOGGLE, b"", b""),
    (
        b"sim pin t0_0 0 1 1",
        TOGGLE,
        b"0\n0\n0\n",
        b"0 0 1 01 10 quiet\n1 0 1 01 10 quiet\n2 0 1 11 11 alarm\n",
    ),
    (b"sim stem t0_1 0 0", TOGGLE, b"1\n", b"0 0 0 00 00 alarm\n"),
    (b"sim stem t0_1 0 9", TOGGLE, b"1\n", b"0 1 0 10 10 quiet\n"),
    (
        b"sim pin t0_0 0 1 1-1",
        TOGGLE,
        b"0\n0\n0\n0\n",
        b"0 0 1 01 10 quiet\n1 0 1 01 10 quiet\n2 0 1 11 11 alarm\n3 0 1 11 11 alarm\n",
    ),
    (
        b"sim stem t0_1 0 1-1",
        TOGGLE,
        b"0\n0\n0\n",
        b"0 0 1 01 10 quiet\n1 0 0 00 00 alarm\n2 0 0 00 00 alarm\n",
    ),
    (
        b"sim stem f 0 1-1",
        LATCHED,
        b"0\n1\n0\n",
        b"0 0 1 01 10 quiet\n1 0 1 00 00 alarm\n2 0 1 01 10 quiet\n",
    ),
];

#[test]
fn machines_are_run(rt: HostRuntime) -> Result<(), Fail> {
    assert_eq!(rt; first_not_done(rt.alloc(), &MACHINES)?, None);
    Ok(())
}

/// Step by step, with registers of which no states are listed.
static REGISTERS: [Done; 5] = [
    (
        b"sim none",
        WATCHED_TICKED,
        b"011\n010\n000\n011\n",
        b"0 10 01 1010 01 quiet\n1 11 00 0101 10 quiet\n2 00 11 0000 10 quiet\n3 11 00 0000 01 quiet\n",
    ),
    (
        b"sim stem p 0 0",
        WATCHED_TICKED,
        b"011\n010\n000\n011\n",
        b"0 10 01 1010 01 quiet\n1 01 00 0001 00 alarm\n2 01 11 0000 00 alarm\n3 11 00 0000 01 quiet\n",
    ),
    (
        b"sim stem t0_0 0 1-1",
        WATCHED_HELD,
        b"1\n1\n0\n1\n",
        b"0 01 10 11 10 quiet\n1 10 10 01 00 alarm\n2 01 00 11 00 alarm\n3 10 01 00 01 quiet\n",
    ),
    (
        b"sim pin p 0 0 0-0",
        WATCHED_HELD,
        b"1\n1\n0\n1\n",
        b"0 01 10 11 10 quiet\n1 01 01 10 00 alarm\n2 11 10 11 11 alarm\n3 10 01 00 01 quiet\n",
    ),
    (
        b"sim pin p 0 1 1-1",
        LISTLESS,
        b"0\n0\n1\n",
        b"0 0 1 0 01 quiet\n1 0 1 0 01 quiet\n2 1 0 1 10 quiet\n",
    ),
];

#[test]
fn registers_are_simulated(rt: HostRuntime) -> Result<(), Fail> {
    assert_eq!(rt; first_not_done(rt.alloc(), &REGISTERS)?, None);
    Ok(())
}
