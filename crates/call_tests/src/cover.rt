//! Small covers by hand.
ghost use Rattle.std.specs.Prelude.{◌≡◌, IfOk};

use std::alloc::{AllocError, Global};
use std::test::Fail;
use tsc_cover::{
    Cover, Row01, and_cover, buf_cover, char_at, meet, not_cover, or_cover, row_of, row_text,
    xor_cover,
};

/// The row `1-0` over three pins.
const ONE: Row01 = Row01 {
    care: 0b101,
    value: 0b100,
};

/// The row `01-` over three pins.
const OTHER: Row01 = Row01 {
    care: 0b110,
    value: 0b010,
};

/// The values of the on-set cover of both rows, from that at 000 on.
static VALUES: [bool; 8] = [false, false, true, true, true, false, true, false];

/// Whether `VALUES` are the values of a cover, where it is an on-set, or else the other ones.
fn has_values(cover: &Cover, on: bool) -> bool {
    for (read, value) in VALUES.iter().enumerate() {
        if cover.truth(read as u64) != (*value == on) {
            return false;
        }
    }
    true
}

/// Which of the three pins of a cover have a wrong sign.
fn wrong_signs(cover: &Cover) -> (bool, bool, bool)
    requires pins { cover.now.width ≡ 3 }
{
    (
        cover.wrong_sign(0),
        cover.wrong_sign(1),
        cover.wrong_sign(2),
    )
}

/// The on-set cover of both rows.
fn on_set(alloc: Global) -> Result<Cover, AllocError>
    ensures pins { IfOk result (λ cover. cover.width ≡ 3) }
{
    let mut cover = Cover::new(alloc, 3, true);
    cover.push_row(ONE)?;
    cover.push_row(OTHER)?;
    Ok(cover)
}

#[test]
fn on_set_of_two_rows(rt: HostRuntime) -> Result<(), Fail> {
    let cover = on_set(rt.alloc())?;
    assert!(rt; has_values(&cover, true) && wrong_signs(&cover) == (true, false, true));
    assert!(rt; cover.copy_of()?.rows() == [ONE, OTHER].as_slice());
    Ok(())
}

#[test]
fn off_set_of_two_rows(rt: HostRuntime) -> Result<(), Fail> {
    let cover = Cover::of_rows(rt.alloc(), 3, false, &[ONE, OTHER])?;
    assert!(rt; has_values(&cover, false) && wrong_signs(&cover) == (true, true, false));
    assert!(rt; cover.rows() == [ONE, OTHER].as_slice() && cover.width() == 3 && !cover.on());
    Ok(())
}

#[test]
fn covers_of_gates(rt: HostRuntime) -> Result<(), Fail> {
    assert!(rt; buf_cover(rt.alloc())?.truth(1) && not_cover(rt.alloc())?.truth(0));
    assert!(rt;
        and_cover(rt.alloc())?.truth(3)
            && or_cover(rt.alloc())?.truth(1)
            && xor_cover(rt.alloc())?.truth(2)
    );
    Ok(())
}

#[test]
fn rows_by_hand(rt: HostRuntime) -> Result<(), Fail> {
    assert!(rt; row_of(b"1-0") == Some(ONE) && row_of(b"1x0").is_none());
    assert!(rt; char_at(&OTHER, 3, 2) == b'-' && !meet(&ONE, &OTHER));
    assert!(rt; row_text(rt.alloc(), &ONE, 3)?.as_slice() == b"1-0".as_slice());
    Ok(())
}
