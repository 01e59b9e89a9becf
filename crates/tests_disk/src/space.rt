//! Places of extents by hand.

use pk_disk::Extent;
use pk_space::{Full, Space};
use std::process::Abort;
use std::test::Fail;

// No run is long enough.
fn full(need: u32, largest: u32) -> Result<u32, Full> {
    Err(Full { need, largest })
}

// Takes runs, one after the other: how many units, and what is answered.
fn take_all(rt: &impl Abort, mut space: Space, asks: &[(u32, Result<u32, Full>)]) {
    for (units, answer) in asks {
        assert_eq!(rt; space.take((*units).max(1)), *answer);
    }
}

#[test]
fn the_first_run_that_fits_is_taken(rt: HostRuntime) -> Result<(), Fail> {
    let alloc = rt.alloc();

    let space = Space::of(alloc, 64, &[Extent::of_bytes(34, 10_240)])?;
    take_all(&rt, space, &[(10, Ok(54)), (1, full(1, 0))]);

    // Behind the bodies all is free.
    take_all(
        &rt,
        Space::of(alloc, 64, &[])?,
        &[(31, full(31, 30)), (30, Ok(34))],
    );
    take_all(&rt, Space::of(alloc, 34, &[])?, &[(1, full(1, 0))]);

    // Units 36 to 39, 50 to 59 and 61 to 99 are free.
    let named = [
        Extent::of_bytes(60, 1),
        Extent::of_bytes(40, 5_000),
        Extent::of_bytes(34, 513),
    ];
    let asks = [
        (5, Ok(50)),
        (40, full(40, 39)),
        (3, Ok(36)),
        (2, Ok(55)),
        (1, Ok(39)),
        (4, Ok(61)),
        (3, Ok(57)),
        (36, full(36, 35)),
        (35, Ok(65)),
        (1, full(1, 0)),
    ];
    take_all(&rt, Space::of(alloc, 100, &named)?, &asks);
    Ok(())
}
