// Weights from outside, for each case, and at the limits of the sums and the scale.
use bw_weights::{Sums, weights};
use std::test::Fail;

// The sums G, M, E and D, the scale, and the weights Wgd, Wed, Wmd, Wme, Wmg, Wgg and Wee.
type Row = ([u64; 4], u32, [u32; 7]);

const MOST: u64 = 1 << 54;

const SCALE: u32 = (1 << 31) - 1;

// The weights in their order, where the sums and the scale may stand.
fn values_of(sums: [u64; 4], scale: u32) -> Option<[u32; 7]> {
    let [g, m, e, d] = sums;
    if g == 0 || m == 0 || e == 0 || d == 0 || scale == 0 {
        return None;
    }
    if g > MOST || m > MOST || e > MOST || d > MOST || scale > SCALE {
        return None;
    }
    let given = weights(&Sums { g, m, e, d }, scale);
    Some([
        given.wgd, given.wed, given.wmd, given.wme, given.wmg, given.wgg, given.wee,
    ])
}

// Fails by the first row that is wrong.
fn all_are_right(rows: &[Row]) -> Result<(), Fail> {
    let wrong = rows.iter().position(|(sums, scale, want)| values_of(*sums, *scale) != Some(*want));
    match wrong {
        Some(row) => Err(Fail::new(row)),
        None => Ok(()),
    }
}

// Neither guards nor exits are scarce; both are, and what is both goes to the scarcer; both are, and are comparable; a weight
// would be out of range, before and after truncation.
const SAME: [Row; 12] = [
    (
        [400, 100, 400, 100],
        10000,
        [3333, 3333, 3333, 2500, 2500, 7500, 7500],
    ),
    (
        [300, 500, 100, 100],
        10000,
        [0, 10000, 0, 0, 0, 10000, 10000],
    ),
    ([1, 61, 21, 1], 10000, [10000, 0, 0, 0, 0, 10000, 10000]),
    ([1, 1, 1, 1], 10000, [3333, 3333, 3333, 0, 0, 10000, 10000]),
    ([1, 1, 1, 1], 11543, [3848, 3847, 3848, 0, 0, 11543, 11543]),
    ([1, 1, 1, 1], 1, [0, 0, 0, 0, 0, 1, 1]),
    ([3, 1, 1, 13], 10000, [2308, 3846, 3846, 0, 0, 10000, 10000]),
    ([1, 2, 1, 1], 10000, [3334, 6666, 0, 0, 0, 10000, 10000]),
    (
        [200, 500, 200, 100],
        10000,
        [0, 10000, 0, 0, 0, 10000, 10000],
    ),
    ([1, 1001, 1, 1], 10000, [0, 10000, 0, 0, 0, 10000, 10000]),
    ([1, 2, 2, 2], 1, [0, 0, 0, 0, 0, 1, 1]),
    ([8, 15, 7, 13], 3, [2, 1, 0, 0, 0, 3, 3]),
];

#[test]
fn weights_are_those_of_their_case() -> Result<(), Fail> {
    all_are_right(&SAME)
}

// Guards or exits alone are scarce, very or somewhat.
const ONE: [Row; 8] = [
    (
        [100, 300, 500, 100],
        10000,
        [10000, 0, 0, 2000, 0, 10000, 8000],
    ),
    ([1, 488, 8898, 1], 6002, [6002, 0, 0, 2836, 0, 6002, 3166]),
    ([1, 9, 7, 1], SCALE, [SCALE, 0, 0, 0, 0, SCALE, SCALE]),
    ([28, 1, 1, 1], 10000, [0, 10000, 0, 0, 4821, 5179, 10000]),
    ([4086541651, 5511224563, 1, 1], 1, [0, 1, 0, 0, 0, 1, 1]),
    ([1, 1, 7, 7], 100, [61, 19, 19, 43, 0, 100, 57]),
    ([3, 3, 4, 2], 1, [0, 0, 0, 1, 0, 1, 0]),
    (
        [400, 200, 100, 300],
        10000,
        [1111, 7777, 1111, 0, 2500, 7500, 10000],
    ),
];

#[test]
fn weights_are_those_of_the_scarcer_class() -> Result<(), Fail> {
    all_are_right(&ONE)
}

const LARGEST: [Row; 5] = [
    (
        [MOST, MOST, MOST, MOST],
        SCALE,
        [715827882, 715827882, 715827882, 0, 0, SCALE, SCALE],
    ),
    (
        [1, 1, 1, MOST],
        SCALE,
        [715827882, 715827882, 715827882, 0, 0, SCALE, SCALE],
    ),
    (
        [MOST, 1, 1, 1],
        SCALE,
        [0, SCALE, 0, 0, 1073741823, 1073741824, SCALE],
    ),
    ([1, MOST, 1, 1], SCALE, [0, SCALE, 0, 0, 0, SCALE, SCALE]),
    (
        [1, 1, MOST, 1],
        SCALE,
        [SCALE, 0, 0, 1073741823, 0, SCALE, 1073741824],
    ),
];

#[test]
fn the_largest_sums_and_scale_have_weights() -> Result<(), Fail> {
    all_are_right(&LARGEST)
}
