// Answers of the published Rust's `finalize`, which the definition meets too (grade/specs/FinalizeFigures): sums and opacity by their bits.
#![tactic(auto)]

use std::io;
use sums::ShapeSums;

// Of the target, the canvas, their squares and their products: three channels each.
type Sums = [[u64; 3]; 5];

// 0.0 and 1.0 in each channel
const NOUGHT: [u64; 3] = [0; 3];

const ONE: [u64; 3] = [0x3ff0000000000000; 3];

const THREE_PIXELS: Sums = [
    [0x3ff3dc1fc8000000, 0x3ff6267038000000, 0x3ff2d19e24000000],
    [0x40011ae828000000, 0x3ffaa69104000000, 0x4000a81aa0000000],
    [0x3fe4ad8112999108, 0x3febc8d2e99427c8, 0x3fe041ef2abbd7c2],
    [0x3ff9962fd38b73b0, 0x3ff41bf5f320c469, 0x3ff8a9e8586b03e0],
    [0x3febf641f25fe2d0, 0x3fdf87a3d2924920, 0x3fe804eb3d4b1868],
];

fn score_of(rt: &impl Print, sums: Sums, count: u32, opacity: u32) -> io::Result<()> {
    let [s_t, s_c, s_t2, s_c2, s_tc] = sums.map(|bits| bits.map(float::of_bits64));
    let s = ShapeSums {
        s_t,
        s_c,
        s_t2,
        s_c2,
        s_tc,
        count,
    };
    let r = grade::finalize(s, float::of_bits32(opacity));
    print!(rt; "{}", r.count)?;
    for x in [r.change, r.red, r.green, r.blue] {
        figures::number(rt, x)?;
    }
    println!(rt)
}

fn pixels(rt: &impl Print) -> io::Result<()> {
    for (sums, count, opacity) in [
        // document 01's example
        ([ONE, NOUGHT, ONE, NOUGHT, NOUGHT], 1, 0x3f00_0000),
        // opacity 0
        (
            [
                [0x3fd3333340000000, 0x3fe3333340000000, 0x3fecccccc0000000],
                [0x3fb99999a0000000, 0x3fe0000000000000, 0x3ff0000000000000],
                [0x3fb70a3d8f5c2900, 0x3fd70a3d8f5c2900, 0x3fe9eb8507ae1480],
                [0x3f847ae151eb8520, 0x3fd0000000000000, 0x3ff0000000000000],
                [0x3f9eb85207ae1480, 0x3fd3333340000000, 0x3fecccccc0000000],
            ],
            1,
            0,
        ),
        // opacity 1
        (
            [
                [0x3ff0000000000000, 0x3fe99999a8000000, 0x3ff4ccccc8000000],
                [0x3fb99999a0000000, 0x3fe8000000000000, 0x3ff2000000000000],
                [0x3fe28f5c23d70a40, 0x3fd99999b99999a4, 0x3fef0a3d5c28f5c8],
                [0x3f847ae151eb8520, 0x3fd4000000000000, 0x3ff0400000000000],
                [0x3f9eb85207ae1480, 0x3fd6666674000000, 0x3fee66665a000000],
            ],
            2,
            0x3f80_0000,
        ),
        // clamped at 0 and at 1
        (
            [
                [0, 0x3ff0000000000000, 0x3fe0000000000000],
                [0x3ff0000000000000, 0, 0x3fe0000000000000],
                [0, 0x3ff0000000000000, 0x3fd0000000000000],
                [0x3ff0000000000000, 0, 0x3fd0000000000000],
                [0, 0, 0x3fd0000000000000],
            ],
            1,
            0x3e4c_cccd,
        ),
        // three pixels at 0.9
        (THREE_PIXELS, 3, 0x3f66_6666),
        // three pixels at 0.2
        (THREE_PIXELS, 3, 0x3e4c_cccd),
        // three pixels at 1/3
        (THREE_PIXELS, 3, 0x3eaa_aaab),
    ] {
        score_of(rt, sums, count, opacity)?;
    }
    Ok(())
}

fn sums(rt: &impl Print) -> io::Result<()> {
    for (sums, count, opacity) in [
        // no pixel
        (
            [
                [0x3ff0000000000000, 0x4000000000000000, 0x4008000000000000],
                [0x3fe0000000000000; 3],
                ONE,
                [0x4000000000000000; 3],
                [0x3fd0000000000000; 3],
            ],
            0,
            0x3f00_0000,
        ),
        // a colour of -0.0
        (
            [
                [0x8000000000000000, 0, 0x3fd0000000000000],
                NOUGHT,
                [0, 0, 0x3fb0000000000000],
                NOUGHT,
                NOUGHT,
            ],
            1,
            0x3f00_0000,
        ),
        // a large count
        (
            [
                [0x40dd4c2000000000, 0x40c81cd6c8b43958, 0x40f0000000000000],
                [0x40d3881000000000, 0x40dd4c0800000000, 0x3ff0000000000000],
                [0x40d3880666666666, 0x40c1947333333333, 0x40f0000000000000],
                [0x40c388599999999a, 0x40d86a1333333333, 0x3fe0000000000000],
                [0x40cd4c2666666666, 0x40bf403333333333, 0x3fe8000000000000],
            ],
            65536,
            0x3f33_3333,
        ),
        // sums of no pixels
        (
            [
                [0x4008000000000000, 0xc000000000000000, 0x7e37e43c8800759c],
                [0x3ff0000000000000, 0x4014000000000000, 0xfe37e43c8800759c],
                [0x401c000000000000, 0xbff0000000000000, 0x7e37e43c8800759c],
                [0x4000000000000000, 0x3fe0000000000000, 0x01a56e1fc2f8f359],
                [0xc008000000000000, 0x3fb999999999999a, 0x4202a05f20000000],
            ],
            5,
            0x3ecc_cccd,
        ),
        // a change that overflows f32
        (
            [
                [0x6974e718d7d7625a, 0x3ff0000000000000, 0x3fe0000000000000],
                [0, 0x3ff0000000000000, 0x3fe0000000000000],
                [0x6974e718d7d7625a, 0x3ff0000000000000, 0x3fe0000000000000],
                [0x6974e718d7d7625a, 0x3ff0000000000000, 0x3fe0000000000000],
                [0xe974e718d7d7625a, 0x3ff0000000000000, 0x3fe0000000000000],
            ],
            2,
            0x3e80_0000,
        ),
        // terms added in another order would give A4800000
        (
            [
                [0x400290f5afa57d52, 0, 0],
                [0x40070b0559f27fd9, 0, 0],
                [0x3fc53ac8adf561d8, 0, 0],
                [0x3fc150199a348444, 0, 0],
                [0x3fc54f5d04a0fe74, 0, 0],
            ],
            3,
            0x3e99_999a,
        ),
        // the square of p taken apart would give 25400000
        (
            [
                [0x4003490ec3966492, 0, 0],
                [0x4003de50bd3fbcff, 0, 0],
                [0x3fe0ca5b7900ea58, 0, 0],
                [0x3fe83f399a5dad09, 0, 0],
                [0x3fe8d1bd69d9f549, 0, 0],
            ],
            7,
            0x3f33_3333,
        ),
    ] {
        score_of(rt, sums, count, opacity)?;
    }
    Ok(())
}

fn main(rt: HostRuntime) -> io::Result<()> {
    pixels(&rt)?;
    sums(&rt)
}
