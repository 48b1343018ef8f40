// Runs the whole-number functions at document 01's figures and at the ends of their types.
#![tactic(auto)]

use std::io;

fn divisions(rt: &impl Print) -> io::Result<()> {
    let pairs = [
        (-7, 2),
        (7, -2),
        (7, 2),
        (-7, -2),
        (6, 3),
        (-6, 3),
        (0, -5),
        (1, 9223372036854775807),
        (-1, 9223372036854775807),
        (9223372036854775807, -1),
        (-9223372036854775808, 1),
        (-9223372036854775808, 2),
        (-9223372036854775808, -2),
        // what the Rust panics at
        (7, 0),
        (-9223372036854775808, -1),
    ];
    for (a, b) in pairs {
        let down = whole::div_floor_i64(a, b);
        let up = whole::div_ceil_i64(a, b);
        println!(rt; "{a} / {b}: down {down}, up {up}")?;
    }
    Ok(())
}

fn roots(rt: &impl Print) -> io::Result<()> {
    let numbers = [
        -1,
        0,
        1,
        8,
        9,
        24,
        65535,
        65536,
        268435455,
        268435456,
        9223372036854775806,
        // where the Rust never ends
        9223372036854775807,
        -9223372036854775808,
    ];
    for n in numbers {
        println!(rt; "root of {n}: {}", whole::isqrt_i64(n))?;
    }
    Ok(())
}

fn pairs(rt: &impl Print) -> io::Result<()> {
    for (a, b) in [(-3, 5), (5, -3), (4, 4), (-2147483648, 2147483647)] {
        let least = whole::min_i32(a, b);
        let greatest = whole::max_i32(a, b);
        println!(rt;
            "{a}, {b}: min {least}, max {greatest}, from 0: {}",
            whole::abs_i32(a)
        )?;
    }
    Ok(())
}

fn sizes(rt: &impl Print) -> io::Result<()> {
    for (a, b) in [(3, 8), (8, 3)] {
        println!(rt;
            "min {}, max {}",
            whole::min_usize(a, b),
            whole::max_usize(a, b)
        )?;
    }
    Ok(())
}

fn clamps(rt: &impl Print) -> io::Result<()> {
    let pairs = [
        (-4, 7),
        (0, 7),
        (1, 7),
        (7, 7),
        (9, 7),
        (9223372036854775807, 0),
    ];
    for (t, w) in pairs {
        println!(rt; "{t} into 0..{w}: {}", whole::clamp_i64(t, w))?;
    }
    Ok(())
}

fn main(rt: HostRuntime) -> io::Result<()> {
    divisions(&rt)?;
    roots(&rt)?;
    pairs(&rt)?;
    sizes(&rt)?;
    clamps(&rt)
}
