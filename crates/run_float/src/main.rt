// Document 01's figures of narrowing, and what floats do at the ends of their ranges: each as patterns, so that signs of zero and NaNs are seen.
#![tactic(auto)]

use std::io;

fn narrowings(rt: &impl Print) -> io::Result<()> {
    let patterns = [
        // document 01: 1 + 2^-24, 1 + 3·2^-24, 2^-150, 2^128 - 2^103
        0x3ff0_0000_1000_0000,
        0x3ff0_0000_3000_0000,
        0x3690_0000_0000_0000,
        0x47ef_ffff_f000_0000,
        // 2^-149, 3·2^-150 (a tie below the normal range), 2^128 + 2^105, -0.0, -infinity
        0x36a0_0000_0000_0000,
        0x36a8_0000_0000_0000,
        0x47f0_0000_2000_0000,
        0x8000_0000_0000_0000,
        0xfff0_0000_0000_0000,
        // NaNs of either sign, quiet and signalling, with digits of their own
        0x7ff8_0000_0000_0000,
        0xfff8_0000_0000_0000,
        0x7ffc_0000_0000_0000,
        0x7ff0_0000_0000_0001,
        0xfff7_ffff_ffff_ffff,
    ];
    for b in patterns {
        let bits = float::narrow_bits(b);
        let value = float::bits32(float::narrow(float::of_bits64(b)));
        println!(rt; "narrow {b:016x}: {bits:08x}, by value {value:08x}")?;
    }
    Ok(())
}

fn singles(rt: &impl Print) -> io::Result<()> {
    // 0.0, -0.0, the smallest, 1 and its neighbours, the largest, infinity, the smallest below 0, NaNs
    let patterns = [
        0x0000_0000,
        0x8000_0000,
        0x0000_0001,
        0x3f7f_ffff,
        0x3f80_0000,
        0x3f80_0001,
        0x7f7f_ffff,
        0x7f80_0000,
        0x8000_0001,
        0x7fc0_0000,
        0xffc0_0001,
        0x7f80_0001,
    ];
    for b in patterns {
        let x = float::of_bits32(b);
        let back = float::bits32(x);
        let wide = float::bits64(float::widen(x));
        println!(rt;
            "{b:08x}: read and written {back:08x}, widened {wide:016x}, within {}",
            float::within(x) as u8
        )?;
    }
    Ok(())
}

fn clamps(rt: &impl Print) -> io::Result<()> {
    // -0.0, the smallest below 0, 0.5, 1, 1.5, infinities, a NaN; 2^-149 and 2^-126
    let patterns = [
        0x8000_0000_0000_0000,
        0x8000_0000_0000_0001,
        0x3fe0_0000_0000_0000,
        0x3ff0_0000_0000_0000,
        0x3ff8_0000_0000_0000,
        0x7ff0_0000_0000_0000,
        0xfff0_0000_0000_0000,
        0xfff8_0000_0000_0001,
        0x36a0_0000_0000_0000,
        0x3810_0000_0000_0000,
    ];
    for b in patterns {
        let x = float::of_bits64(b);
        let clamped = float::bits64(float::clamp01(x));
        let narrowed = float::bits32(float::narrow01(x));
        println!(rt; "clamp {b:016x}: {clamped:016x}, narrowed {narrowed:08x}")?;
    }
    Ok(())
}

fn list(rt: &impl Print, xs: &[f32]) -> io::Result<()> {
    let within = float::all_within(xs) as u8;
    let numbers = float::all_numbers(xs) as u8;
    println!(rt;
        "{} elements: all within {within}, all numbers {numbers}",
        xs.len()
    )
}

fn lists(rt: &impl Print) -> io::Result<()> {
    let nan = float::of_bits32(0x7fc0_0000);
    let infinity = float::of_bits32(0x7f80_0000);
    list(rt, &[])?;
    list(rt, &[0.0, -0.0, 0.5, 1.0])?;
    list(rt, &[2.0])?;
    list(rt, &[2.0, 0.0])?;
    list(rt, &[float::of_bits32(0x3f80_0001)])?;
    list(rt, &[infinity])?;
    list(rt, &[0.0, nan])?;
    list(rt, &[0.0, 0.0, 0.0, 0.0, 0.0, 0.0, 0.0, 0.0, nan, 0.0])
}

fn marked(rt: &impl Print) -> io::Result<()> {
    // 1.5, -3, infinities, a NaN
    let patterns = [
        0x3fc0_0000,
        0xc040_0000,
        0x7f80_0000,
        0xff80_0000,
        0x7fc0_0000,
    ];
    for b in patterns {
        let marks = float::marks(float::of_bits32(b));
        println!(rt; "{b:08x}: marks {marks:08x}")?;
    }
    Ok(())
}

fn main(rt: HostRuntime) -> io::Result<()> {
    narrowings(&rt)?;
    singles(&rt)?;
    clamps(&rt)?;
    lists(&rt)?;
    marked(&rt)
}
