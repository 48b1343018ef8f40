// Mean: of a slope, with one number put in its place.
use picture::Colour;
use std::io;

fn shown(rt: &impl Print, w: usize, h: usize, target: &[f32]) -> io::Result<()> {
    let m = probe_picture::probe_mean_rgb(w, h, target);
    let colour = Colour {
        red: m.red,
        green: m.green,
        blue: m.blue,
    };
    print!(rt; ": {}", m.number)?;
    crate::colour(rt, colour)?;
    println!(rt)
}

fn mean(rt: &impl Print, w: usize, h: usize, n: usize, last: f32) -> io::Result<()> {
    let mut target = [0.0f32; 20];
    print!(rt; "mean {w}x{h}, length {n}, last")?;
    figures::number(rt, last)?;
    if n <= 20 {
        let target = &mut target[0..n];
        figures::slope(target, 0.01, 0.047);
        crate::put(target, 17, last);
        shown(rt, w, h, target)?;
    }
    Ok(())
}

pub(crate) fn all(rt: &impl Print) -> io::Result<()> {
    mean(rt, 2, 3, 18, 0.81)?;
    mean(rt, 3, 2, 18, 0.81)?;
    mean(rt, 1, 1, 3, 0.81)?;
    mean(rt, 1, 5, 15, 0.81)?;
    mean(rt, 2, 3, 18, -0.0)?;
    mean(rt, 2, 3, 18, 1.0)?;
    mean(rt, 0, 3, 18, 0.81)?;
    mean(rt, 2, 257, 18, 0.81)?;
    mean(rt, 2, 3, 17, 0.81)?;
    mean(rt, 3, 3, 18, 0.81)?;
    mean(rt, 2, 3, 18, float::of_bits32(0x3f80_0001))?;
    mean(rt, 2, 3, 18, float::of_bits32(0x8000_0001))?;
    mean(rt, 2, 3, 18, float::of_bits32(0x7fc0_0000))?;
    mean(rt, 0, 3, 17, 2.0)?;
    mean(rt, 257, 3, 18, 2.0)?;
    mean(rt, 2, 3, 20, 2.0)
}

// Pictures of more than the 16 pixels that are added at a time, number `at` another.
fn long_mean(rt: &impl Print, w: usize, h: usize, n: usize, at: usize, x: f32) -> io::Result<()> {
    let mut target = [0.0f32; 120];
    print!(rt; "mean {w}x{h}, length {n}, number {at}")?;
    figures::number(rt, x)?;
    if n <= 120 {
        let target = &mut target[0..n];
        figures::slope(target, 0.01, 0.008);
        crate::put(target, at, x);
        shown(rt, w, h, target)?;
    }
    Ok(())
}

pub(crate) fn long(rt: &impl Print) -> io::Result<()> {
    long_mean(rt, 5, 3, 45, 0, 0.5)?;
    long_mean(rt, 4, 4, 48, 0, 0.5)?;
    long_mean(rt, 4, 4, 48, 47, 0.5)?;
    long_mean(rt, 17, 1, 51, 24, 0.0625)?;
    long_mean(rt, 8, 4, 96, 60, -0.0)?;
    long_mean(rt, 3, 13, 117, 95, 1.0)?;
    long_mean(rt, 1, 40, 120, 119, 0.25)?;
    long_mean(rt, 4, 4, 48, 23, 1.5)?;
    long_mean(rt, 4, 4, 48, 24, -0.5)?;
    long_mean(rt, 8, 4, 96, 95, float::of_bits32(0x7fc0_0000))?;
    long_mean(rt, 3, 13, 117, 116, 2.0)
}
