// Totals: of pictures within 0..1, and of any.
use std::io;

fn shown(rt: &impl Print, w: usize, h: usize, target: &[f32], canvas: &[f32]) -> io::Result<()> {
    let t = probe_picture::probe_sse_total(w, h, target, canvas);
    println!(rt; ": {} {:016x}", t.number, float::bits64(t.total))
}

// Of two slopes, with one number of each put in its place.
fn total(
    rt: &impl Print,
    w: usize,
    h: usize,
    nt: usize,
    nc: usize,
    pt: f32,
    pc: f32,
) -> io::Result<()> {
    let mut target = [0.0f32; 20];
    let mut canvas = [0.0f32; 20];
    print!(rt; "total {w}x{h}, length {nt} {nc}, pixels")?;
    figures::number(rt, pt)?;
    figures::number(rt, pc)?;
    if nt <= 20 && nc <= 20 {
        let target = &mut target[0..nt];
        let canvas = &mut canvas[0..nc];
        figures::slope(target, 0.01, 0.047);
        figures::slope(canvas, 0.9, -0.043);
        crate::put(target, 3, pt);
        crate::put(canvas, 17, pc);
        shown(rt, w, h, target, canvas)?;
    }
    Ok(())
}

// More numbers than are tested and added at a time: all differ by a quarter, but for the last.
fn long_total(rt: &impl Print, last: f32) -> io::Result<()> {
    let target = [0.5f32; 192];
    let mut canvas = [0.25f32; 192];
    canvas[191] = last;
    print!(rt; "total 8x8, the last pixel")?;
    figures::number(rt, last)?;
    shown(rt, 8, 8, &target, &canvas)
}

fn tested(rt: &impl Print) -> io::Result<()> {
    total(rt, 2, 3, 18, 18, 0.1, 0.2)?;
    total(rt, 3, 2, 18, 18, 0.1, 0.2)?;
    total(rt, 1, 1, 3, 3, 0.1, 0.2)?;
    total(rt, 2, 3, 18, 18, -0.0, 1.0)?;
    total(rt, 2, 3, 18, 18, float::of_bits32(0x0000_0001), 0.2)?;
    total(rt, 0, 3, 18, 18, 0.1, 0.2)?;
    total(rt, 2, 257, 18, 18, 0.1, 0.2)?;
    total(rt, 2, 3, 17, 18, 0.1, 0.2)?;
    total(rt, 2, 3, 18, 19, 0.1, 0.2)?;
    total(rt, 3, 3, 18, 18, 0.1, 0.2)?;
    total(rt, 2, 3, 18, 18, float::of_bits32(0x3f80_0001), 0.2)?;
    total(rt, 2, 3, 18, 18, float::of_bits32(0x8000_0001), 0.2)?;
    total(rt, 2, 3, 18, 18, 0.1, float::of_bits32(0x7fc0_0000))?;
    total(rt, 0, 3, 17, 18, 2.0, 0.2)?;
    total(rt, 2, 257, 18, 18, 0.1, 2.0)?;
    total(rt, 2, 3, 18, 17, 2.0, 0.2)?;
    long_total(rt, 0.25)?;
    long_total(rt, 2.0)
}

// A total of any numbers: 0.7 and 0.1 differ by less in f32 than widened first, and a difference of a NaN is none.
fn total_any(rt: &impl Print, t: f32, c: f32) -> io::Result<()> {
    let target = [t, 0.5f32];
    let canvas = [c, 0.5f32];
    print!(rt; "total of any")?;
    figures::number(rt, t)?;
    figures::number(rt, c)?;
    println!(rt;
        ": {:016x}",
        float::bits64(picture::total_any(&target, &canvas))
    )
}

pub(crate) fn all(rt: &impl Print) -> io::Result<()> {
    tested(rt)?;
    total_any(rt, 0.7, 0.1)?;
    total_any(rt, float::of_bits32(0x7fc0_0000), 0.1)
}
