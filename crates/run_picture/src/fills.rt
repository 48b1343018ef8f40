// Fill: sizes, lengths and colours.
use picture::Colour;
use std::io;

fn fill(
    rt: &impl Print,
    w: usize,
    h: usize,
    n: usize,
    red: f32,
    green: f32,
    blue: f32,
) -> io::Result<()> {
    let colour = Colour { red, green, blue };
    let mut canvas = [0.0f32; 63];
    print!(rt; "fill {w}x{h}, length {n}, colour")?;
    crate::colour(rt, colour)?;
    if n <= 63 {
        let canvas = &mut canvas[0..n];
        figures::slope(canvas, 0.25, 0.03125);
        let no = refusal::number_of(picture::filled_canvas(w, h, colour, canvas));
        crate::painted(rt, no, canvas)?;
    }
    Ok(())
}

pub(crate) fn all(rt: &impl Print) -> io::Result<()> {
    fill(rt, 1, 2, 6, 0.1, 0.2, 0.3)?;
    fill(rt, 2, 1, 6, -0.0, 1.0, 0.0)?;
    // pixels 16 to 19 are written as four, pixel 20 by itself again
    fill(rt, 7, 3, 63, 0.1, 0.2, 0.3)?;
    // a size; a product of sizes that wraps would be 6
    fill(rt, 0, 2, 6, 0.1, 0.2, 0.3)?;
    fill(rt, 1, 257, 6, 0.1, 0.2, 0.3)?;
    fill(rt, 2, 9223372036854775809, 6, 0.1, 0.2, 0.3)?;
    // a length
    fill(rt, 1, 2, 5, 0.1, 0.2, 0.3)?;
    fill(rt, 2, 2, 6, 0.1, 0.2, 0.3)?;
    // a colour: just above 1, just below 0, a NaN
    fill(rt, 1, 2, 6, float::of_bits32(0x3f80_0001), 0.2, 0.3)?;
    fill(rt, 1, 2, 6, 0.1, float::of_bits32(0x8000_0001), 0.3)?;
    fill(rt, 1, 2, 6, 0.1, 0.2, float::of_bits32(0x7fc0_0000))?;
    // size and length; size and colour; length and colour; all three
    fill(rt, 0, 2, 3, 0.1, 0.2, 0.3)?;
    fill(rt, 257, 1, 6, 2.0, 0.2, 0.3)?;
    fill(rt, 1, 1, 6, 0.1, 0.2, 2.0)?;
    fill(rt, 1, 0, 6, 0.1, 0.2, 2.0)
}
