// Shapes painted on small pictures.
use picture::Colour;
use std::io;

const COLOUR: Colour = Colour {
    red: 0.1,
    green: 0.7,
    blue: 0.9,
};

// A picture of w by h, of n numbers, with the shape on it.
fn blended(
    rt: &impl Print,
    w: usize,
    h: usize,
    n: usize,
    shape: &[i32],
    opacity: f32,
) -> io::Result<()> {
    figures::number(rt, opacity)?;
    let mut canvas = [0.0f32; 64];
    if n <= 64 {
        let canvas = &mut canvas[0..n];
        figures::slope(canvas, 0.0, 0.015625);
        let no = probe_picture::probe_blend(w, h, shape, opacity, COLOUR, canvas);
        crate::painted(rt, no, canvas)?;
    }
    Ok(())
}

fn circle(
    rt: &impl Print,
    w: usize,
    h: usize,
    n: usize,
    cx: i32,
    cy: i32,
    r: i32,
    opacity: f32,
) -> io::Result<()> {
    print!(rt; "circle {cx} {cy} {r} on {w}x{h}, length {n}, opacity")?;
    blended(rt, w, h, n, &[cx, cy, r], opacity)
}

fn circles(rt: &impl Print) -> io::Result<()> {
    circle(rt, 5, 4, 60, 1, 2, 1, 0.3)?;
    circle(rt, 4, 5, 60, 1, 2, 2, 0.2)?;
    circle(rt, 1, 1, 3, 0, 0, 1, 1.0)?;
    circle(rt, 1, 1, 3, 0, 0, 1, 0.0)?;
    circle(rt, 1, 1, 3, 0, 0, 0, 0.5)?;
    circle(rt, 1, 1, 3, 0, 0, -3, 0.5)?;
    circle(rt, 2, 1, 6, 0, 0, 8191, 0.5)?;
    // any opacity
    circle(rt, 1, 1, 3, 0, 0, 1, 2.0)?;
    circle(rt, 1, 1, 3, 0, 0, 1, float::of_bits32(0x7fc0_0000))?;
    // refused: size, length, place, and several
    circle(rt, 0, 1, 3, 0, 0, 1, 0.5)?;
    circle(rt, 1, 257, 3, 0, 0, 1, 0.5)?;
    circle(rt, 1, 1, 4, 0, 0, 1, 0.5)?;
    circle(rt, 1, 1, 3, 8192, 0, 1, 0.5)?;
    circle(rt, 1, 1, 3, 0, -8192, 1, 0.5)?;
    circle(rt, 1, 1, 3, 0, 0, 8192, 0.5)?;
    circle(rt, 0, 1, 4, 0, 0, 8192, 0.5)?;
    circle(rt, 1, 1, 2, 8192, 0, 1, 0.5)
}

pub(crate) fn all(rt: &impl Print) -> io::Result<()> {
    circles(rt)?;
    print!(rt; "triangle 0 0 4 0 0 3 on 5x4, opacity")?;
    blended(rt, 5, 4, 60, &[0, 0, 4, 0, 0, 3], 0.2)?;
    print!(rt; "quad 1 1 9 1 9 2 1 2 on 5x4, opacity")?;
    blended(rt, 5, 4, 60, &[1, 1, 9, 1, 9, 2, 1, 2], 0.9)
}
