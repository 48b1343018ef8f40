// Refusals: circle (cx, 1) r 1, a colour's red, and what is lent.
use crate::MARK;
use cover::Kind;
use picture::Colour;
use std::io;

const PLAIN: f32 = 0.25;

// How many numbers of a plain picture were changed.
fn changed(canvas: &[f32]) -> usize {
    canvas.iter().filter(|&&x| x != PLAIN).count()
}

// So many numbers of target, canvas and table are lent.
fn ask(
    rt: &impl Print,
    cx: i32,
    opacity: f32,
    red: f32,
    w: usize,
    h: usize,
    nt: usize,
    nc: usize,
    n: usize,
) -> io::Result<()> {
    print!(rt; "x {cx}, opacity")?;
    figures::number(rt, opacity)?;
    print!(rt; ", red")?;
    figures::number(rt, red)?;
    print!(rt; ", {w}x{h}, lengths {nt} {nc} {n}")?;
    let target = [0.5f32; 40];
    let mut canvas = [PLAIN; 40];
    let mut places = [MARK; 240];
    if nt <= 40 && nc <= 40 && n <= 240 {
        let colour = Colour {
            red,
            green: 0.5,
            blue: 0.5,
        };
        let answer = paint::paint(
            Kind::Circle(cx, 1, 1),
            opacity,
            colour,
            w,
            h,
            &target[0..nt],
            &mut canvas[0..nc],
            &mut places[0..n],
        );
        let redone = figures::differing(&places[0..n], &[MARK; 240]);
        println!(rt;
            ": {}, changed {} and {redone}",
            refusal::number_of(answer),
            changed(&canvas[0..nc])
        )?;
    }
    Ok(())
}

pub(crate) fn one_wrong(rt: &impl Print) -> io::Result<()> {
    // none
    ask(rt, 1, 0.5, 1.0, 4, 3, 36, 36, 225)?;
    ask(rt, 8191, 0.5, 1.0, 4, 3, 36, 36, 225)?;
    ask(rt, -8191, 0.5, 1.0, 4, 3, 36, 36, 225)?;
    ask(rt, 1, -0.0, -0.0, 4, 3, 36, 36, 225)?;
    ask(rt, 1, 1.0, 1.0, 3, 4, 36, 36, 240)?;
    // a size
    ask(rt, 1, 0.5, 1.0, 0, 3, 36, 36, 225)?;
    ask(rt, 1, 0.5, 1.0, 4, 0, 36, 36, 225)?;
    ask(rt, 1, 0.5, 1.0, 257, 3, 36, 36, 225)?;
    ask(rt, 1, 0.5, 1.0, 4, 257, 36, 36, 225)?;
    // a length
    ask(rt, 1, 0.5, 1.0, 4, 3, 35, 36, 225)?;
    ask(rt, 1, 0.5, 1.0, 4, 3, 36, 35, 225)?;
    ask(rt, 1, 0.5, 1.0, 4, 3, 36, 37, 225)?;
    ask(rt, 1, 0.5, 1.0, 4, 3, 36, 36, 224)?;
    ask(rt, 1, 0.5, 1.0, 3, 4, 36, 36, 225)
}

pub(crate) fn one_number_wrong(rt: &impl Print) -> io::Result<()> {
    // a place
    ask(rt, 8192, 0.5, 1.0, 4, 3, 36, 36, 225)?;
    ask(rt, -8192, 0.5, 1.0, 4, 3, 36, 36, 225)?;
    // an opacity: just above 1, just below 0, a NaN
    ask(rt, 1, float::of_bits32(0x3f80_0001), 1.0, 4, 3, 36, 36, 225)?;
    ask(rt, 1, float::of_bits32(0x8000_0001), 1.0, 4, 3, 36, 36, 225)?;
    ask(rt, 1, float::of_bits32(0x7fc0_0000), 1.0, 4, 3, 36, 36, 225)?;
    // a colour
    ask(rt, 1, 0.5, float::of_bits32(0x3f80_0001), 4, 3, 36, 36, 225)?;
    ask(rt, 1, 0.5, float::of_bits32(0x7fc0_0000), 4, 3, 36, 36, 225)
}

pub(crate) fn several_wrong(rt: &impl Print) -> io::Result<()> {
    ask(rt, 8192, 2.0, 2.0, 0, 3, 35, 36, 225)?;
    ask(rt, 8192, 2.0, 2.0, 4, 3, 35, 36, 225)?;
    ask(rt, 8192, 2.0, 2.0, 4, 3, 36, 36, 225)?;
    ask(rt, 1, 2.0, 2.0, 4, 3, 36, 36, 225)?;
    ask(rt, 8192, 0.5, 2.0, 4, 3, 36, 36, 225)?;
    ask(rt, 1, 0.5, 2.0, 4, 3, 36, 36, 0)?;
    ask(rt, 8192, 0.5, 1.0, 4, 257, 36, 36, 225)?;
    ask(rt, 1, 2.0, 1.0, 4, 3, 36, 0, 225)
}
