// Refusals of both calls, and what they write of a table.
use crate::MARK;
use refusal::Refusal;
use std::io;

// A picture's columns and rows, how many numbers of target, canvas and table are lent, and a pixel of the target and of the canvas.
type Case = (usize, usize, usize, usize, usize, f32, f32);

fn ask<F>(rt: &impl Print, name: &str, call: &F, case: Case) -> io::Result<()>
where
    F: Fn(&[f32], &[f32], usize, usize, &mut [f64]) -> Result<(), Refusal>,
    requires { F.IsAlwaysCallable call.now }
{
    let (w, h, nt, nc, n, pt, pc) = case;
    print!(rt; "{name} {w}x{h}, lengths {nt} {nc} {n}, pixels")?;
    figures::number(rt, pt)?;
    figures::number(rt, pc)?;
    let mut target = [0.5f32; 20];
    let mut canvas = [0.25f32; 20];
    let mut places = [MARK; 150];
    target[3] = pt;
    canvas[17] = pc;
    if nt <= 20 && nc <= 20 && n <= 150 {
        let places = &mut places[0..n];
        let answer = call(&target[0..nt], &canvas[0..nc], w, h, places);
        println!(rt;
            ": {}, numbers written {}",
            refusal::number_of(answer),
            figures::differing(places, &[MARK; 150])
        )?;
    }
    Ok(())
}

pub(crate) fn builds(rt: &impl Print) -> io::Result<()> {
    for case in [
        // none wrong; -0.0 and 1.0 are within
        (2, 3, 18, 18, 135, 0.5, 0.25),
        (2, 3, 18, 18, 135, -0.0, 0.25),
        (2, 3, 18, 18, 135, 1.0, 0.25),
        (3, 2, 18, 18, 120, 0.5, 0.25),
        // a size
        (0, 3, 18, 18, 135, 0.5, 0.25),
        (2, 0, 18, 18, 135, 0.5, 0.25),
        (257, 3, 18, 18, 135, 0.5, 0.25),
        (2, 257, 18, 18, 135, 0.5, 0.25),
        // a product of these sizes that wraps would be 18
        (2, 9223372036854775811, 18, 18, 135, 0.5, 0.25),
        // a length
        (2, 3, 17, 18, 135, 0.5, 0.25),
        (2, 3, 18, 19, 135, 0.5, 0.25),
        (2, 3, 18, 18, 134, 0.5, 0.25),
        (2, 3, 18, 18, 136, 0.5, 0.25),
        (3, 2, 18, 18, 135, 0.5, 0.25),
        // a pixel: just above 1, just below 0, a NaN
        (2, 3, 18, 18, 135, float::of_bits32(0x3f80_0001), 0.25),
        (2, 3, 18, 18, 135, float::of_bits32(0x8000_0001), 0.25),
        (2, 3, 18, 18, 135, float::of_bits32(0x7fc0_0000), 0.25),
        (2, 3, 18, 18, 135, 0.5, 2.0),
        (2, 3, 18, 18, 135, 0.5, float::of_bits32(0x7fc0_0000)),
        // a size and a length; a size and a pixel; a length and a pixel; all three
        (0, 3, 17, 18, 135, 0.5, 0.25),
        (257, 3, 18, 18, 135, 2.0, 0.25),
        (2, 3, 18, 18, 134, 2.0, 0.25),
        (2, 0, 18, 17, 134, 2.0, 0.25),
    ] {
        ask(rt, "build", &table::build, case)?;
    }
    Ok(())
}

pub(crate) fn updates(rt: &impl Print) -> io::Result<()> {
    for case in [
        // none wrong: an update reads any pixel
        (2, 3, 18, 18, 135, 0.5, 0.25),
        (2, 3, 18, 18, 135, 2.0, 0.25),
        (2, 3, 18, 18, 135, float::of_bits32(0x7fc0_0000), 0.25),
        (2, 3, 18, 18, 135, 0.5, float::of_bits32(0xffc0_0001)),
        // a size
        (0, 3, 18, 18, 135, 0.5, 0.25),
        (2, 257, 18, 18, 135, 0.5, 0.25),
        // a length
        (2, 3, 20, 18, 135, 0.5, 0.25),
        (2, 3, 18, 0, 135, 0.5, 0.25),
        (2, 3, 18, 18, 0, 0.5, 0.25),
        (3, 2, 18, 18, 135, 0.5, 0.25),
        // a size and a length, and a pixel that does not matter
        (257, 3, 17, 18, 135, 0.5, 0.25),
        (2, 0, 18, 18, 136, 2.0, 0.25),
        (2, 3, 18, 17, 135, 2.0, 0.25),
    ] {
        ask(
            rt,
            "update",
            &|target: &[f32], canvas: &[f32], w, h, places: &mut [f64]| {
                table::update_canvas_rows(target, canvas, w, h, places, 0, 2)
            },
            case,
        )?;
    }
    Ok(())
}
