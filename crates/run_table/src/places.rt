// The numbers themselves, of 2 pixels.
use crate::MARK;
use std::io;
use sums::ShapeSums;

const TARGET: [f32; 6] = [0.1, 0.2, 0.3, 0.7, 0.9, -0.0];

const CANVAS: [f32; 6] = [0.5, 0.25, -0.0, 0.3, 0.6, 1.0];

// The fifteen sums of each place, five lines of three.
fn shown(rt: &impl Print, places: &[f64]) -> io::Result<()> {
    let (threes, _) = places.as_chunks::<3>();
    for xs in threes {
        figures::three(rt, *xs)?;
    }
    Ok(())
}

// Pixels left to right of a row of 2, added to sums over five others.
fn span(rt: &impl Print, places: &[f64; 45], left: usize, right: usize) -> io::Result<()> {
    if left <= right && right <= 2 {
        let some = ShapeSums {
            s_t: [1.0, 2.0, 3.0],
            s_c: [4.0, 5.0, 6.0],
            s_t2: [7.0, 8.0, 9.0],
            s_c2: [10.0, 11.0, 12.0],
            s_tc: [13.0, 14.0, 15.0],
            count: 5,
        };
        let s = table::add_span(places, 2, 0, left, right, some);
        println!(rt; "span {left} to {right}, {} pixels", s.count)?;
        figures::series(rt, s)?;
    }
    Ok(())
}

pub(crate) fn of_a_row(rt: &impl Print) -> io::Result<()> {
    let mut places = [MARK; 45];
    let _ = table::build(&TARGET, &CANVAS, 2, 1, &mut places);
    println!(rt; "built")?;
    shown(rt, &places)?;
    for (left, right) in [(0, 1), (0, 2), (1, 2)] {
        span(rt, &places, left, right)?;
    }
    let changed = [0.9f32, 0.8, 0.7, 0.6, float::of_bits32(0x7fc0_0000), 0.4];
    let _ = table::update_canvas_rows(&TARGET, &changed, 2, 1, &mut places, 0, 0);
    println!(rt; "updated, with a NaN")?;
    shown(rt, &places)
}

// The same pixels as 2 rows of 1: each row starts afresh.
pub(crate) fn of_a_column(rt: &impl Print) -> io::Result<()> {
    let mut places = [MARK; 60];
    let _ = table::build(&TARGET, &CANVAS, 1, 2, &mut places);
    println!(rt; "built, 2 rows")?;
    shown(rt, &places)
}
