// The paint call run: pictures, the rows of the table that it redoes, refusals with several things wrong, and two calls beside a build afresh.
#![tactic(auto)]

use std::io;

mod pairs;
mod refusals;
mod strokes;

// What stands in a table before a call, to count what it writes.
const MARK: f64 = 7.0;

fn slopes(target: &mut [f32], canvas: &mut [f32]) {
    figures::slope(target, 0.0, 0.02);
    figures::slope(canvas, 0.9, -0.02);
}

fn verdict(rt: &impl Print, table: &[f64], fresh: &[f64]) -> io::Result<()> {
    if figures::differing(table, fresh) == 0 {
        println!(rt; ", the table as built afresh")
    } else {
        println!(rt; ", THE TABLE NOT AS BUILT AFRESH")
    }
}

fn main(rt: HostRuntime) -> io::Result<()> {
    strokes::inside(&rt)?;
    strokes::of_nothing(&rt)?;
    strokes::past_an_edge(&rt)?;
    refusals::one_wrong(&rt)?;
    refusals::one_number_wrong(&rt)?;
    refusals::several_wrong(&rt)?;
    pairs::all(&rt)
}
