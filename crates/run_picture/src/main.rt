// Fill, mean, total and painting on small pictures, number for number, and the refusals of each, several wrong at once.
// Painting goes through the probes, which have its tests.
#![tactic(auto)]

use picture::Colour;
use std::io;

mod fills;
mod means;
mod paints;
mod totals;

// Number i is x, if there is one.
fn put(xs: &mut [f32], i: usize, x: f32) {
    if i < xs.len() {
        xs[i] = x;
    }
}

fn colour(rt: &impl Print, c: Colour) -> io::Result<()> {
    figures::number(rt, c.red)?;
    figures::number(rt, c.green)?;
    figures::number(rt, c.blue)
}

fn painted(rt: &impl Print, no: u8, canvas: &[f32]) -> io::Result<()> {
    println!(rt; ": {no}")?;
    figures::numbers(rt, canvas, 3)
}

fn main(rt: HostRuntime) -> io::Result<()> {
    fills::all(&rt)?;
    means::all(&rt)?;
    means::long(&rt)?;
    totals::all(&rt)?;
    paints::all(&rt)
}
