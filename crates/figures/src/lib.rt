// Numbers of pictures and tables, for the programs that run figures: numbers to begin with, how many differ, and how they are written.
// What is written is compared with the programs' files `stdout`; no contract can say it.
#![tactic(auto)]

ghost use Rattle.std.specs.Prelude.{◌≡◌, count_by};
ghost use Rattle.std.specs.List.{zip};
ghost use Rattle.std.specs.Float.Ieee.{ne};
ghost use Rattle.figures.specs.Figures.{SlopeSays, DifferingSays};

use std::io;
use sums::ShapeSums;

// A first number, and each next one a step from the one before.
pub fn slope(xs: &mut [f32], first: f32, step: f32)
    ensures { SlopeSays xs.old first step xs.new }
{
    let mut x = first;
    for y in xs.iter_mut() {
        *y = x;
        x = x + step;
    }
}

// The chain by the library's words; `differing` says it by the rule's.
fn pairs_differing(a: &[f64], b: &[f64]) -> usize
    ensures { result ≡ count_by (λ p. ne p.0 p.1) (zip a.now b.now) }
{
    a.iter().zip(b).filter(|(x, y)| **x != **y).count()
}

// How many numbers differ from those in the same places of another list, as far as both go. A NaN differs from any.
pub fn differing(a: &[f64], b: &[f64]) -> usize
    ensures { DifferingSays a.now b.now result }
{
    pairs_differing(a, b)
}

pub fn number(rt: &impl Print, x: f32) -> io::Result<()> {
    print!(rt; " {:08x}", float::bits32(x))
}

// A line ends behind each `across` numbers, and so behind the last where they fill it.
pub fn numbers(rt: &impl Print, xs: &[f32], across: usize) -> io::Result<()> {
    for (i, x) in xs.iter().enumerate() {
        number(rt, *x)?;
        if (i + 1).is_multiple_of(across) {
            println!(rt)?;
        }
    }
    Ok(())
}

// A line of three f64.
pub fn three(rt: &impl Print, xs: [f64; 3]) -> io::Result<()> {
    for x in xs {
        print!(rt; " {:016x}", float::bits64(x))?;
    }
    println!(rt)
}

// The five sums, a line each.
pub fn series(rt: &impl Print, s: ShapeSums) -> io::Result<()> {
    let ShapeSums {
        s_t,
        s_c,
        s_t2,
        s_c2,
        s_tc,
        ..
    } = s;
    for xs in [s_t, s_c, s_t2, s_c2, s_tc] {
        three(rt, xs)?;
    }
    Ok(())
}
