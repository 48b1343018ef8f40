// The sweep over levels, also as a call of its own for sums that were collected before, and the tests of a level list that every call with levels has.
ghost use Rattle.std.specs.Prelude.{◌≡◌, ◌≤◌, T, length};
ghost use Rattle.float.specs.Within.{number};
ghost use Rattle.float.specs.Clamped.{clamped};
ghost use Rattle.float.specs.Narrowed.{narrowed};
ghost use Rattle.grade.specs.Finalize.{over_channels, before_at, finalized};
ghost use Rattle.grade.specs.Swept.{SweepSays};
ghost use Rattle.grade.specs.AlphaSweep.{
  sweep_refusal,
  BadLevelCountSays,
  BadFirstLevelsSays,
  AlphaSweepSays,
};
ghost use Rattle.refusal.specs.Outcomes.{number_of, outcome};

use crate::Score;
use refusal::Refusal;
use sums::ShapeSums;

// Of a number the colour is a number, so that it is widened without a test.
fn known_colour(q: f64) -> f64
    requires { T (number q) }
    ensures { result ≡ narrowed (clamped q) }
{
    float::widen_number(float::narrow01(q))
}

// The change alone: a number comes back in a register, a score through memory.
fn change_any(s: ShapeSums, opacity: f32, before: f64) -> f32
    requires { before ≡ over_channels (before_at s) }
    ensures { result ≡ (finalized s opacity).change }
{
    let count = s.count;
    if count == 0 {
        return 0.0;
    }
    let m = crate::rest_of(opacity);
    let a = float::widen(opacity);
    let n = count as f64;
    let red = crate::colour_at(s, 0, a, m, n);
    let green = crate::colour_at(s, 1, a, m, n);
    let blue = crate::colour_at(s, 2, a, m, n);
    let after = crate::all_after(s, a, m, n, red, green, blue);
    float::narrow(after - before)
}

// The same for the sweep. Where the sum of the three colours before they are held to 0..1 is a number, so are they: no colour is looked at
// for a NaN then.
fn change_from(s: ShapeSums, opacity: f32, before: f64) -> f32
    requires { before ≡ over_channels (before_at s) }
    ensures { result ≡ (finalized s opacity).change }
{
    let count = s.count;
    if count == 0 {
        return 0.0;
    }
    let m = crate::rest_of(opacity);
    let a = float::widen(opacity);
    let n = count as f64;
    let denom = a * n;
    if denom > 0.0 {
        let red = crate::wanted_at(s, 0, m, denom);
        let green = crate::wanted_at(s, 1, m, denom);
        let blue = crate::wanted_at(s, 2, m, denom);
        let sum = red + green + blue;
        if sum == sum {
            let after = crate::all_wide(
                s,
                a,
                m,
                n,
                known_colour(red),
                known_colour(green),
                known_colour(blue),
            );
            return float::narrow(after - before);
        }
    }
    change_any(s, opacity, before)
}

// The first of the first n levels with the strictly smallest change. The lowest change so far starts at infinity, so
// that a NaN is never taken. The score is worked out for the best level alone.
pub fn sweep(s: ShapeSums, levels: &[f32], n: usize) -> Score
    requires { (1 ≤ n) × (n ≤ length levels.now) }
    ensures { SweepSays s levels.now n result }
{
    if s.count == 0 {
        return crate::no_score(levels[0], 0);
    }
    let before = crate::all_before(s);
    let mut best: Option<f32> = None;
    let mut lowest = 1.0 / 0.0;
    for level in &levels[0..n] {
        let change = change_from(s, *level, before);
        if change < lowest {
            lowest = change;
            best = Some(*level);
        }
    }
    let Some(opacity) = best else {
        return crate::no_score(levels[0], s.count);
    };
    crate::finalize_with(s, opacity, before)
}

// A level count is 1 to 64.
pub fn bad_level_count(n: usize) -> bool
    ensures { BadLevelCountSays n result }
{
    (n < 1) | (64 < n)
}

// One of the first n levels is not within 0..1. The others are not looked at.
pub fn bad_first_levels(levels: &[f32], n: usize) -> bool
    requires { n ≤ length levels.now }
    ensures { BadFirstLevelsSays levels.now n result }
{
    !float::all_within(&levels[0..n])
}

fn tested(levels: &[f32], n: usize) -> Result<(), Refusal>
    ensures { number_of result ≡ sweep_refusal levels.now n }
{
    if levels.len() != 64 {
        return Err(Refusal::Length);
    }
    if bad_level_count(n) {
        return Err(Refusal::Count);
    }
    if bad_first_levels(levels, n) {
        return Err(Refusal::Opacity);
    }
    Ok(())
}

// The best of the first n lent levels for sums that were collected before.
pub fn alpha_sweep(s: ShapeSums, levels: &[f32], n: usize) -> Result<Score, Refusal>
    ensures { AlphaSweepSays s levels.now n (outcome result) }
{
    tested(levels, n)?;
    Ok(sweep(s, levels, n))
}
