// Refusals: what is tested before anything is drawn.
ghost use Rattle.std.specs.Prelude.{◌≡◌, ◌≤◌, length};
ghost use Rattle.refusal.specs.Refusals.{lowest};
ghost use Rattle.refusal.specs.Outcomes.{number_of};
ghost use Rattle.shapes.specs.Ranges.{ranges_of};
ghost use Rattle.refine.specs.Tests.{looked_at, size_tests, range_tests, refusal_of};

use picture::Colour;
use refusal::Refusal;
use shapes::{Candidates, Ranges, Shapes};

// Sizes, lengths and counts.
fn sizes_tested(
    w: usize,
    h: usize,
    target: usize,
    first: usize,
    second: usize,
    shapes: usize,
    candidates: usize,
    passes: usize,
) -> Result<(), Refusal>
    ensures { number_of result ≡ lowest (size_tests w h target first second shapes candidates passes) }
{
    if refusal::bad_size(w, h) {
        return Err(Refusal::Size);
    }
    if refusal::bad_picture(w, h, target)
        | refusal::bad_picture(w, h, first)
        | refusal::bad_picture(w, h, second)
    {
        return Err(Refusal::Length);
    }
    if (64 < shapes) | (1024 < candidates) | (16 < passes) {
        return Err(Refusal::Count);
    }
    Ok(())
}

// What was listed and lent.
fn ranges_tested(r: Ranges, red: f32, green: f32, blue: f32, target: &[f32]) -> Result<(), Refusal>
    ensures { number_of result ≡ lowest (range_tests r red green blue target.now) }
{
    if !r.places {
        return Err(Refusal::Place);
    }
    if !r.opacities {
        return Err(Refusal::Opacity);
    }
    if !r.colours | picture::bad_colour(Colour { red, green, blue }) {
        return Err(Refusal::Colour);
    }
    if !float::all_within(target) {
        return Err(Refusal::Pixel);
    }
    Ok(())
}

// The shapes of the list and the candidates.
fn look_at_all(list: Shapes, candidates: &Candidates) -> Ranges
    requires { candidates.now.count ≤ 1024 }
    ensures { result ≡ ranges_of (looked_at list candidates.now) }
{
    let mut ranges = shapes::look_through(list);
    for what in &candidates.slots[..candidates.count] {
        ranges = shapes::look_at(ranges, *what);
    }
    ranges
}

// All tests; of the two work pictures only their lengths count.
pub(crate) fn tested(
    list: Shapes,
    candidates: &Candidates,
    passes: usize,
    red: f32,
    green: f32,
    blue: f32,
    w: usize,
    h: usize,
    target: &[f32],
    first: usize,
    second: usize,
) -> Result<(), Refusal>
    ensures { number_of result ≡ refusal_of w h red green blue target.now list candidates.now passes first second }
{
    sizes_tested(
        w,
        h,
        target.len(),
        first,
        second,
        list.count,
        candidates.count,
        passes,
    )?;
    let ranges = look_at_all(list, candidates);
    ranges_tested(ranges, red, green, blue, target)
}
