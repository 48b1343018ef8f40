// Totals that go on from a sum, for pictures whose first rows were added up before.
ghost use Rattle.std.specs.Prelude.{◌+◌, ◌≤◌, T, length};
ghost use Rattle.float.specs.Within.{all_within};
ghost use Rattle.tally.specs.Rows.{TotalOnSays};

use crate::totals::squared;

// The squared differences of `count` numbers from number `from` on, added to a sum one by one.
pub fn total_on(target: &[f32], canvas: &[f32], from: usize, count: usize, sum: f64) -> f64
    requires count_in_bounds { (from + count ≤ length target.now) × (from + count ≤ length canvas.now) }
    requires t { T (all_within target.now) × T (all_within canvas.now) }
    ensures { TotalOnSays target.now canvas.now from count sum result }
{
    let mut total = sum;
    for i in 0..count {
        total = total + squared(target[from + i], canvas[from + i]);
    }
    total
}
