// Refinement: shapes of a list are tried against candidates, and leave for one that lowers the total.
#![tactic(auto)]

ghost use Rattle.std.specs.Prelude.{◌≡◌};
ghost use Rattle.refusal.specs.Outcomes.{number};
ghost use Rattle.refine.specs.Answers.{told, refused_with, RefineShapesSays};

use refusal::Refusal;
use shapes::{Candidates, Shapes};
use traces::Strokes;

pub(crate) mod courses;
pub(crate) mod tests;

// What refinement answers. Refused: why, the list as handed in, and all else 0.
#[derive(Clone, Copy)]
pub struct Refined {
    pub refusal: Option<Refusal>,
    pub shapes: Shapes,
    pub passes: usize,
    pub trials: usize,
    pub acceptances: usize,
}

// The list as handed in, all else zero.
fn refuse(why: Refusal, list: Shapes) -> Refined
    ensures { told result ≡ refused_with (number why) list }
{
    Refined {
        refusal: Some(why),
        shapes: list,
        passes: 0,
        trials: 0,
        acceptances: 0,
    }
}

// Trial k takes candidate k. The candidates lie here alone: one at a time is handed on. Refused: no lent number has changed.
pub fn refine_shapes(
    list: Shapes,
    candidates: Candidates,
    passes: usize,
    red: f32,
    green: f32,
    blue: f32,
    w: usize,
    h: usize,
    target: &[f32],
    first: &mut [f32],
    second: &mut [f32],
) -> Refined
    ensures { RefineShapesSays w h red green blue target.now list candidates passes first.old second.old result first.new second.new }
{
    let tested = tests::tested(
        list,
        &candidates,
        passes,
        red,
        green,
        blue,
        w,
        h,
        target,
        first.len(),
        second.len(),
    );
    if let Err(why) = tested {
        return refuse(why, list);
    }
    let n = list.count;
    let mut sums = [0.0f64; 257];
    let mut strokes = Strokes {
        runs: [0; 33280],
        paints: [0.0; 260],
    };
    let mut c = courses::start(
        w,
        h,
        red,
        green,
        blue,
        target,
        list,
        first,
        second,
        &mut sums,
        &mut strokes,
    );
    let mut limit = courses::most(n, passes);
    // Kept: no index is counted; the limit falls where a pass accepts nothing.
    while c.passes < limit {
        let before = c.acceptances;
        c = courses::restart(w, h, red, green, blue, c, first);
        for t in 0..n {
            let what = courses::offer(&candidates, c.trials);
            c = trials::step(
                w,
                h,
                target,
                c,
                what,
                first,
                second,
                &mut sums,
                &mut strokes,
            );
        }
        limit = courses::still(c, before, limit);
    }
    courses::finish(w, h, red, green, blue, n, &strokes, first, second);
    courses::answer(c)
}
