// Before the trials and after them.
ghost use Rattle.std.specs.Prelude.{◌≡◌, false, cond, List, ◌*◌, ◌<◌, ◌≤◌, T, eqb, ltb, length, get_or, None};
ghost use Rattle.std.proofs.Math.Seq.{slice};
ghost use Rattle.float.specs.Within.{all_within};
ghost use Rattle.refusal.specs.Refusals.{Sized};
ghost use Rattle.tally.specs.Tally.{total_of};
ghost use Rattle.picture.specs.Pixels.{bad_colour, filled};
ghost use Rattle.shapes.specs.declared.Shape.{Shape};
ghost use Rattle.shapes.specs.Lists.{listed, offered};
ghost use Rattle.traces.specs.Refinement.{painted_on};
ghost use Rattle.traces.specs.Scenes.{shape_painted};
ghost use Rattle.traces.specs.Traces.{Drawable, Traced, Tabled};
ghost use Rattle.trials.specs.Courses.{Targeted, SummedTo, aids_of, Aided};
ghost use Rattle.refine.specs.Passes.{untried, restarted, answered};

use crate::Refined;
use picture::Colour;
use shapes::{Candidates, Shape, Shapes};
use traces::Strokes;
use trials::Course;

// ---- pictures

// The first n shapes of the table over the background.
fn draw(
    w: usize,
    h: usize,
    red: f32,
    green: f32,
    blue: f32,
    n: usize,
    strokes: &Strokes,
    canvas: &mut [f32],
)
    requires { Tabled w h n strokes.now.runs strokes.now.paints × (bad_colour red green blue ≡ false) × (length canvas.old ≡ h * w * 3) }
    ensures { T (all_within canvas.new) × ((l : List Shape) → Traced w h l strokes.now.runs strokes.now.paints → n ≤ length l → canvas.new ≡ painted_on (shape_painted w h) (filled w h red green blue) (slice 0 n l)) }
{
    picture::fill(w, h, Colour { red, green, blue }, canvas);
    strokes.paint_all(w, h, 0, n, canvas);
}

// The sums of a picture, row by row.
fn sum_rows(w: usize, h: usize, target: &[f32], canvas: &[f32], sums: &mut [f64; 257])
    requires { Sized w h × Targeted w h target.now × (length canvas.now ≡ h * w * 3) × T (all_within canvas.now) × (length sums.old ≡ 257) }
    ensures { (length sums.new ≡ 257) × SummedTo w h target.now canvas.now sums.new }
{
    let mut sum = 0.0f64;
    sums[0] = sum;
    for y in 0..h {
        sum = tally::running::total_on(target, canvas, y * w * 3, w * 3, sum);
        sums[y + 1] = sum;
    }
}

// ---- before

// Nothing tried yet. The list goes into the table, and is drawn for its total.
pub(crate) fn start(
    w: usize,
    h: usize,
    red: f32,
    green: f32,
    blue: f32,
    target: &[f32],
    list: Shapes,
    first: &mut [f32],
    second: &mut [f32],
    sums: &mut [f64; 257],
    strokes: &mut Strokes,
) -> Course
    requires drawable { Drawable w h list × (bad_colour red green blue ≡ false) × Targeted w h target.now × (length first.old ≡ h * w * 3) × (length second.old ≡ h * w * 3) }
    requires sums_len { (length sums.old ≡ 257) × (length strokes.old.runs ≡ 33280) × (length strokes.old.paints ≡ 260) }
    ensures { (result ≡ untried list (total_of target.now (painted_on (shape_painted w h) (filled w h red green blue) (listed list))))
        × Aided w h target.now (filled w h red green blue) (listed list) (aids_of second.new sums.new strokes.new.runs strokes.new.paints) }
{
    strokes.trace_list(w, h, list);
    picture::fill(w, h, Colour { red, green, blue }, second);
    draw(w, h, red, green, blue, list.count, strokes, first);
    sum_rows(w, h, target, first, sums);
    let old = sums[h];
    Course {
        list,
        place: 0,
        passes: 0,
        trials: 0,
        acceptances: 0,
        made: 0,
        old,
    }
}

// How many passes may be made: none with fewer than two shapes.
pub(crate) fn most(n: usize, passes: usize) -> usize
    ensures { result ≡ cond (ltb n 2) 0 passes }
{
    if n < 2 {
        return 0;
    }
    passes
}

// A pass begins over the background.
pub(crate) fn restart(
    w: usize,
    h: usize,
    red: f32,
    green: f32,
    blue: f32,
    c: Course,
    first: &mut [f32],
) -> Course
    requires { (c.passes < 16) × (length first.old ≡ h * w * 3) }
    ensures { (result ≡ restarted c) × (first.new ≡ filled w h red green blue) }
{
    picture::fill(w, h, Colour { red, green, blue }, first);
    let list = c.list;
    Course {
        list,
        place: 0,
        passes: c.passes + 1,
        trials: c.trials,
        acceptances: c.acceptances,
        made: 0,
        old: c.old,
    }
}

// A pass with no acceptance is the last.
pub(crate) fn still(c: Course, before: usize, limit: usize) -> usize
    ensures { result ≡ cond (eqb c.acceptances before) c.passes limit }
{
    if c.acceptances == before {
        return c.passes;
    }
    limit
}

// Candidate k; past the end of the candidates there is nothing.
pub(crate) fn offer(candidates: &Candidates, k: usize) -> Option<Shape>
    requires { candidates.now.count ≤ 1024 }
    ensures { result ≡ get_or (offered candidates.now) k None }
{
    if k < candidates.count {
        return candidates.slots[k];
    }
    None
}

// ---- after

// The list over the background, in both pictures.
pub(crate) fn finish(
    w: usize,
    h: usize,
    red: f32,
    green: f32,
    blue: f32,
    n: usize,
    strokes: &Strokes,
    first: &mut [f32],
    second: &mut [f32],
)
    requires { Tabled w h n strokes.now.runs strokes.now.paints × (bad_colour red green blue ≡ false) × (length first.old ≡ h * w * 3) × (length second.old ≡ h * w * 3) }
    ensures { (l : List Shape) → Traced w h l strokes.now.runs strokes.now.paints → n ≤ length l
        → (first.new ≡ painted_on (shape_painted w h) (filled w h red green blue) (slice 0 n l)) × (second.new ≡ painted_on (shape_painted w h) (filled w h red green blue) (slice 0 n l)) }
{
    draw(w, h, red, green, blue, n, strokes, first);
    draw(w, h, red, green, blue, n, strokes, second);
}

pub(crate) fn answer(c: Course) -> Refined
    ensures { result ≡ answered c }
{
    let shapes = c.list;
    Refined {
        refusal: None,
        shapes,
        passes: c.passes,
        trials: c.trials,
        acceptances: c.acceptances,
    }
}
