// One trial: the rows that shape j and the candidate reach are drawn anew, and added up.
#![tactic(auto)]

ghost use Rattle.std.specs.Prelude.{◌≡◌, List, [], ◌∷◌, ◌++◌, ℕ, ◌+◌, ◌*◌, ◌<◌, ◌≤◌, T, Float, length, get_or};
ghost use Rattle.std.specs.Float.{nan};
ghost use Rattle.std.proofs.Math.Seq.{slice};
ghost use Rattle.float.specs.Within.{all_within};
ghost use Rattle.refusal.specs.Refusals.{Sized};
ghost use Rattle.cover.specs.ReachRows.{reach_rows};
ghost use Rattle.tally.specs.Rows.{total_on};
ghost use Rattle.shapes.specs.declared.Shape.{Shape};
ghost use Rattle.shapes.specs.Lists.{listed};
ghost use Rattle.shapes.specs.Ranges.{fits};
ghost use Rattle.traces.specs.Refinement.{painted_on};
ghost use Rattle.traces.specs.Scenes.{shape_painted};
ghost use Rattle.traces.specs.Traces.{Drawable, Traced, Tabled};
ghost use Rattle.trials.specs.Courses.{Targeted, SummedTo, Spanned, Apart, Judged, risen, taken, aids_of, Ready, StepSays};

use cover::reached::Rows;
use shapes::{Shape, Shapes};
use traces::Strokes;

// How far refinement has come: the list, the place j of the next trial and the three counts of the answer; how many shapes the
// first work picture has, and the total of the whole list.
#[derive(Clone, Copy)]
pub struct Course {
    pub list: Shapes,
    pub place: usize,
    pub passes: usize,
    pub trials: usize,
    pub acceptances: usize,
    pub made: usize,
    pub old: f64,
}

// The rows of a picture that a shape can reach.
fn rows_of(w: usize, h: usize, s: Shape) -> Rows
    requires { Sized w h × T (fits s) }
    ensures { result ≡ reach_rows s.kind w h }
{
    let kind = s.kind;
    cover::reached::reach_rows(kind, w, h)
}

// The rows that may change if one shape goes and another comes, and those between them.
fn spanned(w: usize, h: usize, s: Shape, x: Shape) -> Rows
    requires { Sized w h × T (fits s) × T (fits x) }
    ensures { Spanned w h s x result }
{
    let old = rows_of(w, h, s);
    let new = rows_of(w, h, x);
    let top = old.top.min(new.top).min(h);
    let bottom = old.bottom.max(new.bottom).min(h);
    Rows {
        top,
        bottom: top.max(bottom),
    }
}

// The numbers from `start` up to `end`; the others stay.
// Kept: by copy_from_slice a trial takes 302 us, and by this loop 277 (rejected, large, noise, 256 by 256); the bar is the loop.
fn copy(from: &[f32], start: usize, end: usize, to: &mut [f32])
    requires { (length from.now ≡ length to.old) × (start ≤ end) × (end ≤ length to.old) }
    ensures { ((i : ℕ) → start ≤ i → i < end → get_or to.new i nan ≡ get_or from.now i nan)
        × ((i : ℕ) → i < start → get_or to.new i nan ≡ get_or to.old i nan)
        × ((i : ℕ) → end ≤ i → get_or to.new i nan ≡ get_or to.old i nan) }
{
    for i in start..end {
        to[i] = from[i];
    }
}

// Row y of a trial's picture is drawn on `second`, over the shapes before j that `first` has, and added to the sum.
fn try_row(
    w: usize,
    h: usize,
    target: &[f32],
    y: usize,
    from: usize,
    to: usize,
    strokes: &Strokes,
    first: &[f32],
    second: &mut [f32],
    sum: f64,
) -> f64
    requires tabled { Tabled w h to strokes.now.runs strokes.now.paints × (y < h) × (from ≤ to) }
    requires targeted { Targeted w h target.now × (length first.now ≡ h * w * 3) × (length second.old ≡ h * w * 3) × T (all_within first.now) × T (all_within second.old) }
    ensures { T (all_within second.new) × ((l : List Shape) → Traced w h l strokes.now.runs strokes.now.paints → to ≤ length l
        → result ≡ total_on target.now (painted_on (shape_painted w h) first.now (slice from to l)) sum (y * w * 3) (w * 3)) }
{
    let start = y * w * 3;
    let n = w * 3;
    copy(first, start, start + n, second);
    strokes.paint_row(w, h, y, from, to, second);
    tally::running::total_on(target, second, start, n, sum)
}

// The sums of a trial's picture; `trial` comes as the list's. Above row `top` they are those of the list, and below `bottom` the two pictures are the same again. So
// if the sum is not below the list's there, neither is the total, since sums rise and rounding keeps their order: then nothing more is
// drawn, and the list's own total is answered. A sum that is too high before row `bottom` stays so.
fn try_rows(
    w: usize,
    h: usize,
    target: &[f32],
    from: usize,
    to: usize,
    top: usize,
    bottom: usize,
    strokes: &Strokes,
    sums: &[f64; 257],
    first: &[f32],
    second: &mut [f32],
    trial: &mut [f64; 257],
) -> f64
    requires tabled { Tabled w h to strokes.now.runs strokes.now.paints × (from ≤ to) × (top ≤ bottom) × (bottom ≤ h) × (trial.old ≡ sums.now) × (length trial.old ≡ 257) }
    requires targeted { Targeted w h target.now × (length first.now ≡ h * w * 3) × (length second.old ≡ h * w * 3) × T (all_within first.now) × T (all_within second.old) }
    ensures { T (all_within second.new) × (length trial.new ≡ 257) × ((l : List Shape) (q : List Float) → Traced w h l strokes.now.runs strokes.now.paints → to ≤ length l
        → Apart w h top bottom q (painted_on (shape_painted w h) first.now (slice from to l)) → SummedTo w h target.now q sums.now
        → Judged w h target.now (painted_on (shape_painted w h) first.now (slice from to l)) sums.now trial.new result) }
{
    let mut sum = sums[top];
    for y in top..h {
        let mark = y.max(bottom);
        if sums[mark] <= sum {
            return sums[h];
        }
        sum = try_row(w, h, target, y, from, to, strokes, first, second, sum);
        trial[y + 1] = sum;
    }
    sum
}

// What is left of the shapes before j is painted on `first`, which has the first `made` of them. The candidate goes into the table after
// the shapes of the list; the shapes after j and the candidate make the trial's picture.
fn try_candidate(
    w: usize,
    h: usize,
    target: &[f32],
    list: Shapes,
    made: usize,
    j: usize,
    x: Shape,
    first: &mut [f32],
    second: &mut [f32],
    sums: &[f64; 257],
    strokes: &mut Strokes,
    trial: &mut [f64; 257],
) -> f64
    requires drawable { Drawable w h list × (made ≤ j) × (j < list.count) × T (fits x) × Traced w h (listed list) strokes.old.runs strokes.old.paints × (trial.old ≡ sums.now) × (length trial.old ≡ 257) }
    requires targeted { Targeted w h target.now × (length first.old ≡ h * w * 3) × (length second.old ≡ h * w * 3) × T (all_within first.old) × T (all_within second.old) }
    ensures { (first.new ≡ painted_on (shape_painted w h) first.old (slice made j (listed list ++ (x ∷ []))))
        × T (all_within first.new)
        × T (all_within second.new)
        × Traced w h (listed list ++ (x ∷ [])) strokes.new.runs strokes.new.paints
        × (SummedTo w h target.now (painted_on (shape_painted w h) first.new (slice j list.count (listed list ++ (x ∷ [])))) sums.now
        → Judged w h target.now (shape_painted w h x (painted_on (shape_painted w h) first.new (slice (j + 1) list.count (listed list ++ (x ∷ []))))) sums.now trial.new result) }
{
    let n = list.count;
    let s = list.items[j];
    let rows = spanned(w, h, s, x);
    strokes.trace(w, h, x, n);
    strokes.paint_all(w, h, made, j, first);
    try_rows(
        w,
        h,
        target,
        j + 1,
        n + 1,
        rows.top,
        rows.bottom,
        strokes,
        sums,
        first,
        second,
        trial,
    )
}

// No acceptance: j rises by one.
fn rise(mut c: Course, made: usize) -> Course
    requires { (c.place < 64) × (c.trials < 1024) }
    ensures { result ≡ risen c made }
{
    c.place += 1;
    c.trials += 1;
    c.made = made;
    c
}

// The list with the exchange made: j stays, and the candidate's total is that of the list.
fn accept(c: Course, list: Shapes, new: f64) -> Course
    requires { (c.trials < 1024) × (c.acceptances ≤ c.trials) }
    ensures { result ≡ taken c list new }
{
    Course {
        list,
        place: c.place,
        passes: c.passes,
        trials: c.trials + 1,
        acceptances: c.acceptances + 1,
        made: c.place,
        old: new,
    }
}

// A trial costs one total at most: `old` and the sums stay after a rejected one, and are the new ones after an accepted one. Nothing is
// drawn without a candidate.
pub fn step(
    w: usize,
    h: usize,
    target: &[f32],
    c: Course,
    what: Option<Shape>,
    first: &mut [f32],
    second: &mut [f32],
    sums: &mut [f64; 257],
    strokes: &mut Strokes,
) -> Course
    requires { Ready w h target.now c what first.old second.old sums.old strokes.old.runs strokes.old.paints }
    ensures { StepSays w h target.now c what first.old (aids_of second.old sums.old strokes.old.runs strokes.old.paints) result first.new (aids_of second.new sums.new strokes.new.runs strokes.new.paints) }
{
    match what {
        None => rise(c, c.made),
        Some(x) => {
            let list = c.list;
            let j = c.place;
            let mut trial = *sums;
            let new = try_candidate(
                w, h, target, list, c.made, j, x, first, second, sums, strokes, &mut trial,
            );
            if new + 1e-9 < c.old {
                *sums = trial;
                strokes.drop_column(h, j, list.count);
                let list = shapes::exchange(list, j, x);
                accept(c, list, new)
            } else {
                rise(c, j)
            }
        }
    }
}
