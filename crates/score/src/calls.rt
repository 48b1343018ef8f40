// The calls: tests, then the work. A refused call has read what is lent and changed nothing.
ghost use Rattle.std.specs.Prelude.{◌≡◌, false, length};
ghost use Rattle.grade.specs.Answered.{answered};
ghost use Rattle.score.specs.declared.Request.TheVariants.{Opacity};
ghost use Rattle.score.specs.Scoring.{
  bad_count,
  score_at,
  CollectSpanSumsSays,
  CollectPointSumsSays,
  CollectCircleSumsSays,
  CollectTriangleSumsSays,
  SpanScoreSays,
  PointScoreSays,
  CirclePointScoreSays,
  TrianglePointScoreSays,
};
ghost use Rattle.refusal.specs.Outcomes.{outcome};

use crate::Request;
use cover::Kind;
use grade::Score;
use refusal::Refusal;
use sums::ShapeSums;

fn score_at(s: ShapeSums, request: Request, levels: &[f32]) -> Score
    requires { (length levels.now ≡ 64) × (bad_count request ≡ false) }
    ensures { result ≡ score_at s request levels.now }
{
    match request {
        Request::Opacity(a) => grade::finalize(s, a),
        Request::Levels(n) => grade::sweeps::sweep(s, levels, n),
    }
}

// Number by number, so that the answer is not copied as a block of what was just written in parts.
// Kept: `Ok(s)` copies the block: the bar of speed.
fn done(s: Score) -> Result<Score, Refusal>
    ensures { outcome result ≡ answered 0 s }
{
    Ok(Score {
        opacity: s.opacity,
        count: s.count,
        change: s.change,
        red: s.red,
        green: s.green,
        blue: s.blue,
    })
}

// The score of a shape from a table, at one opacity or over the first of the lent levels. At one opacity the tests come in one
// go, and where the shape reaches no row nothing else is set up.
pub fn span_score(
    kind: Kind,
    request: Request,
    levels: &[f32],
    w: usize,
    h: usize,
    table: &[f64],
) -> Result<Score, Refusal>
    ensures { SpanScoreSays kind request levels.now w h table.now (outcome result) }
{
    let opacity = crate::tests::asked(request);
    if crate::tests::usual_table(kind, opacity, levels.len(), w, h, table.len()) {
        let rows = cover::reached::reach_rows(kind, w, h);
        let top = rows.top;
        let bottom = rows.bottom;
        if bottom <= top {
            return Ok(grade::no_score(opacity, 0));
        }
        let left = cover::stamps::first_column(kind, w);
        if (bottom - top <= 8) & (left < w) {
            if let Some(bits) = cover::stamps::stamp_of(kind, left, top, w, h) {
                let few = gather::spans::add_stamp(bits, left, top, table, w);
                return done(grade::finalize(few, opacity));
            }
        }
        let sums = gather::spans::reached_sums(kind, top, bottom, w, h, table);
        return done(grade::finalize(sums, opacity));
    }
    tested_span_score(kind, request, levels, w, h, table)
}

// The same with the tests in order.
fn tested_span_score(
    kind: Kind,
    request: Request,
    levels: &[f32],
    w: usize,
    h: usize,
    table: &[f64],
) -> Result<Score, Refusal>
    ensures { SpanScoreSays kind request levels.now w h table.now (outcome result) }
{
    crate::tests::span_tested(kind, request, levels, w, h, table)?;
    let sums = gather::spans::span_sums(kind, w, h, table);
    Ok(score_at(sums, request, levels))
}

fn tested_point_score(
    kind: Kind,
    request: Request,
    levels: &[f32],
    w: usize,
    h: usize,
    target: &[f32],
    canvas: &[f32],
) -> Result<Score, Refusal>
    ensures { PointScoreSays kind request levels.now w h target.now canvas.now (outcome result) }
{
    crate::tests::point_tested(kind, request, levels, w, h, target, canvas)?;
    let sums = gather::points::point_sums(kind, w, h, target, canvas);
    Ok(score_at(sums, request, levels))
}

// The score of a circle or a triangle from the two pictures, pixel by pixel, as `span_score` has it from a table. Written out in its two
// callers, so that neither asks which of the two it is.
#[inline(always)]
fn point_score(
    kind: Kind,
    request: Request,
    levels: &[f32],
    w: usize,
    h: usize,
    target: &[f32],
    canvas: &[f32],
) -> Result<Score, Refusal>
    ensures { PointScoreSays kind request levels.now w h target.now canvas.now (outcome result) }
{
    let opacity = crate::tests::asked(request);
    if crate::tests::usual_pictures(
        kind,
        opacity,
        levels.len(),
        w,
        h,
        target.len(),
        canvas.len(),
    ) {
        let rows = cover::reached::reach_rows(kind, w, h);
        let top = rows.top;
        let bottom = rows.bottom;
        if bottom <= top {
            return Ok(grade::no_score(opacity, 0));
        }
        let left = cover::stamps::first_column(kind, w);
        if (bottom - top <= 8) & (left < w) {
            if let Some(bits) = cover::stamps::stamp_of(kind, left, top, w, h) {
                let few = gather::points::unpaired(gather::points::push_stamp(
                    bits, left, top, target, canvas, w,
                ));
                return done(grade::finalize(few, opacity));
            }
        }
        let sums = gather::points::reached_sums(kind, top, bottom, w, h, target, canvas);
        return done(grade::finalize(sums, opacity));
    }
    tested_point_score(kind, request, levels, w, h, target, canvas)
}

// Of a circle. It takes plain numbers, so that no quad can be asked.
pub fn circle_point_score(
    cx: i32,
    cy: i32,
    r: i32,
    request: Request,
    levels: &[f32],
    w: usize,
    h: usize,
    target: &[f32],
    canvas: &[f32],
) -> Result<Score, Refusal>
    ensures { CirclePointScoreSays cx cy r request levels.now w h target.now canvas.now (outcome result) }
{
    point_score(
        Kind::Circle(cx, cy, r),
        request,
        levels,
        w,
        h,
        target,
        canvas,
    )
}

// Of a triangle.
pub fn triangle_point_score(
    x0: i32,
    y0: i32,
    x1: i32,
    y1: i32,
    x2: i32,
    y2: i32,
    request: Request,
    levels: &[f32],
    w: usize,
    h: usize,
    target: &[f32],
    canvas: &[f32],
) -> Result<Score, Refusal>
    ensures { TrianglePointScoreSays x0 y0 x1 y1 x2 y2 request levels.now w h target.now canvas.now (outcome result) }
{
    point_score(
        Kind::Triangle(x0, y0, x1, y1, x2, y2),
        request,
        levels,
        w,
        h,
        target,
        canvas,
    )
}

// The sums of a shape from a table, for sweeps and scores at several opacities. As for a score the tests come in one go; there is no
// opacity and no level list to test, so 0 and 64 stand for them. What the tests in order answer is taken apart: else the answer's place is lent
// to that call, and every other way to it goes through memory too.
pub fn collect_span_sums(
    kind: Kind,
    w: usize,
    h: usize,
    table: &[f64],
) -> Result<ShapeSums, Refusal>
    ensures { CollectSpanSumsSays kind w h table.now (outcome result) }
{
    if crate::tests::usual_table(kind, 0.0, 64, w, h, table.len()) {
        let rows = cover::reached::reach_rows(kind, w, h);
        let top = rows.top;
        let bottom = rows.bottom;
        if bottom <= top {
            return Ok(ShapeSums::new());
        }
        let left = cover::stamps::first_column(kind, w);
        if (bottom - top <= 8) & (left < w) {
            if let Some(bits) = cover::stamps::stamp_of(kind, left, top, w, h) {
                let few = gather::spans::add_stamp(bits, left, top, table, w);
                return Ok(few);
            }
        }
        let gathered = gather::spans::reached_sums(kind, top, bottom, w, h, table);
        return Ok(gathered);
    }
    let tested = tested_span_sums(kind, w, h, table)?;
    Ok(tested)
}

// The same with the tests in order.
fn tested_span_sums(kind: Kind, w: usize, h: usize, table: &[f64]) -> Result<ShapeSums, Refusal>
    ensures { CollectSpanSumsSays kind w h table.now (outcome result) }
{
    crate::tests::span_sums_tested(kind, w, h, table)?;
    Ok(gather::spans::span_sums(kind, w, h, table))
}

fn tested_point_sums(
    kind: Kind,
    w: usize,
    h: usize,
    target: &[f32],
    canvas: &[f32],
) -> Result<ShapeSums, Refusal>
    ensures { CollectPointSumsSays kind w h target.now canvas.now (outcome result) }
{
    crate::tests::point_sums_tested(kind, w, h, target, canvas)?;
    Ok(gather::points::point_sums(kind, w, h, target, canvas))
}

// The sums of a circle or a triangle from the two pictures, pixel by pixel; written out in its two callers, as `point_score` is.
#[inline(always)]
fn collect_point_sums(
    kind: Kind,
    w: usize,
    h: usize,
    target: &[f32],
    canvas: &[f32],
) -> Result<ShapeSums, Refusal>
    ensures { CollectPointSumsSays kind w h target.now canvas.now (outcome result) }
{
    if crate::tests::usual_pictures(kind, 0.0, 64, w, h, target.len(), canvas.len()) {
        let rows = cover::reached::reach_rows(kind, w, h);
        let top = rows.top;
        let bottom = rows.bottom;
        if bottom <= top {
            return Ok(ShapeSums::new());
        }
        let left = cover::stamps::first_column(kind, w);
        if (bottom - top <= 8) & (left < w) {
            if let Some(bits) = cover::stamps::stamp_of(kind, left, top, w, h) {
                let few = gather::points::unpaired(gather::points::push_stamp(
                    bits, left, top, target, canvas, w,
                ));
                return Ok(few);
            }
        }
        let sums = gather::points::reached_sums(kind, top, bottom, w, h, target, canvas);
        return Ok(sums);
    }
    let tested = tested_point_sums(kind, w, h, target, canvas)?;
    Ok(tested)
}

// Of a circle.
pub fn collect_circle_sums(
    cx: i32,
    cy: i32,
    r: i32,
    w: usize,
    h: usize,
    target: &[f32],
    canvas: &[f32],
) -> Result<ShapeSums, Refusal>
    ensures { CollectCircleSumsSays cx cy r w h target.now canvas.now (outcome result) }
{
    collect_point_sums(Kind::Circle(cx, cy, r), w, h, target, canvas)
}

// Of a triangle.
pub fn collect_triangle_sums(
    x0: i32,
    y0: i32,
    x1: i32,
    y1: i32,
    x2: i32,
    y2: i32,
    w: usize,
    h: usize,
    target: &[f32],
    canvas: &[f32],
) -> Result<ShapeSums, Refusal>
    ensures { CollectTriangleSumsSays x0 y0 x1 y1 x2 y2 w h target.now canvas.now (outcome result) }
{
    collect_point_sums(Kind::Triangle(x0, y0, x1, y1, x2, y2), w, h, target, canvas)
}
