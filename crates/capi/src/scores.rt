// Exports of scores. A shape is a slice of coordinates: cx, cy, r, or the corners of a triangle or a quad, x and y of each.
ghost use Rattle.std.specs.Prelude.{◌≡◌, Some};
ghost use Rattle.crossing.specs.Outlines.{kind_of};
ghost use Rattle.capi.specs.Scores.{
  scored_told,
  by_points,
  span_answer,
  point_answer,
  SillbadgerSpanScoreSays,
  SillbadgerSpanSweepSays,
  SillbadgerPointScoreSays,
  SillbadgerPointSweepSays,
};
ghost use Rattle.refusal.specs.Outcomes.{outcome};

use crate::SillbadgerAnswer;
use cover::Kind;
use grade::Score;
use refusal::Refusal;
use score::Request;

fn told(s: Result<Score, Refusal>) -> SillbadgerAnswer
    ensures { result ≡ scored_told (outcome s) }
{
    match s {
        Ok(x) => {
            let mut a = crate::refused(0);
            a.count = x.count;
            a.opacity = x.opacity;
            a.change = x.change;
            a.red = x.red;
            a.green = x.green;
            a.blue = x.blue;
            a
        }
        Err(no) => crate::refused(no.number()),
    }
}

fn span_at(
    w: u32,
    h: u32,
    shape: &[i32],
    request: Request,
    levels: &[f32],
    table: &[f64],
) -> SillbadgerAnswer
    ensures { result ≡ span_answer w h (kind_of shape.now) request levels.now table.now }
{
    let o = crossing::outline(shape);
    match o {
        Some(kind) => {
            told(score::calls::span_score(kind, request, levels, w as usize, h as usize, table))
        }
        None => crate::refused(crate::no_shape(w, h).number()),
    }
}

// The score of a shape at one opacity, from a table: count, opacity, change, colour.
#[unsafe(no_mangle)]
pub extern "C" fn sillbadger_span_score(
    w: u32,
    h: u32,
    shape: &[i32],
    opacity: f32,
    table: &[f64],
) -> SillbadgerAnswer
    ensures { SillbadgerSpanScoreSays w h shape.now opacity table.now result }
{
    let levels = [0.0f32; 64];
    span_at(w, h, shape, Request::Opacity(opacity), &levels, table)
}

// The best score of a shape over the first `count` of 64 lent levels, from a table.
#[unsafe(no_mangle)]
pub extern "C" fn sillbadger_span_sweep(
    w: u32,
    h: u32,
    shape: &[i32],
    levels: &[f32],
    count: u32,
    table: &[f64],
) -> SillbadgerAnswer
    ensures { SillbadgerSpanSweepSays w h shape.now levels.now count table.now result }
{
    span_at(w, h, shape, Request::Levels(count as usize), levels, table)
}

// By points a circle and a triangle are scored, and no quad.
fn point_of(
    w: u32,
    h: u32,
    kind: Kind,
    request: Request,
    levels: &[f32],
    target: &[f32],
    canvas: &[f32],
) -> SillbadgerAnswer
    ensures { result ≡ point_answer w h (by_points (Some kind)) request levels.now target.now canvas.now }
{
    match kind {
        Kind::Circle(cx, cy, r) => {
            told(score::calls::circle_point_score(
                cx, cy, r, request, levels, w as usize, h as usize, target, canvas,
            ))
        }
        Kind::Triangle(x0, y0, x1, y1, x2, y2) => {
            told(score::calls::triangle_point_score(
                x0, y0, x1, y1, x2, y2, request, levels, w as usize, h as usize, target, canvas,
            ))
        }
        Kind::Quad(_, _, _, _, _, _, _, _) => crate::refused(crate::no_shape(w, h).number()),
    }
}

fn point_at(
    w: u32,
    h: u32,
    shape: &[i32],
    request: Request,
    levels: &[f32],
    target: &[f32],
    canvas: &[f32],
) -> SillbadgerAnswer
    ensures { result ≡ point_answer w h (by_points (kind_of shape.now)) request levels.now target.now canvas.now }
{
    let o = crossing::outline(shape);
    match o {
        Some(kind) => point_of(w, h, kind, request, levels, target, canvas),
        None => crate::refused(crate::no_shape(w, h).number()),
    }
}

// The score of a circle or a triangle at one opacity, pixel by pixel from the pictures: count, opacity, change, colour.
#[unsafe(no_mangle)]
pub extern "C" fn sillbadger_point_score(
    w: u32,
    h: u32,
    shape: &[i32],
    opacity: f32,
    target: &[f32],
    canvas: &[f32],
) -> SillbadgerAnswer
    ensures { SillbadgerPointScoreSays w h shape.now opacity target.now canvas.now result }
{
    let levels = [0.0f32; 64];
    point_at(
        w,
        h,
        shape,
        Request::Opacity(opacity),
        &levels,
        target,
        canvas,
    )
}

// The best score of a circle or a triangle over the first `count` of 64 lent levels, pixel by pixel from the pictures.
#[unsafe(no_mangle)]
pub extern "C" fn sillbadger_point_sweep(
    w: u32,
    h: u32,
    shape: &[i32],
    levels: &[f32],
    count: u32,
    target: &[f32],
    canvas: &[f32],
) -> SillbadgerAnswer
    ensures { SillbadgerPointSweepSays w h shape.now levels.now count target.now canvas.now result }
{
    point_at(
        w,
        h,
        shape,
        Request::Levels(count as usize),
        levels,
        target,
        canvas,
    )
}
