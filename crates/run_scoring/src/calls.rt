// The calls; each says whether the case can be asked.
use crate::answers::{answer, sums_answer};
use cover::Kind;
use score::Request;
use std::io;

#[derive(Clone, Copy)]
pub(crate) enum Call {
    Score(Request),
    Sums,
}

// From the table, or from the two pictures.
#[derive(Clone, Copy, PartialEq, Eq)]
pub(crate) enum By {
    Spans,
    Points,
}

fn by_spans(
    rt: &impl Print,
    kind: Kind,
    call: Call,
    levels: &[f32],
    w: usize,
    h: usize,
    places: &[f64],
) -> io::Result<()> {
    match call {
        Call::Score(request) => {
            answer(
                rt,
                score::calls::span_score(kind, request, levels, w, h, places),
            )
        }
        Call::Sums => sums_answer(rt, score::calls::collect_span_sums(kind, w, h, places)),
    }
}

fn circle_by_points(
    rt: &impl Print,
    cx: i32,
    cy: i32,
    r: i32,
    call: Call,
    levels: &[f32],
    w: usize,
    h: usize,
    target: &[f32],
    canvas: &[f32],
) -> io::Result<()> {
    match call {
        Call::Score(request) => answer(
            rt,
            score::calls::circle_point_score(cx, cy, r, request, levels, w, h, target, canvas),
        ),
        Call::Sums => sums_answer(
            rt,
            score::calls::collect_circle_sums(cx, cy, r, w, h, target, canvas),
        ),
    }
}

fn triangle_by_points(
    rt: &impl Print,
    x0: i32,
    y0: i32,
    x1: i32,
    y1: i32,
    x2: i32,
    y2: i32,
    call: Call,
    levels: &[f32],
    w: usize,
    h: usize,
    target: &[f32],
    canvas: &[f32],
) -> io::Result<()> {
    match call {
        Call::Score(request) => answer(
            rt,
            score::calls::triangle_point_score(
                x0, y0, x1, y1, x2, y2, request, levels, w, h, target, canvas,
            ),
        ),
        Call::Sums => sums_answer(
            rt,
            score::calls::collect_triangle_sums(x0, y0, x1, y1, x2, y2, w, h, target, canvas),
        ),
    }
}

// The point engine has no quads.
fn by_points(
    rt: &impl Print,
    kind: Kind,
    call: Call,
    levels: &[f32],
    w: usize,
    h: usize,
    target: &[f32],
    canvas: &[f32],
) -> io::Result<bool> {
    match kind {
        Kind::Circle(cx, cy, r) => {
            circle_by_points(rt, cx, cy, r, call, levels, w, h, target, canvas)?;
        }
        Kind::Triangle(x0, y0, x1, y1, x2, y2) => {
            triangle_by_points(
                rt, x0, y0, x1, y1, x2, y2, call, levels, w, h, target, canvas,
            )?;
        }
        Kind::Quad(..) => {
            return Ok(false);
        }
    }
    Ok(true)
}

fn fill(xs: &mut [f32], first: f32) {
    let mut x = first;
    for place in xs {
        *place = x;
        x = 3.9 * x * (1.0 - x);
    }
}

fn build(target: &[f32; 110], canvas: &[f32; 110], places: &mut [f64; 620]) {
    let _ = table::build(&target[0..105], &canvas[0..105], 7, 5, &mut places[0..600]);
}

fn on_table(
    rt: &impl Print,
    kind: Kind,
    call: Call,
    levels: &[f32],
    w: usize,
    h: usize,
    numbers: usize,
    target: &[f32; 110],
    canvas: &[f32; 110],
) -> io::Result<bool> {
    let mut places = [0.0; 620];
    build(target, canvas, &mut places);
    let Some(places) = places.get(..numbers) else {
        return Ok(false);
    };
    by_spans(rt, kind, call, levels, w, h, places)?;
    Ok(true)
}

fn on_pictures(
    rt: &impl Print,
    kind: Kind,
    call: Call,
    levels: &[f32],
    w: usize,
    h: usize,
    numbers: usize,
    others: usize,
    target: &[f32],
    canvas: &[f32],
) -> io::Result<bool> {
    let Some(target) = target.get(..numbers) else {
        return Ok(false);
    };
    let Some(canvas) = canvas.get(..others) else {
        return Ok(false);
    };
    by_points(rt, kind, call, levels, w, h, target, canvas)
}

// On a target, a canvas and their table, with so many numbers lent.
pub(crate) fn called(
    rt: &impl Print,
    by: By,
    kind: Kind,
    call: Call,
    levels: &[f32],
    w: usize,
    h: usize,
    numbers: usize,
    others: usize,
) -> io::Result<bool> {
    let mut target = [0.0f32; 110];
    let mut canvas = [0.0f32; 110];
    fill(&mut target, 0.3);
    fill(&mut canvas, 0.6);
    match by {
        By::Spans => on_table(rt, kind, call, levels, w, h, numbers, &target, &canvas),
        By::Points => on_pictures(
            rt, kind, call, levels, w, h, numbers, others, &target, &canvas,
        ),
    }
}
