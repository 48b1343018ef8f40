// Pictures by themselves, for the differential runs and the benchmark; `probe_picture_c` exports them. Nothing that ships links this crate.
#![tactic(auto)]

ghost use Rattle.std.specs.Prelude.{◌≡◌, length};
ghost use Rattle.refusal.specs.Outcomes.{number, number_of};
ghost use Rattle.cover.specs.Cover.{refusal_of};
ghost use Rattle.probe_picture.specs.Probes.{
  blend_refusal,
  Blended,
  reach_of,
  unreached,
  ProbeFilledCanvasSays,
  ProbeMeanRgbSays,
  ProbeSseTotalSays,
  ProbeBlendSays,
  ProbeReachSays,
};

use cover::Kind;
use picture::Colour;
use refusal::Refusal;

#[repr(C)]
#[derive(Clone, Copy)]
pub struct ProbedMean {
    // Kept: the C interface needs a number.
    pub number: u8,
    pub red: f32,
    pub green: f32,
    pub blue: f32,
}

#[repr(C)]
#[derive(Clone, Copy)]
pub struct ProbedTotal {
    // Kept: the C interface needs a number.
    pub number: u8,
    pub total: f64,
}

#[repr(C)]
#[derive(Clone, Copy)]
pub struct ProbedReach {
    // Kept: the C interface needs a number.
    pub number: u8,
    pub first: i32,
    pub last: i32,
}

// Kept: its promise `ProbeFilledCanvasSays` is about the number, which `probe_picture_c` hands on to C.
pub fn probe_filled_canvas(w: usize, h: usize, colour: Colour, canvas: &mut [f32]) -> u8
    ensures { ProbeFilledCanvasSays w h colour.red colour.green colour.blue canvas.old result canvas.new }
{
    refusal::number_of(picture::filled_canvas(w, h, colour, canvas))
}

pub fn probe_mean_rgb(w: usize, h: usize, target: &[f32]) -> ProbedMean
    ensures { ProbeMeanRgbSays w h target.now result }
{
    match picture::mean_rgb(w, h, target) {
        Ok(c) => ProbedMean {
            number: 0,
            red: c.red,
            green: c.green,
            blue: c.blue,
        },
        Err(e) => ProbedMean {
            number: e.number(),
            red: 0.0,
            green: 0.0,
            blue: 0.0,
        },
    }
}

pub fn probe_sse_total(w: usize, h: usize, target: &[f32], canvas: &[f32]) -> ProbedTotal
    ensures { ProbeSseTotalSays w h target.now canvas.now result }
{
    match picture::sse_total(w, h, target, canvas) {
        Ok(total) => ProbedTotal { number: 0, total },
        Err(e) => ProbedTotal {
            number: e.number(),
            total: 0.0,
        },
    }
}

// ---- painting

fn blend_tested(kind: Kind, w: usize, h: usize, n: usize) -> Result<(), Refusal>
    ensures { number_of result ≡ blend_refusal kind w h n }
{
    if refusal::bad_size(w, h) {
        return Err(Refusal::Size);
    }
    if refusal::bad_picture(w, h, n) {
        return Err(Refusal::Length);
    }
    if cover::bad_places(kind) {
        return Err(Refusal::Place);
    }
    Ok(())
}

fn blended(
    kind: Kind,
    opacity: f32,
    colour: Colour,
    w: usize,
    h: usize,
    canvas: &mut [f32],
) -> Result<(), Refusal>
    ensures { Blended kind opacity colour.red colour.green colour.blue w h canvas.old (number_of result) canvas.new }
{
    blend_tested(kind, w, h, canvas.len())?;
    picture::blend(kind, opacity, colour, w, h, canvas);
    Ok(())
}

// A shape is a slice of coordinates: cx, cy, r, or the corners of a triangle or a quad; another length is refusal 2.
// Kept: its promise `ProbeBlendSays` is about the number, which `probe_picture_c` hands on to C.
pub fn probe_blend(
    w: usize,
    h: usize,
    shape: &[i32],
    opacity: f32,
    colour: Colour,
    canvas: &mut [f32],
) -> u8
    ensures { ProbeBlendSays w h shape.now opacity colour.red colour.green colour.blue canvas.old result canvas.new }
{
    let o = crossing::outline(shape);
    match o {
        Some(kind) => refusal::number_of(blended(kind, opacity, colour, w, h, canvas)),
        None => Refusal::Length.number(),
    }
}

// ---- the row reach

fn reach_tested(kind: Kind, w: usize, h: usize) -> Result<(), Refusal>
    ensures { number_of result ≡ refusal_of kind w h }
{
    if refusal::bad_size(w, h) {
        return Err(Refusal::Size);
    }
    if cover::bad_places(kind) {
        return Err(Refusal::Place);
    }
    Ok(())
}

fn unreached(e: Refusal) -> ProbedReach
    ensures { result ≡ unreached (number e) }
{
    ProbedReach {
        number: e.number(),
        first: 0,
        last: 0,
    }
}

fn reach(kind: Kind, w: usize, h: usize) -> ProbedReach
    ensures { result ≡ reach_of kind w h }
{
    match reach_tested(kind, w, h) {
        Ok(()) => {
            let rows = cover::row_reach(kind, h);
            ProbedReach {
                number: 0,
                first: rows.first,
                last: rows.last,
            }
        }
        Err(e) => unreached(e),
    }
}

pub fn probe_reach(w: usize, h: usize, shape: &[i32]) -> ProbedReach
    ensures { ProbeReachSays w h shape.now result }
{
    let o = crossing::outline(shape);
    match o {
        Some(kind) => reach(kind, w, h),
        None => unreached(Refusal::Length),
    }
}
