// The exports of `probe_picture`, for the differential runs and the benchmark. Nothing that ships links this crate.
#![tactic(auto)]

ghost use Rattle.probe_picture.specs.Probes.{
  ProbeFilledCanvasSays,
  ProbeMeanRgbSays,
  ProbeSseTotalSays,
  ProbeBlendSays,
  ProbeReachSays,
};

use picture::Colour;
use probe_picture::{ProbedMean, ProbedReach, ProbedTotal};

#[unsafe(no_mangle)]
pub extern "C" fn probe_filled_canvas(
    w: usize,
    h: usize,
    red: f32,
    green: f32,
    blue: f32,
    canvas: &mut [f32],
) -> u8
    ensures { ProbeFilledCanvasSays w h red green blue canvas.old result canvas.new }
{
    probe_picture::probe_filled_canvas(w, h, Colour { red, green, blue }, canvas)
}

#[unsafe(no_mangle)]
pub extern "C" fn probe_mean_rgb(w: usize, h: usize, target: &[f32]) -> ProbedMean
    ensures { ProbeMeanRgbSays w h target.now result }
{
    probe_picture::probe_mean_rgb(w, h, target)
}

#[unsafe(no_mangle)]
pub extern "C" fn probe_sse_total(w: usize, h: usize, target: &[f32], canvas: &[f32]) -> ProbedTotal
    ensures { ProbeSseTotalSays w h target.now canvas.now result }
{
    probe_picture::probe_sse_total(w, h, target, canvas)
}

#[unsafe(no_mangle)]
pub extern "C" fn probe_blend(
    w: usize,
    h: usize,
    shape: &[i32],
    opacity: f32,
    red: f32,
    green: f32,
    blue: f32,
    canvas: &mut [f32],
) -> u8
    ensures { ProbeBlendSays w h shape.now opacity red green blue canvas.old result canvas.new }
{
    probe_picture::probe_blend(w, h, shape, opacity, Colour { red, green, blue }, canvas)
}

#[unsafe(no_mangle)]
pub extern "C" fn probe_reach(w: usize, h: usize, shape: &[i32]) -> ProbedReach
    ensures { ProbeReachSays w h shape.now result }
{
    probe_picture::probe_reach(w, h, shape)
}
