// Scores by themselves, exported for the differential runs. Nothing that ships links this crate.
#![tactic(auto)]

ghost use Rattle.std.specs.Prelude.{◌≡◌};
ghost use Rattle.probe_score.specs.Probes.{
  kind_of,
  request_of,
  answer_of,
  probed,
  gathered_of,
  sums_of,
  ProbeAlphaLevelsSays,
  ProbeFinalizeSays,
  ProbeSpanScoreSays,
  ProbeCirclePointScoreSays,
  ProbeTrianglePointScoreSays,
  ProbeAlphaSweepSays,
  ProbeCollectSpanSumsSays,
  ProbeCollectCircleSumsSays,
  ProbeCollectTriangleSumsSays,
};
ghost use Rattle.refusal.specs.Outcomes.{outcome};

use cover::Kind;
use grade::Score;
use refusal::Refusal;
use score::Request;
use sums::ShapeSums;

#[repr(C)]
#[derive(Clone, Copy)]
pub struct ProbedSums {
    pub s_t: [f64; 3],
    pub s_c: [f64; 3],
    pub s_t2: [f64; 3],
    pub s_c2: [f64; 3],
    pub s_tc: [f64; 3],
    pub count: u32,
}

#[repr(C)]
#[derive(Clone, Copy)]
pub struct ProbedScore {
    pub opacity: f32,
    pub count: u32,
    pub change: f32,
    pub red: f32,
    pub green: f32,
    pub blue: f32,
}

// A score, or the number of the refusal and zeros. Kept: the number beside the values, the C interface needs it.
#[repr(C)]
#[derive(Clone, Copy)]
pub struct ProbedAnswer {
    // Kept: the C interface needs a number.
    pub refused: u8,
    pub opacity: f32,
    pub count: u32,
    pub change: f32,
    pub red: f32,
    pub green: f32,
    pub blue: f32,
}

// Sums, or the number of the refusal and zeros. Kept: as above.
#[repr(C)]
#[derive(Clone, Copy)]
pub struct ProbedCollected {
    pub s_t: [f64; 3],
    pub s_c: [f64; 3],
    pub s_t2: [f64; 3],
    pub s_c2: [f64; 3],
    pub s_tc: [f64; 3],
    pub count: u32,
    // Kept: the C interface needs a number.
    pub refused: u8,
}

#[unsafe(no_mangle)]
pub extern "C" fn probe_alpha_levels(bits: u32, levels: &mut [f32]) -> u8
    ensures { ProbeAlphaLevelsSays bits levels.old result levels.new }
{
    refusal::number_of(grade::levels::alpha_levels(bits, levels))
}

fn sums_of(s: ProbedSums) -> ShapeSums
    ensures { result ≡ sums_of s }
{
    let t = s.s_t;
    let c = s.s_c;
    let t2 = s.s_t2;
    let c2 = s.s_c2;
    let tc = s.s_tc;
    ShapeSums {
        s_t: t,
        s_c: c,
        s_t2: t2,
        s_c2: c2,
        s_tc: tc,
        count: s.count,
    }
}

#[unsafe(no_mangle)]
pub extern "C" fn probe_finalize(s: ProbedSums, opacity: f32) -> ProbedScore
    ensures { ProbeFinalizeSays s opacity result }
{
    let r = grade::finalize(sums_of(s), opacity);
    ProbedScore {
        opacity: r.opacity,
        count: r.count,
        change: r.change,
        red: r.red,
        green: r.green,
        blue: r.blue,
    }
}

fn kind_of(kind: u8, x0: i32, y0: i32, x1: i32, y1: i32, x2: i32, y2: i32, x3: i32, y3: i32) -> Kind
    ensures { result ≡ kind_of kind x0 y0 x1 y1 x2 y2 x3 y3 }
{
    if kind == 1 {
        return Kind::Circle(x0, y0, x1);
    }
    if kind == 2 {
        return Kind::Triangle(x0, y0, x1, y1, x2, y2);
    }
    Kind::Quad(x0, y0, x1, y1, x2, y2, x3, y3)
}

// Kept, here and below: the C interface has no enum with values.
fn request_of(single: bool, opacity: f32, n: usize) -> Request
    ensures { result ≡ request_of single opacity n }
{
    if single {
        return Request::Opacity(opacity);
    }
    Request::Levels(n)
}

fn answer_of(s: Result<Score, Refusal>) -> ProbedAnswer
    ensures { result ≡ answer_of (outcome s) }
{
    match s {
        Ok(r) => ProbedAnswer {
            refused: 0,
            opacity: r.opacity,
            count: r.count,
            change: r.change,
            red: r.red,
            green: r.green,
            blue: r.blue,
        },
        Err(no) => ProbedAnswer {
            refused: no.number(),
            opacity: 0.0,
            count: 0,
            change: 0.0,
            red: 0.0,
            green: 0.0,
            blue: 0.0,
        },
    }
}

fn probed(s: ShapeSums, refused: u8) -> ProbedCollected
    ensures { result ≡ probed s refused }
{
    let s_t = s.s_t;
    let s_c = s.s_c;
    let s_t2 = s.s_t2;
    let s_c2 = s.s_c2;
    let s_tc = s.s_tc;
    ProbedCollected {
        refused,
        s_t,
        s_c,
        s_t2,
        s_c2,
        s_tc,
        count: s.count,
    }
}

fn gathered(c: Result<ShapeSums, Refusal>) -> ProbedCollected
    ensures { result ≡ gathered_of (outcome c) }
{
    match c {
        Ok(s) => probed(s, 0),
        Err(no) => probed(ShapeSums::new(), no.number()),
    }
}

#[unsafe(no_mangle)]
pub extern "C" fn probe_span_score(
    kind: u8,
    x0: i32,
    y0: i32,
    x1: i32,
    y1: i32,
    x2: i32,
    y2: i32,
    x3: i32,
    y3: i32,
    single: bool,
    opacity: f32,
    n: usize,
    levels: &[f32],
    w: usize,
    h: usize,
    table: &[f64],
) -> ProbedAnswer
    ensures { ProbeSpanScoreSays (kind_of kind x0 y0 x1 y1 x2 y2 x3 y3) (request_of single opacity n) levels.now w h table.now result }
{
    let k = kind_of(kind, x0, y0, x1, y1, x2, y2, x3, y3);
    let q = request_of(single, opacity, n);
    answer_of(score::calls::span_score(k, q, levels, w, h, table))
}

#[unsafe(no_mangle)]
pub extern "C" fn probe_circle_point_score(
    cx: i32,
    cy: i32,
    r: i32,
    single: bool,
    opacity: f32,
    n: usize,
    levels: &[f32],
    w: usize,
    h: usize,
    target: &[f32],
    canvas: &[f32],
) -> ProbedAnswer
    ensures { ProbeCirclePointScoreSays cx cy r (request_of single opacity n) levels.now w h target.now canvas.now result }
{
    let q = request_of(single, opacity, n);
    answer_of(score::calls::circle_point_score(cx, cy, r, q, levels, w, h, target, canvas))
}

#[unsafe(no_mangle)]
pub extern "C" fn probe_triangle_point_score(
    x0: i32,
    y0: i32,
    x1: i32,
    y1: i32,
    x2: i32,
    y2: i32,
    single: bool,
    opacity: f32,
    n: usize,
    levels: &[f32],
    w: usize,
    h: usize,
    target: &[f32],
    canvas: &[f32],
) -> ProbedAnswer
    ensures { ProbeTrianglePointScoreSays x0 y0 x1 y1 x2 y2 (request_of single opacity n) levels.now w h target.now canvas.now result }
{
    let q = request_of(single, opacity, n);
    answer_of(score::calls::triangle_point_score(
        x0, y0, x1, y1, x2, y2, q, levels, w, h, target, canvas,
    ))
}

#[unsafe(no_mangle)]
pub extern "C" fn probe_alpha_sweep(s: ProbedSums, levels: &[f32], n: usize) -> ProbedAnswer
    ensures { ProbeAlphaSweepSays s levels.now n result }
{
    answer_of(grade::sweeps::alpha_sweep(sums_of(s), levels, n))
}

#[unsafe(no_mangle)]
pub extern "C" fn probe_collect_span_sums(
    kind: u8,
    x0: i32,
    y0: i32,
    x1: i32,
    y1: i32,
    x2: i32,
    y2: i32,
    x3: i32,
    y3: i32,
    w: usize,
    h: usize,
    table: &[f64],
) -> ProbedCollected
    ensures { ProbeCollectSpanSumsSays (kind_of kind x0 y0 x1 y1 x2 y2 x3 y3) w h table.now result }
{
    let k = kind_of(kind, x0, y0, x1, y1, x2, y2, x3, y3);
    gathered(score::calls::collect_span_sums(k, w, h, table))
}

#[unsafe(no_mangle)]
pub extern "C" fn probe_collect_circle_sums(
    cx: i32,
    cy: i32,
    r: i32,
    w: usize,
    h: usize,
    target: &[f32],
    canvas: &[f32],
) -> ProbedCollected
    ensures { ProbeCollectCircleSumsSays cx cy r w h target.now canvas.now result }
{
    gathered(score::calls::collect_circle_sums(cx, cy, r, w, h, target, canvas))
}

#[unsafe(no_mangle)]
pub extern "C" fn probe_collect_triangle_sums(
    x0: i32,
    y0: i32,
    x1: i32,
    y1: i32,
    x2: i32,
    y2: i32,
    w: usize,
    h: usize,
    target: &[f32],
    canvas: &[f32],
) -> ProbedCollected
    ensures { ProbeCollectTriangleSumsSays x0 y0 x1 y1 x2 y2 w h target.now canvas.now result }
{
    gathered(score::calls::collect_triangle_sums(x0, y0, x1, y1, x2, y2, w, h, target, canvas))
}
