// Scores from sums alone: what drawing a shape over the canvas changes, at one opacity or at the best of some levels.
#![tactic(auto)]

ghost use Rattle.std.specs.Prelude.{◌≡◌, ◌<◌};
ghost use Rattle.grade.specs.Finalize.{
  error_before,
  colour_of,
  error_after,
  rest,
  over_channels,
  count_of,
  colour_at,
  wanted_of,
  wanted_at,
  before_at,
  after_at,
  NoScoreSays,
  FinalizeSays,
};
ghost use Rattle.grade.specs.Parts.{error_left, error_drawn, left_at};

use sums::ShapeSums;

pub mod levels;
mod parts;
pub mod sweeps;

// A shape's score: the opacity it was scored at, its colour, how many pixels it covers, the change of the squared error. The change is known last,
// and by itself: the four numbers before are written and read as one.
#[derive(Clone, Copy)]
pub struct Score {
    pub opacity: f32,
    pub red: f32,
    pub green: f32,
    pub blue: f32,
    pub count: u32,
    pub change: f32,
}

fn error_before(tt: f64, tc: f64, cc: f64) -> f64
    ensures { result ≡ error_before tt tc cc }
{
    tt - 2.0 * tc + cc
}

fn colour(t: f64, c: f64, m: f64, denom: f64) -> f32
    ensures { result ≡ colour_of t c m denom }
{
    if denom > 0.0 {
        return float::narrow01((t - m * c) / denom);
    }
    0.0
}

// A channel's error where m of the canvas is left and nothing is drawn over it yet.
fn error_left(tt: f64, tc: f64, cc: f64, m: f64) -> f64
    ensures { result ≡ error_left tt tc cc m }
{
    tt - 2.0 * m * tc + m * m * cc
}

// The same with the colour p drawn over it.
fn error_drawn(left: f64, t: f64, c: f64, a: f64, m: f64, p: f64, n: f64) -> f64
    ensures { result ≡ error_drawn left t c a m p n }
{
    left - 2.0 * a * p * t + 2.0 * a * m * p * c + a * a * p * p * n
}

fn error_after(tt: f64, tc: f64, cc: f64, t: f64, c: f64, a: f64, m: f64, p: f64, n: f64) -> f64
    ensures { result ≡ error_after tt tc cc t c a m p n }
{
    error_drawn(error_left(tt, tc, cc, m), t, c, a, m, p, n)
}

// Change +0 and colour 0.
pub fn no_score(opacity: f32, count: u32) -> Score
    ensures { NoScoreSays opacity count result }
{
    Score {
        opacity: opacity,
        count: count,
        change: 0.0,
        red: 0.0,
        green: 0.0,
        blue: 0.0,
    }
}

// The errors as they are, over the channels: the same at every opacity.
fn all_before(s: ShapeSums) -> f64
    ensures { result ≡ over_channels (before_at s) }
{
    let tt = s.s_t2;
    let cc = s.s_c2;
    let tc = s.s_tc;
    let first = error_before(tt[0], tc[0], cc[0]);
    let second = error_before(tt[1], tc[1], cc[1]);
    let third = error_before(tt[2], tc[2], cc[2]);
    0.0 + first + second + third
}

// 1 - a, in f32, then widened.
fn rest_of(a: f32) -> f64
    ensures { result ≡ rest a }
{
    float::widen(1.0 - a)
}

// A channel's colour at the opacity a.
fn colour_at(s: ShapeSums, channel: usize, a: f64, m: f64, n: f64) -> f32
    requires channel { channel < 3 }
    requires rest { m ≡ rest a }
    requires pixels { n ≡ count_of s }
    ensures { result ≡ colour_at s a channel }
{
    let t = s.s_t;
    let c = s.s_c;
    colour(t[channel], c[channel], m, a * n)
}

// The errors with the colours drawn over them, over the channels. What the channels share is worked out once.
fn all_wide(s: ShapeSums, a: f64, m: f64, n: f64, red: f64, green: f64, blue: f64) -> f64
    requires rest { m ≡ rest a }
    requires pixels { n ≡ count_of s }
    requires colours { (red ≡ colour_at s a 0) × (green ≡ colour_at s a 1) × (blue ≡ colour_at s a 2) }
    ensures { result ≡ over_channels (after_at s a) }
{
    let t = s.s_t;
    let c = s.s_c;
    let tt = s.s_t2;
    let cc = s.s_c2;
    let tc = s.s_tc;
    let first = error_after(tt[0], tc[0], cc[0], t[0], c[0], a, m, red, n);
    let second = error_after(tt[1], tc[1], cc[1], t[1], c[1], a, m, green, n);
    let third = error_after(tt[2], tc[2], cc[2], t[2], c[2], a, m, blue, n);
    0.0 + first + second + third
}

// The same of colours that are not widened yet; one may be a NaN.
fn all_after(s: ShapeSums, a: f64, m: f64, n: f64, red: f32, green: f32, blue: f32) -> f64
    requires rest { m ≡ rest a }
    requires pixels { n ≡ count_of s }
    requires colours { (red ≡ colour_at s a 0) × (green ≡ colour_at s a 1) × (blue ≡ colour_at s a 2) }
    ensures { result ≡ over_channels (after_at s a) }
{
    all_wide(
        s,
        a,
        m,
        n,
        float::widen(red),
        float::widen(green),
        float::widen(blue),
    )
}

// A channel's colour before it is held to 0..1, where denom is above 0.
fn wanted(t: f64, c: f64, m: f64, denom: f64) -> f64
    ensures { result ≡ wanted_of t c m denom }
{
    (t - m * c) / denom
}

fn wanted_at(s: ShapeSums, ch: usize, m: f64, denom: f64) -> f64
    requires { ch < 3 }
    ensures { result ≡ wanted_at s ch m denom }
{
    let t = s.s_t;
    let c = s.s_c;
    wanted(t[ch], c[ch], m, denom)
}

fn left_at(s: ShapeSums, ch: usize, m: f64) -> f64
    requires { ch < 3 }
    ensures { result ≡ left_at s m ch }
{
    let tt = s.s_t2;
    let cc = s.s_c2;
    let tc = s.s_tc;
    error_left(tt[ch], tc[ch], cc[ch], m)
}

// The same where the errors before are known. What the colours and the errors are worked out from goes by number: a call has the sums in registers
// then, and no load has to wait for two stores.
// Kept: the nine parts by number. As a struct they go through memory: tried, misses the bar of speed (a tiny circle's score by spans 152 ns for 145,
// by points 209 for 202); with `finalize_from` written out in the calls, 212.
#[inline(always)]
fn finalize_with(s: ShapeSums, opacity: f32, before: f64) -> Score
    requires { before ≡ over_channels (before_at s) }
    ensures { FinalizeSays s opacity result }
{
    let t = s.s_t;
    let c = s.s_c;
    let m = rest_of(opacity);
    parts::finalize_from(
        s,
        opacity,
        s.count,
        s.count as f64,
        t[0],
        t[1],
        t[2],
        c[0],
        c[1],
        c[2],
        before,
        left_at(s, 0, m),
        left_at(s, 1, m),
        left_at(s, 2, m),
    )
}

// The change and the colour at an opacity, from the sums alone: one geometry is scored at many opacities.
pub fn finalize(s: ShapeSums, opacity: f32) -> Score
    ensures { FinalizeSays s opacity result }
{
    finalize_with(s, opacity, all_before(s))
}
