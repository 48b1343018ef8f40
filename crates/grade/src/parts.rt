// A score from numbers: the sums of target and canvas, and the errors before and where m of the canvas is left. The sums themselves are there for
// the contracts alone.
ghost use Rattle.std.specs.Prelude.{◌≡◌, T, true};
ghost use Rattle.std.specs.Float.{binary64};
ghost use Rattle.std.specs.Float.Ieee.{to_bits};
ghost use Rattle.float.specs.Within.{number};
ghost use Rattle.float.specs.Narrowed.{narrowed};
ghost use Rattle.float.specs.Shortened.{Plain};
ghost use Rattle.grade.specs.Finalize.{rest, over_channels, colour_at, before_at, after_at, finalized};
ghost use Rattle.grade.specs.Parts.{parts_of, Parted};

use crate::Score;
use sums::ShapeSums;

// What a score is worked out from, channel by channel: the sums of target and canvas, and the errors where nothing is drawn yet.
#[derive(Clone, Copy)]
pub(crate) struct Parts {
    t0: f64,
    t1: f64,
    t2: f64,
    c0: f64,
    c1: f64,
    c2: f64,
    l0: f64,
    l1: f64,
    l2: f64,
}

// An f32 has as many digits for q as it has for any number: q is 0, or not below f32's normal range.
fn plain(q: f64) -> bool
    requires { T (number q) }
    ensures { result ≡ true → Plain (to_bits binary64 q) }
{
    let b = f64::to_bits(q);
    (b == 0) | ((0x3810_0000_0000_0000 <= b) & (b < 0x4000_0000_0000_0000))
}

// Such a number with an f32's digits: the last 29 are rounded off, by the pattern. It is an f64 still, as the errors want it.
fn rounded(q: f64) -> f64
    requires { T (number q) × Plain (to_bits binary64 q) }
    ensures { result ≡ narrowed q }
{
    let b = f64::to_bits(q);
    f64::from_bits((b + 0x0fff_ffff + b / 0x2000_0000 % 2) / 0x2000_0000 * 0x2000_0000)
}

// The errors with the colours drawn over them, over the channels.
fn all_drawn(s: ShapeSums, p: Parts, a: f64, m: f64, n: f64, red: f64, green: f64, blue: f64) -> f64
    requires parts { Parted s m n p }
    requires rest { m ≡ rest a }
    requires colours { (red ≡ colour_at s a 0) × (green ≡ colour_at s a 1) × (blue ≡ colour_at s a 2) }
    ensures { result ≡ over_channels (after_at s a) }
{
    let first = crate::error_drawn(p.l0, p.t0, p.c0, a, m, red, n);
    let second = crate::error_drawn(p.l1, p.t1, p.c1, a, m, green, n);
    let third = crate::error_drawn(p.l2, p.t2, p.c2, a, m, blue, n);
    0.0 + first + second + third
}

// The score with these colours, which an f32 holds.
fn plain_score(
    s: ShapeSums,
    opacity: f32,
    count: u32,
    before: f64,
    p: Parts,
    a: f64,
    m: f64,
    n: f64,
    red: f64,
    green: f64,
    blue: f64,
) -> Score
    requires before { before ≡ over_channels (before_at s) }
    requires some { (count ≡ s.count) × (s.count ≡ 0 → ⊥) }
    requires parts { Parted s m n p }
    requires opacity { (a ≡ opacity) × (m ≡ rest a) }
    requires colours { (red ≡ colour_at s a 0) × (green ≡ colour_at s a 1) × (blue ≡ colour_at s a 2) }
    requires numbers { T (number red) × T (number green) × T (number blue) }
    ensures { result ≡ finalized s opacity }
{
    let after = all_drawn(s, p, a, m, n, red, green, blue);
    Score {
        opacity: opacity,
        count: count,
        change: float::narrow(after - before),
        red: red as f32,
        green: green as f32,
        blue: blue as f32,
    }
}

// The same of any colours.
fn finalize_any(
    s: ShapeSums,
    opacity: f32,
    count: u32,
    before: f64,
    p: Parts,
    a: f64,
    m: f64,
    n: f64,
) -> Score
    requires before { before ≡ over_channels (before_at s) }
    requires some { (count ≡ s.count) × (s.count ≡ 0 → ⊥) }
    requires parts { Parted s m n p }
    requires opacity { (a ≡ opacity) × (m ≡ rest a) }
    ensures { result ≡ finalized s opacity }
{
    let denom = a * n;
    let red = crate::colour(p.t0, p.c0, m, denom);
    let green = crate::colour(p.t1, p.c1, m, denom);
    let blue = crate::colour(p.t2, p.c2, m, denom);
    let after = all_drawn(
        s,
        p,
        a,
        m,
        n,
        float::widen(red),
        float::widen(green),
        float::widen(blue),
    );
    Score {
        opacity: opacity,
        count: count,
        change: float::narrow(after - before),
        red: red,
        green: green,
        blue: blue,
    }
}

// The score. Where the colours are numbers, as the sum of the three shows, and have an f32's digits, no branch asks where they lie. It has two
// callers, so that the compiler keeps it apart and writes `finalize` out in the calls. What is needed last comes last: that goes through memory.
pub(crate) fn finalize_from(
    s: ShapeSums,
    opacity: f32,
    count: u32,
    n: f64,
    t0: f64,
    t1: f64,
    t2: f64,
    c0: f64,
    c1: f64,
    c2: f64,
    before: f64,
    l0: f64,
    l1: f64,
    l2: f64,
) -> Score
    requires count { count ≡ s.count }
    requires before { before ≡ over_channels (before_at s) }
    requires parts { Parted s (rest opacity) n (parts_of t0 t1 t2 c0 c1 c2 l0 l1 l2) }
    ensures { result ≡ finalized s opacity }
{
    if count == 0 {
        return crate::no_score(opacity, 0);
    }
    let m = crate::rest_of(opacity);
    let a = float::widen(opacity);
    let p = Parts {
        t0: t0,
        t1: t1,
        t2: t2,
        c0: c0,
        c1: c1,
        c2: c2,
        l0: l0,
        l1: l1,
        l2: l2,
    };
    let denom = a * n;
    if denom > 0.0 {
        let red = crate::wanted(t0, c0, m, denom);
        let green = crate::wanted(t1, c1, m, denom);
        let blue = crate::wanted(t2, c2, m, denom);
        let sum = red + green + blue;
        if sum == sum {
            let r = float::clamp01(red);
            let g = float::clamp01(green);
            let b = float::clamp01(blue);
            if plain(r) & plain(g) & plain(b) {
                return plain_score(
                    s,
                    opacity,
                    count,
                    before,
                    p,
                    a,
                    m,
                    n,
                    rounded(r),
                    rounded(g),
                    rounded(b),
                );
            }
        }
    }
    finalize_any(s, opacity, count, before, p, a, m, n)
}
