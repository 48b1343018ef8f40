// Floats: f64 to f32 and back, bit patterns for every float, the test for 0..1 and the clamp.
#![tactic(auto)]

ghost use Rattle.std.specs.Prelude.{◌≡◌, ◌+◌, ◌-◌, ◌^◌, ◌<◌, ◌≤◌, T, if◌then◌else◌, nat_lt};
ghost use Rattle.std.specs.Float.Ieee.Nearest.{closest};
ghost use Rattle.float.specs.Narrowed.{NarrowSays, NarrowBitsSays};
ghost use Rattle.float.specs.Within.{number, all_numbers, WithinSays, AllWithinSays, AllNumbersSays};
ghost use Rattle.float.specs.Marks.{MarksSays};
ghost use Rattle.float.specs.Clamped.{Clamp01Says, Narrow01Says};
ghost use Rattle.float.specs.Shortened.{shortened};
ghost use Rattle.float.specs.Patterns.{Bits32Says, Bits64Says, OfBits32Says, OfBits64Says, WidenSays, WidenNumberSays};

// The pattern of an f32 from that of an f64, rounded to the nearest, ties to even. A NaN's gives 7FC00000.
// Divisions by constants, not shifts: the compiler makes shifts of them, and the prover's arithmetic reads them.
// By the exponent: f32's normal range but its last power of two; then what is 0 or infinity, by no choice of its own. The few that are
// left go the long way.
pub fn narrow_bits(b: u64) -> u32
    ensures { NarrowBitsSays b result }
{
    let e = b / 0x10_0000_0000_0000 % 2048;
    if (897 <= e) & (e < 1150) {
        let sign = (b / 0x8000_0000_0000_0000) * 0x8000_0000;
        return (sign + shorten(b % 0x8000_0000_0000_0000)) as u32;
    }
    if (e < 871) | (1150 < e) {
        if e < 2047 {
            let sign = (b / 0x8000_0000_0000_0000) * 0x8000_0000;
            return (sign + e / 1024 * 0x7f80_0000) as u32;
        }
    }
    any_bits(b)
}

// The same, for `narrow`, which is written out in the loops of scores.
// Usual numbers pass one test: from 2^-126, f32's normal range, up to 2^128 - 2^103, where infinity begins.
fn any_bits(b: u64) -> u32
    ensures { NarrowBitsSays b result }
{
    let sign = (b / 0x8000_0000_0000_0000) * 0x8000_0000;
    let r = b % 0x8000_0000_0000_0000;
    if (0x3810_0000_0000_0000 <= r) & (r < 0x47ef_ffff_f000_0000) {
        return (sign + shorten(r)) as u32;
    }
    if (r < 0x3670_0000_0000_0000) | (0x3810_0000_0000_0000 <= r) {
        if 0x7ff0_0000_0000_0000 < r {
            return 0x7fc0_0000;
        }
        return (sign + far(r)) as u32;
    }
    // an f32 below its normal range: the digits, with the leading one, shifted
    let q = 0x10_0000_0000_0000 + r % 0x10_0000_0000_0000;
    (sign + closest_shift(q, 925 - r / 0x10_0000_0000_0000)) as u32
}

// 896 off the exponent, and the last 29 digits rounded off: a carry goes into the exponent.
fn shorten(r: u64) -> u64
    requires { (0x3810_0000_0000_0000 ≤ r) × (r < 0x47ef_ffff_f000_0000) }
    ensures { (result ≡ shortened (r - 0x3800_0000_0000_0000)) × (result < 0x7f80_0000) }
{
    let u = r - 0x3800_0000_0000_0000;
    (u + 0x0fff_ffff + u / 0x2000_0000 % 2) / 0x2000_0000
}

// Too small gives 0, too large infinity. A choice, not a way out: the one is as likely as the other.
fn far(r: u64) -> u64
    ensures { (result ≡ (if nat_lt r 0x3810_0000_0000_0000 then 0 else 0x7f80_0000)) × (result ≤ 0x7f80_0000) }
{
    if r < 0x3810_0000_0000_0000 {
        0
    } else {
        0x7f80_0000
    }
}

// q / 2^(k + 1), rounded to the nearest whole number, a tie to the even one.
fn closest_shift(q: u64, k: u64) -> u64
    requires { (q < 2 ^ 53) × (k ≤ 62) }
    ensures { result ≡ closest q (2 ^ (k + 1)) }
{
    let h = 1u64 << k;
    (q + (h - 1) + (q >> (k + 1)) % 2) >> (k + 1)
}

// x as an f32, rounded to the nearest, ties to even: Rust's `x as f32`. A NaN gives a NaN.
pub fn narrow(x: f64) -> f32
    ensures { NarrowSays x result }
{
    if x != x {
        return 0.0 / 0.0;
    }
    f32::from_bits(any_bits(f64::to_bits(x)))
}

// x as an f64, also where it is a NaN.
pub fn widen(x: f32) -> f64
    ensures { WidenSays x result }
{
    std::num::f32_to_f64_with_nan(x)
}

// The same without a test, for a caller that knows that x is no NaN.
pub fn widen_number(x: f32) -> f64
    requires { T (number x) }
    ensures { WidenNumberSays x result }
{
    x as f64
}

// Within 0..1: -0.0 is, a NaN is not.
pub fn within(x: f32) -> bool
    ensures { WithinSays x result }
{
    (0.0 <= x) & (x <= 1.0)
}

// Every element is within 0..1. Numbers have patterns without a choice, so the second loop is vectorised; only a -0.0, or an element
// that is not within, makes it look again.
pub fn all_within(xs: &[f32]) -> bool
    ensures { AllWithinSays xs.now result }
{
    all_numbers(xs) && numbers_within(xs)
}

// The same, of numbers: up to the pattern of 1 a pattern is one of a float within 0..1.
fn numbers_within(xs: &[f32]) -> bool
    requires { T (all_numbers xs.now) }
    ensures { AllWithinSays xs.now result }
{
    let mut most = 0u32;
    for &x in xs {
        most = most.max(f32::to_bits(x));
    }
    most <= 0x3f80_0000 || each_within(xs)
}

// The same, one by one.
fn each_within(xs: &[f32]) -> bool
    ensures { AllWithinSays xs.now result }
{
    xs.iter().all(|&x| within(x))
}

// v's pattern, or all ones where v is not at most 1: the top bit is clear only where v is within 0..1.
// Kept: its promise MarksSays is about a number, which a loop joins by `|`; an Option would be a test for each element.
pub fn marks(v: f32) -> u32
    ensures { MarksSays v result }
{
    if v <= 1.0 {
        f32::to_bits(v)
    } else {
        0xffff_ffff
    }
}

// No element is a NaN. The loop has no way out, so that it is vectorised.
pub fn all_numbers(xs: &[f32]) -> bool
    ensures { AllNumbersSays xs.now result }
{
    let mut ok = true;
    for &x in xs {
        ok = ok & (x == x);
    }
    ok
}

// Below 0 becomes 0, above 1 becomes 1; a NaN and -0.0 stay.
pub fn clamp01(x: f64) -> f64
    ensures { Clamp01Says x result }
{
    if x < 0.0 {
        return 0.0;
    }
    if x > 1.0 {
        return 1.0;
    }
    x
}

// q clamped to 0..1, then narrowed. From 2^-126 up to 1 there is no sign, no overflow and no subnormal to look for.
pub fn narrow01(q: f64) -> f32
    ensures { Narrow01Says q result }
{
    if q <= 1.0 {
        let b = f64::to_bits(q);
        if (0x3810_0000_0000_0000 <= b) & (b < 0x47ef_ffff_f000_0000) {
            return f32::from_bits(shorten(b) as u32);
        }
        if q < 0.0 {
            return 0.0;
        }
        return narrow(q);
    }
    if q > 1.0 {
        return 1.0;
    }
    0.0 / 0.0
}

// Kept as four: the new form is no plainer: each is one call of the library's, and a trait over f32 and f64 would need a block for each.
// The pattern of x; 7FC00000 for a NaN.
pub fn bits32(x: f32) -> u32
    ensures { Bits32Says x result }
{
    std::num::f32_to_bits_with_nan(x)
}

// The pattern of x; 7FF8000000000000 for a NaN.
pub fn bits64(x: f64) -> u64
    ensures { Bits64Says x result }
{
    std::num::f64_to_bits_with_nan(x)
}

// The f32 with the pattern b; a NaN for a NaN's.
pub fn of_bits32(b: u32) -> f32
    ensures { OfBits32Says b result }
{
    std::num::f32_from_bits_with_nan(b)
}

// The f64 with the pattern b; a NaN for a NaN's.
pub fn of_bits64(b: u64) -> f64
    ensures { OfBits64Says b result }
{
    std::num::f64_from_bits_with_nan(b)
}
