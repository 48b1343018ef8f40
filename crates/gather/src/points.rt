// Sums of a shape pixel by pixel, in row order, from the two pictures themselves.
ghost use Rattle.std.specs.Prelude.{◌≡◌, true, false, ◌+◌, ◌-◌, ◌*◌, ◌/◌, ◌%◌, ◌≤◌, ◌<◌, ◌^◌, length};
ghost use Rattle.std.specs.Int.Count.{count_trailing_zeros};
ghost use Rattle.refusal.specs.Refusals.{Sized};
ghost use Rattle.cover.specs.Cover.{bad_places};
ghost use Rattle.sums.specs.Sums.{no_sums, plus, pixel_sums};
ghost use Rattle.gather.specs.RunSums.{pixels_added, points_added, RunsFit, NumbersIn, Reached};
ghost use Rattle.stamp.specs.Digits.{without_first};
ghost use Rattle.gather.specs.StampSums.{stamp_points, StampIn, first_place, PushStampSays};
ghost use Rattle.gather.specs.Gathered.{pixel_from, PointSumsSays};
ghost use Rattle.gather.specs.Paired.{unpaired_of, UnpairedSays};

use cover::Kind;
use sums::ShapeSums;

// The sums in the order that the compiler pairs well: it adds green and blue of a pixel side by side in one register, and of red those that have
// a factor of the canvas, and the two pictures' own. `finalize` reads green and blue as pairs too, as they were written.
#[derive(Clone, Copy)]
pub struct Paired {
    t1: f64,
    t2: f64,
    c1: f64,
    c2: f64,
    tt1: f64,
    tt2: f64,
    cc1: f64,
    cc2: f64,
    tc1: f64,
    tc2: f64,
    tc0: f64,
    cc0: f64,
    t0: f64,
    c0: f64,
    tt0: f64,
    count: u32,
}

fn no_pairs() -> Paired
    ensures { unpaired_of result ≡ no_sums }
{
    Paired {
        t1: 0.0,
        t2: 0.0,
        c1: 0.0,
        c2: 0.0,
        tt1: 0.0,
        tt2: 0.0,
        cc1: 0.0,
        cc2: 0.0,
        tc1: 0.0,
        tc2: 0.0,
        tc0: 0.0,
        cc0: 0.0,
        t0: 0.0,
        c0: 0.0,
        tt0: 0.0,
        count: 0,
    }
}

// One pixel more, of values that are widened already.
fn push_pair(s: Paired, tr: f64, tg: f64, tb: f64, cr: f64, cg: f64, cb: f64) -> Paired
    requires { s.count + 1 < 2 ^ 32 }
    ensures { unpaired_of result ≡ plus (unpaired_of s) (pixel_sums tr tg tb cr cg cb) }
{
    Paired {
        t1: s.t1 + tg,
        t2: s.t2 + tb,
        c1: s.c1 + cg,
        c2: s.c2 + cb,
        tt1: s.tt1 + tg * tg,
        tt2: s.tt2 + tb * tb,
        cc1: s.cc1 + cg * cg,
        cc2: s.cc2 + cb * cb,
        tc1: s.tc1 + tg * cg,
        tc2: s.tc2 + tb * cb,
        tc0: s.tc0 + tr * cr,
        cc0: s.cc0 + cr * cr,
        t0: s.t0 + tr,
        c0: s.c0 + cr,
        tt0: s.tt0 + tr * tr,
        count: s.count + 1,
    }
}

// The same numbers, channel by channel. A call takes a stamp's sums so and hands them on: were they put together before, it would copy as a
// block what was just written in parts.
pub fn unpaired(s: Paired) -> ShapeSums
    ensures { UnpairedSays s result }
{
    let s_t = [s.t0, s.t1, s.t2];
    let s_c = [s.c0, s.c1, s.c2];
    let s_t2 = [s.tt0, s.tt1, s.tt2];
    let s_c2 = [s.cc0, s.cc1, s.cc2];
    let s_tc = [s.tc0, s.tc1, s.tc2];
    ShapeSums {
        s_t,
        s_c,
        s_t2,
        s_c2,
        s_tc,
        count: s.count,
    }
}

// None of the values a <= i < e is a NaN.
fn numbers_in(xs: &[f32], a: usize, e: usize) -> bool
    requires { (a ≤ e) × (e ≤ length xs.now) }
    ensures { result ≡ true → NumbersIn xs.now a e }
{
    float::all_numbers(&xs[a..e])
}

// The two pictures that are summed, of w pixels a row.
#[derive(Clone, Copy)]
struct Pair<'a> {
    target: &'a [f32],
    canvas: &'a [f32],
    w: usize,
}

impl<'a> Pair<'a> {
    // The same of two pictures. A run of less than 32 pixels is not looked through: that would cost more than it saves.
    fn both_numbers(self, a: usize, e: usize) -> bool
        requires { (a ≤ e) × (e ≤ length self.target.now) × (e ≤ length self.canvas.now) }
        ensures { result ≡ true → NumbersIn self.entry.target.now a e × NumbersIn self.entry.canvas.now a e }
    {
        if e - a < 96 {
            return false;
        }
        if numbers_in(self.target, a, e) {
            return numbers_in(self.canvas, a, e);
        }
        false
    }

    // The pixel whose channels begin at place `at`, of any bits.
    fn push_any(self, at: usize, s: Paired) -> Paired
        requires { (at + 3 ≤ length self.target.now) × (at + 3 ≤ length self.canvas.now) × (s.count + 1 < 2 ^ 32) }
        ensures { unpaired_of result ≡ plus (unpaired_of s) (pixel_from self.entry.target.now self.entry.canvas.now at) }
    {
        push_pair(
            s,
            float::widen(self.target[at]),
            float::widen(self.target[at + 1]),
            float::widen(self.target[at + 2]),
            float::widen(self.canvas[at]),
            float::widen(self.canvas[at + 1]),
            float::widen(self.canvas[at + 2]),
        )
    }

    // The same where none is a NaN: widened without a test.
    fn push_numbers(self, at: usize, s: Paired) -> Paired
        requires at_in_bounds { (at + 3 ≤ length self.target.now) × (at + 3 ≤ length self.canvas.now) × (s.count + 1 < 2 ^ 32) }
        requires numbers_in { NumbersIn self.target.now at (at + 3) × NumbersIn self.canvas.now at (at + 3) }
        ensures { unpaired_of result ≡ plus (unpaired_of s) (pixel_from self.entry.target.now self.entry.canvas.now at) }
    {
        push_pair(
            s,
            float::widen_number(self.target[at]),
            float::widen_number(self.target[at + 1]),
            float::widen_number(self.target[at + 2]),
            float::widen_number(self.canvas[at]),
            float::widen_number(self.canvas[at + 1]),
            float::widen_number(self.canvas[at + 2]),
        )
    }

    // None of the pixel's channels is a NaN: a sum that is a number is of numbers alone. Two sums, which the compiler works out as a pair. Infinities
    // of both signs make it false too, and then each channel is looked at.
    fn numbers_at(self, at: usize) -> bool
        requires { (at + 3 ≤ length self.target.now) × (at + 3 ≤ length self.canvas.now) }
        ensures { result ≡ true → NumbersIn self.entry.target.now at (at + 3) × NumbersIn self.entry.canvas.now at (at + 3) }
    {
        let first = self.target[at + 1] + self.canvas[at + 1] + self.target[at];
        let second = self.target[at + 2] + self.canvas[at + 2] + self.canvas[at];
        (first == first) & (second == second)
    }

    // Pixels left <= x < right of row y, none of which is a NaN.
    fn push_known(self, y: usize, left: usize, right: usize, sums: Paired) -> Paired
        requires sizes { (self.w ≤ 256) × (y < 256) × (left ≤ right) × (right ≤ self.w) × (sums.count + (right - left) < 2 ^ 31) }
        requires lent { (y * self.w * 3 + self.w * 3 ≤ length self.target.now) × (y * self.w * 3 + self.w * 3 ≤ length self.canvas.now) }
        requires numbers { NumbersIn self.target.now ((y * self.w + left) * 3) ((y * self.w + right) * 3) × NumbersIn self.canvas.now ((y * self.w + left) * 3) ((y * self.w + right) * 3) }
        ensures { unpaired_of result ≡ pixels_added self.entry.w self.entry.target.now self.entry.canvas.now y left (right - left) (unpaired_of sums) }
    {
        let mut s = sums;
        for x in left..right {
            s = self.push_numbers((y * self.w + x) * 3, s);
        }
        s
    }

    // The same of any bits.
    fn push_run_any(self, y: usize, left: usize, right: usize, sums: Paired) -> Paired
        requires sizes { (self.w ≤ 256) × (y < 256) × (left ≤ right) × (right ≤ self.w) × (sums.count + (right - left) < 2 ^ 31) }
        requires lent { (y * self.w * 3 + self.w * 3 ≤ length self.target.now) × (y * self.w * 3 + self.w * 3 ≤ length self.canvas.now) }
        ensures { unpaired_of result ≡ pixels_added self.entry.w self.entry.target.now self.entry.canvas.now y left (right - left) (unpaired_of sums) }
    {
        let mut s = sums;
        for x in left..right {
            s = self.push_any((y * self.w + x) * 3, s);
        }
        s
    }

    // The same: each is looked at until there is a NaN, and from there on each channel.
    fn push_tested(self, y: usize, left: usize, right: usize, sums: Paired) -> Paired
        requires sizes { (self.w ≤ 256) × (y < 256) × (left ≤ right) × (right ≤ self.w) × (sums.count + (right - left) < 2 ^ 31) }
        requires lent { (y * self.w * 3 + self.w * 3 ≤ length self.target.now) × (y * self.w * 3 + self.w * 3 ≤ length self.canvas.now) }
        ensures { unpaired_of result ≡ pixels_added self.entry.w self.entry.target.now self.entry.canvas.now y left (right - left) (unpaired_of sums) }
    {
        let mut s = sums;
        for x in left..right {
            if !self.numbers_at((y * self.w + x) * 3) {
                return self.push_run_any(y, x, right, s);
            }
            s = self.push_numbers((y * self.w + x) * 3, s);
        }
        s
    }

    // Pixels left <= x < right of row y. In a long run, looking for a NaN in all of them first is cheaper than in each by itself.
    fn push_row(self, y: usize, left: usize, right: usize, sums: Paired) -> Paired
        requires sizes { (self.w ≤ 256) × (y < 256) × (left ≤ right) × (right ≤ self.w) × (sums.count + (right - left) < 2 ^ 31) }
        requires lent { (y * self.w * 3 + self.w * 3 ≤ length self.target.now) × (y * self.w * 3 + self.w * 3 ≤ length self.canvas.now) }
        ensures { unpaired_of result ≡ pixels_added self.entry.w self.entry.target.now self.entry.canvas.now y left (right - left) (unpaired_of sums) }
    {
        if self.both_numbers((y * self.w + left) * 3, (y * self.w + right) * 3) {
            return self.push_known(y, left, right, sums);
        }
        self.push_tested(y, left, right, sums)
    }

    // The runs of rows top to bottom, from the top row down. It is kept apart: it takes no shape, and what is around it is written out in the calls.
    #[inline(never)]
    fn push_rows(self, runs: &[u16; 512], top: usize, bottom: usize) -> Paired
        requires sizes { (self.w ≤ 256) × (top ≤ bottom) × (bottom ≤ 256) × (bottom * (self.w * 3) ≤ length self.target.now) × (bottom * (self.w * 3) ≤ length self.canvas.now) }
        requires runs { RunsFit runs.now self.w top bottom }
        ensures { unpaired_of result ≡ points_added self.entry.w self.entry.target.now self.entry.canvas.now runs.now top (bottom - top) }
    {
        let mut s = no_pairs();
        for y in top..bottom {
            let left = runs[y * 2] as usize;
            let right = runs[y * 2 + 1] as usize;
            s = self.push_row(y, left, right, s);
        }
        s
    }

    // The pixels that the bits say, of any values.
    fn push_stamp_any(self, bits: u64, left: usize, top: usize, sums: Paired) -> Paired
        requires bits { sums.count ≤ count_trailing_zeros 64 bits }
        requires window { (left < 256) × (top < 256) × (self.w ≤ 256) }
        requires lent { length self.canvas.now ≡ length self.target.now }
        requires pixels { StampIn self.w left top (length self.target.now) bits }
        ensures { unpaired_of result ≡ stamp_points self.entry.w self.entry.target.now self.entry.canvas.now left top bits (unpaired_of sums) }
    {
        let corner = (top * self.w + left) * 3;
        let row = self.w * 3;
        let mut s = sums;
        let mut b = bits;
        // Kept: no index is counted; the bits that are left are what is gone through.
        while b != 0 {
            s = self.push_any(first_place(b, corner, row), s);
            b = without_first(b);
        }
        s
    }
}

// Where the channels of the first pixel begin that the bits say, of a picture whose rows have `row` numbers; the stamp begins at place `corner`.
// Of no bit it is a place behind the stamp, which nothing reads. Three numbers for each pixel before it, and for each row the rest of a row.
fn first_place(bits: u64, corner: usize, row: usize) -> usize
    requires { (corner ≤ 200000) × (row ≤ 768) }
    ensures { result ≡ first_place corner row bits }
{
    let i = u64::trailing_zeros(bits) as usize;
    corner + i * 3 + i / 8 * row - i / 8 * 24
}

// The bits without the first that is 1.
fn without_first(bits: u64) -> u64
    requires { 0 < bits }
    ensures { result ≡ without_first bits }
{
    bits & (bits - 1)
}

// The pixels of a stamp, in row order. Each is looked at until there is a NaN. The next one's place is worked out before the sums of this one,
// which the processor has to wait for.
pub fn push_stamp(
    bits: u64,
    left: usize,
    top: usize,
    target: &[f32],
    canvas: &[f32],
    w: usize,
) -> Paired
    requires window { (left < 256) × (top < 256) × (w ≤ 256) }
    requires lent { length canvas.now ≡ length target.now }
    requires pixels { StampIn w left top (length target.now) bits }
    ensures { PushStampSays w target.now canvas.now left top bits result }
{
    let corner = (top * w + left) * 3;
    let row = w * 3;
    let pair = Pair { target, canvas, w };
    let mut s = no_pairs();
    let mut b = bits;
    let mut at = first_place(bits, corner, row);
    // Kept: no index is counted; the bits that are left are what is gone through.
    while b != 0 {
        let rest = without_first(b);
        let next = first_place(rest, corner, row);
        if !pair.numbers_at(at) {
            return pair.push_stamp_any(b, left, top, s);
        }
        s = pair.push_numbers(at, s);
        b = rest;
        at = next;
    }
    s
}

// The sums of a shape over the rows of its reach, which are some. Written out in the calls, so that no shape goes through memory.
#[inline(always)]
pub fn reached_sums(
    kind: Kind,
    top: usize,
    bottom: usize,
    w: usize,
    h: usize,
    target: &[f32],
    canvas: &[f32],
) -> ShapeSums
    requires sizes { Sized w h }
    requires places { bad_places kind ≡ false }
    requires lent { (length target.now ≡ h * w * 3) × (length canvas.now ≡ h * w * 3) }
    requires rows { Reached kind w h top bottom }
    ensures { PointSumsSays kind w h target.now canvas.now result }
{
    let mut runs = [0u16; 512];
    cover::runs(kind, w, h, &mut runs);
    unpaired(Pair { target, canvas, w }.push_rows(&runs, top, bottom))
}

// The sums of a shape whose sizes and places were tested.
pub fn point_sums(kind: Kind, w: usize, h: usize, target: &[f32], canvas: &[f32]) -> ShapeSums
    requires sizes { Sized w h }
    requires places { bad_places kind ≡ false }
    requires lent { (length target.now ≡ h * w * 3) × (length canvas.now ≡ h * w * 3) }
    ensures { PointSumsSays kind w h target.now canvas.now result }
{
    let rows = cover::reached::reach_rows(kind, w, h);
    if rows.bottom <= rows.top {
        return ShapeSums::new();
    }
    reached_sums(kind, rows.top, rows.bottom, w, h, target, canvas)
}
