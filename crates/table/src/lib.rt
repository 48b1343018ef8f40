// The table of prefix sums: for each row of a picture w + 1 places of fifteen sums, and what reads them.
#![tactic(auto)]

ghost use Rattle.std.specs.Prelude.{◌≡◌, true, false, ◌||◌, ℕ, ◌+◌, ◌-◌, ◌*◌, ◌≤◌, ◌<◌, ◌^◌, leb, ltb, length, get_or, pos};
ghost use Rattle.std.specs.Float.{nan};
ghost use Rattle.std.specs.Int.Signed.{le_z, lt_z};
ghost use Rattle.laws.specs.Rows.{cut, put_row, put_rows};
ghost use Rattle.float.specs.Within.{all_within};
ghost use Rattle.refusal.specs.Outcomes.{number_of};
ghost use Rattle.sums.specs.Sums.{three};
ghost use Rattle.table.specs.Table.{BuildSays, LengthsTestedSays, UpdateCanvasRowsSays, AddSpanSays, ReadPlaceSays};
ghost use Rattle.table.specs.Fills.{Sizes, NumbersBetween, RowNumbers, row_at};

use refusal::Refusal;
use sums::ShapeSums;

// The series' places among the fifteen.
const T: usize = 0;

const T2: usize = 3;

const C: usize = 6;

const C2: usize = 9;

const TC: usize = 12;

// The table of a target and a canvas within 0..1; or a refusal, and then no number of `table` has changed.
pub fn build(
    target: &[f32],
    canvas: &[f32],
    w: usize,
    h: usize,
    table: &mut [f64],
) -> Result<(), Refusal>
    ensures { BuildSays target.now canvas.now w h table.old (number_of result) table.new }
{
    lengths_tested(w, h, target.len(), canvas.len(), table.len())?;
    if !float::all_within(target) {
        return Err(Refusal::Pixel);
    }
    if !float::all_within(canvas) {
        return Err(Refusal::Pixel);
    }
    build_rows(target, canvas, w, h, table);
    Ok(())
}

// The canvas's sums afresh in rows ymin to ymax, both included. As in the Rust, a negative ymax is a huge number, so
// that every row from the lower end is redone.
pub fn update_canvas_rows(
    target: &[f32],
    canvas: &[f32],
    w: usize,
    h: usize,
    table: &mut [f64],
    ymin: i32,
    ymax: i32,
) -> Result<(), Refusal>
    ensures { UpdateCanvasRowsSays target.now canvas.now w h table.old ymin ymax (number_of result) table.new }
{
    lengths_tested(w, h, target.len(), canvas.len(), table.len())?;
    let hi = end_row(ymax, h);
    let lo = first_row(ymin, hi);
    update_rows(target, canvas, w, h, table, lo, hi);
    Ok(())
}

// Pixels left <= x < right of row y, added to the running sums.
pub fn add_span(
    table: &[f64],
    w: usize,
    y: usize,
    left: usize,
    right: usize,
    s: ShapeSums,
) -> ShapeSums
    requires { (w ≤ 256) × (left ≤ right) × (right ≤ w) × (y * ((w + 1) * 15) + (w + 1) * 15 ≤ length table.now) × (s.count + (right - left) < 2 ^ 32) }
    ensures { AddSpanSays table.now w y left right s result }
{
    let hi = read_place(table, w, y, right);
    let lo = read_place(table, w, y, left);
    s.plus(hi.minus(lo))
}

// Place x of row y: the sums of the x pixels before it.
pub fn read_place(table: &[f64], w: usize, y: usize, x: usize) -> ShapeSums
    requires { (w ≤ 256) × (x ≤ w) × (y * ((w + 1) * 15) + (w + 1) * 15 ≤ length table.now) }
    ensures { ReadPlaceSays table.now w y x result }
{
    let at = (y * (w + 1) + x) * 15;
    let s_t = three_at(table, at + T);
    let s_c = three_at(table, at + C);
    let s_t2 = three_at(table, at + T2);
    let s_c2 = three_at(table, at + C2);
    let s_tc = three_at(table, at + TC);
    ShapeSums {
        s_t,
        s_c,
        s_t2,
        s_c2,
        s_tc,
        count: x as u32,
    }
}

fn three_at(table: &[f64], at: usize) -> [f64; 3]
    requires { at + 3 ≤ length table.now }
    ensures { result ≡ three (get_or table.now at nan) (get_or table.now (at + 1) nan) (get_or table.now (at + 2) nan) }
{
    [table[at], table[at + 1], table[at + 2]]
}

// Size, then the lengths of what is lent.
pub fn lengths_tested(
    w: usize,
    h: usize,
    target: usize,
    canvas: usize,
    table: usize,
) -> Result<(), Refusal>
    ensures { LengthsTestedSays w h target canvas table (number_of result) }
{
    if refusal::bad_size(w, h) {
        return Err(Refusal::Size);
    }
    if refusal::bad_picture(w, h, target) {
        return Err(Refusal::Length);
    }
    if refusal::bad_picture(w, h, canvas) {
        return Err(Refusal::Length);
    }
    if refusal::bad_table(w, h, table) {
        return Err(Refusal::Length);
    }
    Ok(())
}

// The row after the last one to be redone.
fn end_row(ymax: i32, h: usize) -> usize
    ensures { (result ≤ h) × ((y : ℕ) → y < h → ltb y result ≡ lt_z ymax (pos 0) || le_z (pos y) ymax) }
{
    if ymax < 0 {
        return h;
    }
    let last = ymax as usize;
    if last < h { last + 1 } else { h }
}

// The first row to be redone, of those before hi.
fn first_row(ymin: i32, hi: usize) -> usize
    ensures { (result ≤ hi) × ((y : ℕ) → y < hi → leb result y ≡ le_z ymin (pos y)) }
{
    if ymin < 0 {
        return 0;
    }
    let first = ymin as usize;
    if first < hi { first } else { hi }
}

// Every row, of pictures within 0..1.
fn build_rows(target: &[f32], canvas: &[f32], w: usize, h: usize, table: &mut [f64])
    requires sizes { Sizes w h target.now canvas.now table.old }
    requires tested { (all_within target.now ≡ true) × (all_within canvas.now ≡ true) }
    ensures { table.new ≡ put_rows ((w + 1) * 15) (row_at true w target.now canvas.now) 0 h table.old }
{
    for y in 0..h {
        rebuild_at(target, canvas, w, table, y, true, true);
    }
}

// The canvas's sums in rows lo to hi, without hi. Some at a time, about 256 pixels: they are still near when their sums are worked
// out, after their test.
fn update_rows(
    target: &[f32],
    canvas: &[f32],
    w: usize,
    h: usize,
    table: &mut [f64],
    lo: usize,
    hi: usize,
)
    requires { Sizes w h target.now canvas.now table.old × (lo ≤ hi) × (hi ≤ h) }
    ensures { table.new ≡ put_rows ((w + 1) * 15) (row_at false w target.now canvas.now) lo hi table.old }
{
    let n = 256 / (w + 1) + 1;
    for part in 0..(hi - lo).div_ceil(n) {
        let y = lo + part * n;
        update_some(target, canvas, w, h, table, y, hi.min(y + n));
    }
}

// The same of a few rows. Where they have no NaN the quicker step is taken.
fn update_some(
    target: &[f32],
    canvas: &[f32],
    w: usize,
    h: usize,
    table: &mut [f64],
    lo: usize,
    hi: usize,
)
    requires { Sizes w h target.now canvas.now table.old × (lo ≤ hi) × (hi ≤ h) }
    ensures { table.new ≡ put_rows ((w + 1) * 15) (row_at false w target.now canvas.now) lo hi table.old }
{
    let numbers = rows_numbers(target, canvas, w, lo, hi);
    for y in lo..hi {
        rebuild_at(target, canvas, w, table, y, false, numbers);
    }
}

// Rows lo to hi of both pictures have no NaN.
fn rows_numbers(target: &[f32], canvas: &[f32], w: usize, lo: usize, hi: usize) -> bool
    requires { (w ≤ 256) × (lo ≤ hi) × (hi ≤ 256) × (hi * (w * 3) ≤ length target.now) × (hi * (w * 3) ≤ length canvas.now) }
    ensures { result ≡ true → NumbersBetween (lo * (w * 3)) (hi * (w * 3)) target.now canvas.now }
{
    all_numbers(target, canvas, lo * (w * 3), hi * (w * 3))
}

// Numbers from..to of both pictures have no NaN: then neither has a difference, one test for two. Two infinities of one sign make it
// false too, and then the slower step is taken. The loop has no way out, so that it is vectorised.
fn all_numbers(target: &[f32], canvas: &[f32], from: usize, to: usize) -> bool
    requires { (from ≤ to) × (to ≤ length target.now) × (to ≤ length canvas.now) }
    ensures { result ≡ true → NumbersBetween from to target.now canvas.now }
{
    let mut ok = true;
    for k in from..to {
        let d = target[k] - canvas[k];
        ok = ok & (d == d);
    }
    ok
}

// Row y's part of the table is lent on, and row y of each picture.
// Kept: `whole` and `numbers` are handed on to `rebuild_row`, whose promise names the one and whose clause the other.
fn rebuild_at(
    target: &[f32],
    canvas: &[f32],
    w: usize,
    table: &mut [f64],
    y: usize,
    whole: bool,
    numbers: bool,
)
    requires w_bound { (w ≤ 256) × (y * (w * 3) + w * 3 ≤ length target.now) × (y * (w * 3) + w * 3 ≤ length canvas.now) × (y * ((w + 1) * 15) + (w + 1) * 15 ≤ length table.old) }
    requires row_numbers { RowNumbers numbers (w * 3) y target.now canvas.now }
    ensures { table.new ≡ put_row ((w + 1) * 15) y (row_at whole w target.now canvas.now y (cut ((w + 1) * 15) y table.old)) table.old }
{
    let n = (w + 1) * 15;
    let a = y * n;
    rows::rebuild_row(
        &mut table[a..a + n],
        row_of(target, y, w * 3),
        row_of(canvas, y, w * 3),
        w,
        whole,
        numbers,
    );
}

fn row_of(picture: &[f32], y: usize, n: usize) -> &[f32]
    requires { y * n + n ≤ length picture.now }
    ensures { result.now ≡ cut n y picture.now }
{
    let a = y * n;
    &picture[a..a + n]
}
