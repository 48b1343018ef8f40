// A row's part of the table: its running sums, place by place.
#![tactic(auto)]

ghost use Rattle.std.specs.Prelude.{◌≡◌, ℕ, nat_eq, true, false, cond, ◌++◌, ◌+◌, ◌*◌, ◌<◌, ◌≤◌, ◌^◌, length, take, get_or, T};
ghost use Rattle.std.proofs.lemmas.List.Edits.{sets};
ghost use Rattle.std.specs.Float.{nan};
ghost use Rattle.float.specs.Within.{nought, all_numbers};
ghost use Rattle.sums.specs.Sums.{plus};
ghost use Rattle.rows.specs.Places.{RowSizes, pixel_at, all3, target_six, canvas_nine, RebuildRowSays};

use sums::ShapeSums;

// The sums of the pixels before each place: all fifteen, or the nine that read the canvas.
// Rows that are known to have no NaN take the quicker step.
// Kept: what may not change: `RebuildRowSays` names `whole`, and a clause `numbers`.
pub fn rebuild_row(
    row: &mut [f64],
    target: &[f32],
    canvas: &[f32],
    w: usize,
    whole: bool,
    numbers: bool,
)
    requires row_sizes { RowSizes w target.now canvas.now row.old }
    requires t { numbers ≡ true → T (all_numbers target.now) × T (all_numbers canvas.now) }
    ensures { RebuildRowSays whole w target.now canvas.now row.old row.new }
{
    match (whole, numbers) {
        (true, true) => write_row::<0, _>(row, target, canvas, w, step_numbers),
        (true, false) => write_row::<0, _>(row, target, canvas, w, step_any),
        (false, true) => update_row(row, target, canvas, w),
        (false, false) => write_row::<6, _>(row, target, canvas, w, step_any),
    }
}

// The nine that read the canvas, of rows without a NaN.
pub fn update_row(row: &mut [f64], target: &[f32], canvas: &[f32], w: usize)
    requires row_sizes { RowSizes w target.now canvas.now row.old }
    requires t { T (all_numbers target.now) × T (all_numbers canvas.now) }
    ensures { RebuildRowSays false w target.now canvas.now row.old row.new }
{
    write_row::<6, _>(row, target, canvas, w, step_numbers)
}

// A row by a step that adds a pixel; FIRST is the first number of a place that is written, 0 or 6. It is known when this is compiled: of the
// nine the compiler leaves the other six sums out.
fn write_row<const FIRST: usize, S: Fn(ShapeSums, &[f32], &[f32], usize) -> ShapeSums>(
    row: &mut [f64],
    target: &[f32],
    canvas: &[f32],
    w: usize,
    step: S,
)
    requires row_sizes { RowSizes w target.now canvas.now row.old }
    requires may { (s : _) (x : ℕ) → x < w → s.count + 1 < 2 ^ 32 → S.pre step s target canvas x }
    requires adds { (s : _) (x : ℕ) (r : _) → x < w → S.post step s target canvas x r → r ≡ plus s (pixel_at target.now canvas.now x) }
    ensures { RebuildRowSays (nat_eq FIRST 0) w target.now canvas.now row.old row.new }
{
    let mut s = ShapeSums::new();
    put(&mut row[0..15], s, FIRST == 0);
    let mut seen = 0.0;
    for x in 0..w {
        s = step(s, target, canvas, x);
        let a = (x + 1) * 15;
        seen = read_ahead(seen, row, a, w, FIRST == 0);
        put(&mut row[a..a + 15], s, FIRST == 0);
    }
    keep_reads(row, seen);
}

// Of all fifteen two that are written here; of the nine, in a wide row, a number before and the last of those that are written here.
fn read_ahead(seen: f64, row: &[f64], a: usize, w: usize, whole: bool) -> f64
    requires { a + 15 ≤ length row.now }
{
    if whole {
        return read_here(seen, row, a);
    }
    read_before(seen, row, a, w)
}

// Numbers at two places, of each line of memory that is to be written one at least. A large table lies beyond the near caches, and lines that
// are read are fetched ahead of their turn; lines that are only written are not.
fn read_both(row: &[f64], i: usize, k: usize) -> f64
    requires { (i < length row.now) × (k < length row.now) }
{
    row[i] + row[k]
}

// Two of those that are written at a, eight numbers apart.
fn read_here(seen: f64, row: &[f64], a: usize) -> f64
    requires { a + 15 ≤ length row.now }
{
    seen + read_both(row, a, a + 8)
}

// In a wide row a number before and the last of those that are written at a.
fn read_before(seen: f64, row: &[f64], a: usize, w: usize) -> f64
    requires { a + 15 ≤ length row.now }
{
    if w <= 64 {
        return seen;
    }
    seen + read_both(row, a + 5, a + 14)
}

// A number that is 0 is written once more where what was read is a NaN. Were nothing done with what was read, the compiler would leave
// out the reads.
fn keep_reads(row: &mut [f64], seen: f64)
    requires { (6 < length row.old) × (get_or row.old 6 nan ≡ nought) }
    ensures { row.new ≡ row.old }
{
    if seen == seen {
        return;
    }
    row[6] = 0.0;
}

// Pixel x more.
fn step_any(s: ShapeSums, target: &[f32], canvas: &[f32], x: usize) -> ShapeSums
    requires { (s.count + 1 < 2 ^ 32) × (x * 3 + 3 ≤ length target.now) × (x * 3 + 3 ≤ length canvas.now) }
    ensures { result ≡ plus s (pixel_at target.now canvas.now x) }
{
    let i = x * 3;
    s.push(
        target[i],
        target[i + 1],
        target[i + 2],
        canvas[i],
        canvas[i + 1],
        canvas[i + 2],
    )
}

fn step_numbers(s: ShapeSums, target: &[f32], canvas: &[f32], x: usize) -> ShapeSums
    requires count_bound { (s.count + 1 < 2 ^ 32) × (x * 3 + 3 ≤ length target.now) × (x * 3 + 3 ≤ length canvas.now) }
    requires t { T (all_numbers target.now) × T (all_numbers canvas.now) }
    ensures { result ≡ plus s (pixel_at target.now canvas.now x) }
{
    let i = x * 3;
    s.push_wide(
        float::widen_number(target[i]),
        float::widen_number(target[i + 1]),
        float::widen_number(target[i + 2]),
        float::widen_number(canvas[i]),
        float::widen_number(canvas[i + 1]),
        float::widen_number(canvas[i + 2]),
    )
}

// A place's numbers, in the table's order.
fn put(place: &mut [f64], s: ShapeSums, whole: bool)
    requires { length place.old ≡ 15 }
    ensures { place.new ≡ cond whole (target_six s) (take 6 place.old) ++ canvas_nine s }
{
    let t = s.s_t;
    let t2 = s.s_t2;
    let c = s.s_c;
    let c2 = s.s_c2;
    let tc = s.s_tc;
    if whole {
        put_three(place, 0, t);
        put_three(place, 3, t2);
    }
    put_three(place, 6, c);
    put_three(place, 9, c2);
    put_three(place, 12, tc);
}

// A sum's three channels.
fn put_three(place: &mut [f64], at: usize, sum: [f64; 3])
    requires { at + 3 ≤ length place.old }
    ensures { place.new ≡ sets place.old at (all3 sum) }
{
    place[at] = sum[0];
    place[at + 1] = sum[1];
    place[at + 2] = sum[2];
}
