// Sums of a shape from a table of prefix sums: two places for each row that it covers.
ghost use Rattle.std.specs.Prelude.{◌≡◌, false, ◌+◌, ◌-◌, ◌*◌, ◌≤◌, ◌<◌, ◌^◌, length};
ghost use Rattle.refusal.specs.Refusals.{Sized};
ghost use Rattle.cover.specs.Cover.{bad_places};
ghost use Rattle.gather.specs.RunSums.{run_added, runs_added, RunsFit, Reached};
ghost use Rattle.gather.specs.StampSums.{stamp_row, RowIn, RowsIn, AddStampSays};
ghost use Rattle.gather.specs.Gathered.{SpanSumsSays};

use cover::Kind;
use sums::ShapeSums;

// A row's run, if it has a pixel.
fn add_row(table: &[f64], w: usize, y: usize, left: usize, right: usize, s: ShapeSums) -> ShapeSums
    requires { (w ≤ 256) × (left ≤ right) × (right ≤ w) × (y * ((w + 1) * 15) + (w + 1) * 15 ≤ length table.now) × (s.count + (right - left) < 2 ^ 32) }
    ensures { result ≡ run_added w table.now y left right s }
{
    if left < right {
        return table::add_span(table, w, y, left, right, s);
    }
    s
}

// The runs of rows top to bottom, from the top row down. It is kept apart: it takes no shape, and what is around it is written out in the calls.
#[inline(never)]
fn add_rows(runs: &[u16; 512], top: usize, bottom: usize, table: &[f64], w: usize) -> ShapeSums
    requires sizes { (w ≤ 256) × (top ≤ bottom) × (bottom ≤ 256) × (bottom * ((w + 1) * 15) ≤ length table.now) }
    requires runs { RunsFit runs.now w top bottom }
    ensures { result ≡ runs_added w table.now runs.now top (bottom - top) }
{
    let mut s = ShapeSums::new();
    for y in top..bottom {
        let left = runs[y * 2] as usize;
        let right = runs[y * 2 + 1] as usize;
        s = add_row(table, w, y, left, right, s);
    }
    s
}

// The run of a stamp's row that has a pixel: eight bits, of which the lowest is column left.
fn add_stamp_row(
    row: u32,
    left: usize,
    y: usize,
    table: &[f64],
    w: usize,
    s: ShapeSums,
) -> ShapeSums
    requires row_nonzero { (0 < row) × (row < 256) × (left < 256) × (w ≤ 256) × (s.count ≤ 64) }
    requires row_in { RowIn w left y (length table.now) row }
    ensures { result ≡ stamp_row w table.now left y row s }
{
    let first = u32::trailing_zeros(row) as usize;
    let past = 32 - u32::leading_zeros(row) as usize;
    table::add_span(table, w, y, left + first, left + past, s)
}

// The runs of a stamp's rows, from the top row down. A row without a pixel is passed over here: were it left to the function above, the count
// would be kept in memory, since of the two answers one is what it was given.
pub fn add_stamp(bits: u64, left: usize, top: usize, table: &[f64], w: usize) -> ShapeSums
    requires window { (left < 256) × (top < 256) × (w ≤ 256) }
    requires rows { RowsIn w left top (length table.now) 8 bits }
    ensures { AddStampSays w table.now left top bits result }
{
    let mut s = ShapeSums::new();
    let mut b = bits;
    let mut y = top;
    // Kept: it ends where no bit is left; a `for` over rows would go on, or need a test and a `break`.
    while b != 0 {
        let row = (b % 256) as u32;
        if row != 0 {
            s = add_stamp_row(row, left, y, table, w, s);
        }
        b = b / 256;
        y += 1;
    }
    s
}

// The sums of a shape over the rows of its reach, which are some. Written out in the calls, so that no shape goes through memory.
#[inline(always)]
pub fn reached_sums(
    kind: Kind,
    top: usize,
    bottom: usize,
    w: usize,
    h: usize,
    table: &[f64],
) -> ShapeSums
    requires sizes { Sized w h }
    requires places { bad_places kind ≡ false }
    requires lent { length table.now ≡ h * (w + 1) * 15 }
    requires rows { Reached kind w h top bottom }
    ensures { SpanSumsSays kind w h table.now result }
{
    let mut runs = [0u16; 512];
    cover::runs(kind, w, h, &mut runs);
    add_rows(&runs, top, bottom, table, w)
}

// The sums of a shape whose sizes and places were tested.
pub fn span_sums(kind: Kind, w: usize, h: usize, table: &[f64]) -> ShapeSums
    requires sizes { Sized w h }
    requires places { bad_places kind ≡ false }
    requires lent { length table.now ≡ h * (w + 1) * 15 }
    ensures { SpanSumsSays kind w h table.now result }
{
    let rows = cover::reached::reach_rows(kind, w, h);
    if rows.bottom <= rows.top {
        return ShapeSums::new();
    }
    reached_sums(kind, rows.top, rows.bottom, w, h, table)
}
