// The covered pixels of a tiny shape as the bits of one number: eight rows of eight pixels.
ghost use Rattle.std.specs.Prelude.{◌≡◌, true, false, ◌≤◌, pos, ◌+ℤ◌, ◌-ℤ◌, ◌<ℤ◌};
ghost use Rattle.laws.specs.Bound.{Bounded};
ghost use Rattle.refusal.specs.Refusals.{Sized};
ghost use Rattle.cover.specs.declared.Kind.TheVariants.{Circle, Triangle, Quad};
ghost use Rattle.cover.specs.Cover.{bad_places};
ghost use Rattle.cover.specs.Stamps.{Stamped, StampSays, FirstColumnSays, Among, Framed};

use crate::Kind;
use crate::reached::{rows_of, turned};

// The first of the columns that a shape can reach.
pub fn first_column(kind: Kind, w: usize) -> usize
    requires columns { w ≤ 256 }
    requires places { bad_places kind ≡ false }
    ensures { FirstColumnSays kind w result }
{
    let columns = rows_of(turned(kind), w);
    columns.top
}

// Rows first to last lie among eight from `from` on, and among n.
fn among(first: i32, last: i32, from: usize, n: usize) -> bool
    requires rows { Bounded 16382 first × Bounded 16382 last }
    requires places { (from ≤ 255) × (n ≤ 256) }
    ensures { result ≡ true → Among first last from n }
{
    let low = from as i32;
    (low <= first) & (last - low <= 7) & (last < n as i32)
}

// A circle's rows or columns begin at `from`, and end before n.
fn begins(c: i32, r: i32, from: usize, n: usize) -> bool
    requires circle { Bounded 8191 c × Bounded 8191 r }
    requires places { (from ≤ 255) × (n ≤ 256) }
    ensures { result ≡ true → (c -ℤ r ≡ pos from) × ((c +ℤ r) <ℤ pos n) }
{
    let low = c - r;
    (low <= from as i32) & (from as i32 <= low) & (c + r < n as i32)
}

// A circle of radius 1, 2 or 3 that lies in the picture. Its first column and row are those of the stamp.
pub fn circle_stamp(
    cx: i32,
    cy: i32,
    r: i32,
    left: usize,
    top: usize,
    w: usize,
    h: usize,
) -> Option<u64>
    requires sizes { Sized w h }
    requires places { bad_places (Circle cx cy r) ≡ false }
    requires window { (left ≤ 255) × (top ≤ 255) }
    ensures { StampSays (Circle cx cy r) left top w h result }
{
    if (1 <= r) & (r <= 3) & begins(cx, r, left, w) & begins(cy, r, top, h) {
        return Some(stamp::circle_stamp(r));
    }
    None
}

// Four corners lie in the picture, among eight columns and eight rows.
fn framed(
    x0: i32,
    y0: i32,
    x1: i32,
    y1: i32,
    x2: i32,
    y2: i32,
    x3: i32,
    y3: i32,
    left: usize,
    top: usize,
    w: usize,
    h: usize,
) -> bool
    requires corners { Bounded 8191 x0 × Bounded 8191 y0 × Bounded 8191 x1 × Bounded 8191 y1 × Bounded 8191 x2 × Bounded 8191 y2 × Bounded 8191 x3 × Bounded 8191 y3 }
    requires window { (left ≤ 255) × (top ≤ 255) × (w ≤ 256) × (h ≤ 256) }
    ensures { result ≡ true → Framed x0 y0 x1 y1 x2 y2 x3 y3 left top w h }
{
    let xs = [x0, x1, x2, x3];
    let ys = [y0, y1, y2, y3];
    let columns = polygon::extent_of(&xs);
    let rows = polygon::extent_of(&ys);
    among(columns.least, columns.greatest, left, w) & among(rows.least, rows.greatest, top, h)
}

// The stamp of such corners. It has two callers, so that the compiler keeps it apart and writes out the tests before it in the calls, which
// know the ends of the corners already.
fn framed_stamp(
    x0: i32,
    y0: i32,
    x1: i32,
    y1: i32,
    x2: i32,
    y2: i32,
    x3: i32,
    y3: i32,
    left: usize,
    top: usize,
    w: usize,
    h: usize,
) -> u64
    requires corners { Bounded 8191 x0 × Bounded 8191 y0 × Bounded 8191 x1 × Bounded 8191 y1 × Bounded 8191 x2 × Bounded 8191 y2 × Bounded 8191 x3 × Bounded 8191 y3 }
    requires window { (left ≤ 255) × (top ≤ 255) }
    requires places { Framed x0 y0 x1 y1 x2 y2 x3 y3 left top w h }
    ensures { Stamped (Quad x0 y0 x1 y1 x2 y2 x3 y3) left top w h result }
{
    let x = left as i32;
    let y = top as i32;
    stamp::polygon_stamp(
        x0 - x,
        y0 - y,
        x1 - x,
        y1 - y,
        x2 - x,
        y2 - y,
        x3 - x,
        y3 - y,
    )
}

// A triangle that lies in the picture: from a corner to itself there is no edge.
pub fn triangle_stamp(
    x0: i32,
    y0: i32,
    x1: i32,
    y1: i32,
    x2: i32,
    y2: i32,
    left: usize,
    top: usize,
    w: usize,
    h: usize,
) -> Option<u64>
    requires sizes { Sized w h }
    requires places { bad_places (Triangle x0 y0 x1 y1 x2 y2) ≡ false }
    requires window { (left ≤ 255) × (top ≤ 255) }
    ensures { StampSays (Triangle x0 y0 x1 y1 x2 y2) left top w h result }
{
    if framed(x0, y0, x1, y1, x2, y2, x2, y2, left, top, w, h) {
        return Some(framed_stamp(x0, y0, x1, y1, x2, y2, x2, y2, left, top, w, h));
    }
    None
}

// A quad that lies in the picture.
fn quad_stamp(
    x0: i32,
    y0: i32,
    x1: i32,
    y1: i32,
    x2: i32,
    y2: i32,
    x3: i32,
    y3: i32,
    left: usize,
    top: usize,
    w: usize,
    h: usize,
) -> Option<u64>
    requires sizes { Sized w h }
    requires places { bad_places (Quad x0 y0 x1 y1 x2 y2 x3 y3) ≡ false }
    requires window { (left ≤ 255) × (top ≤ 255) }
    ensures { StampSays (Quad x0 y0 x1 y1 x2 y2 x3 y3) left top w h result }
{
    if framed(x0, y0, x1, y1, x2, y2, x3, y3, left, top, w, h) {
        return Some(framed_stamp(x0, y0, x1, y1, x2, y2, x3, y3, left, top, w, h));
    }
    None
}

// The covered pixels of eight rows of eight, from column left and row top on, where such a stamp is known. Written out in its callers: where
// the kind is known, no branch asks for it.
#[inline(always)]
pub fn stamp_of(kind: Kind, left: usize, top: usize, w: usize, h: usize) -> Option<u64>
    requires sizes { Sized w h }
    requires places { bad_places kind ≡ false }
    requires window { (left ≤ 255) × (top ≤ 255) }
    ensures { StampSays kind left top w h result }
{
    match kind {
        Kind::Circle(cx, cy, r) => circle_stamp(cx, cy, r, left, top, w, h),
        Kind::Triangle(x0, y0, x1, y1, x2, y2) => {
            triangle_stamp(x0, y0, x1, y1, x2, y2, left, top, w, h)
        }
        Kind::Quad(x0, y0, x1, y1, x2, y2, x3, y3) => {
            quad_stamp(x0, y0, x1, y1, x2, y2, x3, y3, left, top, w, h)
        }
    }
}
