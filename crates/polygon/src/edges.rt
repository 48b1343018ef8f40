// An edge of a polygon: what the rows need to know of it, and what it leaves of a row.
ghost use Rattle.std.specs.Prelude.{◌≡◌, cond, ◌<◌, ◌≤◌, pos, ◌-ℤ◌};
ghost use Rattle.std.specs.Int.Signed.{lt_z};
ghost use Rattle.laws.specs.Bound.{Bounded};
ghost use Rattle.whole.specs.Whole.{ClampI64Says};
ghost use Rattle.polygon.specs.Polygon.{at};
ghost use Rattle.polygon.specs.Steps.{Placed, Kept, Inner, HalfPlane, Level, InnerOf, digits_of, turn_of, Cuts};

// The columns from left up to right, without right. Numbers of 32 bits, here and in an edge: the compiler works out four rows at a time.
#[derive(Clone, Copy)]
pub(crate) struct Run {
    pub(crate) left: u32,
    pub(crate) right: u32,
}

// What the rows need to know of an edge. In row y its number is start + step * y, and that number divided by the edge's height, rounded
// down, is the column where the inner side begins, or the one past its end. A product with `times`, less its last `digits`, stands for the
// division, up to the number `most`, whose quotient is past all columns.
#[derive(Clone, Copy)]
pub(crate) struct Edge {
    start: i32,
    step: i32,
    times: u32,
    most: u32,
    digits: u32,
    begins: bool,
}

// t, brought into 0..most. The first test is written out: with `t.max(0)` a quad on 256 by 256 took 1025 ns, and takes 961.
// Kept beside `clamp_i64`: the new form is no plainer: the numbers have 32 bits here, so that four rows are worked out at a time.
fn brought(t: i32, most: u32) -> u32
    ensures { ClampI64Says t most result }
{
    if t < 0 {
        return 0;
    }
    (t as u32).min(most)
}

// By the height, so that `times` has 32 digits at most and the quotient is exact.
fn digits_of(height: u32) -> u32
    ensures { result ≡ digits_of height }
{
    if height < 64 {
        return 31;
    }
    37
}

// The edge's number in row 0.
fn start_of(a: i32, c: i32) -> i32
    requires { Bounded 16382 a × Bounded 300000000 c }
    ensures { result ≡ cond (lt_z (pos 0) a) (a -ℤ pos 1 -ℤ c) (c -ℤ a) }
{
    let g = a - c;
    if 0 < a {
        return g - 1;
    }
    0 - g
}

// What it grows by from row to row.
fn step_of(a: i32, s: i32) -> i32
    requires { Bounded 16382 s }
    ensures { result ≡ cond (lt_z (pos 0) a) (pos 0 -ℤ s) s }
{
    if 0 < a {
        return 0 - s;
    }
    s
}

// The columns of row y at which a * x + (c + s * y) is not negative: where a is positive those from a column on, where it is negative
// those up to one. The one division of an edge is here.
fn sloped_edge(a: i32, c: i32, s: i32) -> Edge
    requires some { a ≡ pos 0 → ⊥ }
    requires slope { Bounded 16382 a }
    requires offset { Bounded 300000000 c }
    requires fall { Bounded 16382 s }
    ensures { Cuts (HalfPlane a c s) result }
{
    let height = whole::abs_i32(a);
    let digits = digits_of(height);
    let power: u64 = 1 << digits;
    let times = (power / height as u64 + 1) as u32;
    let most = height * 257;
    let start = start_of(a, c);
    let step = step_of(a, s);
    Edge {
        start,
        step,
        times,
        most,
        digits,
        begins: 0 < a,
    }
}

fn turn_of(s: i32) -> i32
    ensures { result ≡ turn_of s }
{
    i32::signum(s)
}

// An edge along row yi keeps the rows on one side of it, all columns or none: a height of 1, and numbers of which 257 are a row.
fn level_edge(s: i32, yi: i32) -> Edge
    requires { Bounded 8191 yi }
    ensures { Cuts (Level s yi) result }
{
    let turn = turn_of(s);
    let start = (1 - turn * yi) * 257;
    let step = turn * 257;
    Edge {
        start,
        step,
        times: 2147483649,
        most: 257,
        digits: 31,
        begins: false,
    }
}

// The edge from i to j, its inner side by the sign.
pub(crate) fn edge_of(xi: i32, yi: i32, xj: i32, yj: i32, sign: i32) -> Edge
    requires from { Placed (at xi yi) }
    requires to { Placed (at xj yj) }
    requires sign { Bounded 1 sign }
    ensures { Cuts (InnerOf sign (at xi yi) (at xj yj)) result }
{
    let slope = sign * (yi - yj);
    let fall = sign * (xj - xi);
    if slope == 0 {
        return level_edge(fall, yi);
    }
    let base = (yj - yi) * xi - (xj - xi) * yi;
    sloped_edge(slope, sign * base, fall)
}

// Of the columns lo up to hi of row y, those on the inner side of the edge from i to j. The corners are there for the contract alone.
pub(crate) fn cut_row(
    xi: i32,
    yi: i32,
    xj: i32,
    yj: i32,
    sign: i32,
    e: Edge,
    y: usize,
    lo: u32,
    hi: u32,
) -> Run
    requires edge { Cuts (InnerOf sign (at xi yi) (at xj yj)) e }
    requires row { y < 256 }
    requires columns { hi ≤ 256 }
    ensures { Kept (Inner sign (at xi yi) (at xj yj) (pos y)) lo hi result.left result.right }
{
    let reached = e.start + e.step * y as i32;
    let number = brought(reached, e.most);
    let column = ((number as u64 * e.times as u64) >> e.digits) as u32;
    if e.begins {
        return Run {
            left: lo.max(column),
            right: hi,
        };
    }
    Run {
        left: lo,
        right: column.min(hi),
    }
}
