// The runs of a polygon's rows: document 01's triangles and quads. The rule is one over the number of corners; the code has four.
// A row is the intersection of its edges' half planes, as in integral.rs, and is written once.
#![tactic(auto)]

ghost use Rattle.std.specs.Prelude.{◌≡◌, ◌<◌, ◌≤◌, ◌+◌, ◌*◌, ◌-ℤ◌, set};
ghost use Rattle.laws.specs.Blank.{Blank};
ghost use Rattle.refusal.specs.Refusals.{Sized};
ghost use Rattle.polygon.specs.Polygon.{at, side, InRange, ExtentOfSays};
ghost use Rattle.polygon.specs.OneRow.{four, Done, FillQuadSays};
ghost use Rattle.polygon.specs.Steps.{Signed, RowRun, Placed, sign_of, Edges, Room, Rows, Closed};

mod edges;

use edges::{Edge, Run, cut_row, edge_of};

// The least and the greatest of a list, as the first and the last row of its corners.
#[derive(Clone, Copy)]
pub struct Extent {
    pub least: i32,
    pub greatest: i32,
}

// Widened first, so it cannot wrap.
fn diff(a: i32, b: i32) -> i64
    ensures { result ≡ a -ℤ b }
{
    a as i64 - b as i64
}

// Above 0 on one side of the edge from i to j, below 0 on the other, 0 on its line.
fn side(xi: i32, yi: i32, xj: i32, yj: i32, x: i32, y: i32) -> i64
    requires from { Placed (at xi yi) }
    requires to { Placed (at xj yj) }
    requires point { Placed (at x y) }
    ensures { result ≡ side (at xi yi) (at xj yj) (at x y) }
{
    diff(xj, xi) * diff(y, yi) - diff(yj, yi) * diff(x, xi)
}

// What turns an edge's side so that it is not negative on the inner side.
fn sign_of(area: i64) -> i32
    ensures { result ≡ sign_of area }
{
    if area > 0 {
        return 1;
    }
    -1
}

// Of no number, 0 and 0.
pub fn extent_of(zs: &[i32]) -> Extent
    ensures { ExtentOfSays zs.now result.least result.greatest }
{
    let Some((&first, rest)) = zs.split_first() else {
        return Extent {
            least: 0,
            greatest: 0,
        };
    };
    let mut least = first;
    let mut greatest = first;
    for &z in rest {
        least = least.min(z);
        greatest = greatest.max(z);
    }
    Extent { least, greatest }
}

// Writes row y's run, two places a row.
fn put_row(y: usize, left: u32, right: u32, out: &mut [u16; 512])
    requires row { y < 256 }
    requires ends { (left < 65536) × (right < 65536) }
    ensures { out.new ≡ set (set out.old (y * 2) left) (y * 2 + 1) right }
{
    let place = y * 2;
    out[place] = left as u16;
    out[place + 1] = right as u16;
}

// A row of which no column is left is 0, 0.
fn closed(left: u32, right: u32) -> Run
    ensures { Closed left right result.left result.right }
{
    if right <= left {
        return Run { left: 0, right: 0 };
    }
    Run { left, right }
}

// The run of a row. The edge that a triangle has not stands last, and the test for it is the same in every row.
fn quad_row(
    x0: i32,
    y0: i32,
    x1: i32,
    y1: i32,
    x2: i32,
    y2: i32,
    x3: i32,
    y3: i32,
    sign: i32,
    e0: Edge,
    e1: Edge,
    e2: Edge,
    e3: Edge,
    w: usize,
    y: usize,
) -> Run
    requires sign { Signed (four x0 x1 x2 x3) (four y0 y1 y2 y3) sign }
    requires edges { Edges x0 y0 x1 y1 x2 y2 x3 y3 sign e0 e1 e2 e3 }
    requires columns { w ≤ 256 }
    requires row { y < 256 }
    ensures { RowRun (four x0 x1 x2 x3) (four y0 y1 y2 y3) w y result.left result.right × (result.left ≤ w) × (result.right ≤ w) }
{
    let a = cut_row(x0, y0, x1, y1, sign, e0, y, 0, w as u32);
    let b = cut_row(x1, y1, x2, y2, sign, e1, y, a.left, a.right);
    let c = cut_row(x3, y3, x0, y0, sign, e3, y, b.left, b.right);
    if (x2 == x3) & (y2 == y3) {
        return closed(c.left, c.right);
    }
    let d = cut_row(x2, y2, x3, y3, sign, e2, y, c.left, c.right);
    closed(d.left, d.right)
}

fn quad_rows(
    x0: i32,
    y0: i32,
    x1: i32,
    y1: i32,
    x2: i32,
    y2: i32,
    x3: i32,
    y3: i32,
    sign: i32,
    e0: Edge,
    e1: Edge,
    e2: Edge,
    e3: Edge,
    w: usize,
    first: usize,
    past: usize,
    out: &mut [u16; 512],
)
    requires sign { Signed (four x0 x1 x2 x3) (four y0 y1 y2 y3) sign }
    requires edges { Edges x0 y0 x1 y1 x2 y2 x3 y3 sign e0 e1 e2 e3 }
    requires columns { w ≤ 256 }
    requires rows { past ≤ 256 }
    requires places { Room out.old }
    ensures { Rows (Done (four x0 x1 x2 x3) (four y0 y1 y2 y3) w) first past out.old out.new }
{
    for y in first..past {
        let run = quad_row(x0, y0, x1, y1, x2, y2, x3, y3, sign, e0, e1, e2, e3, w, y);
        put_row(y, run.left, run.right, out);
    }
}

// Writes the runs of the rows that four corners reach; the others have no column, and stay 0, 0. A triangle has its last corner twice:
// from a corner to itself there is no edge.
pub fn fill_quad(
    x0: i32,
    y0: i32,
    x1: i32,
    y1: i32,
    x2: i32,
    y2: i32,
    x3: i32,
    y3: i32,
    w: usize,
    h: usize,
    out: &mut [u16; 512],
)
    requires corners { InRange (four x0 x1 x2 x3) (four y0 y1 y2 y3) }
    requires size { Sized w h }
    requires blank { Blank out.old }
    ensures { FillQuadSays x0 y0 x1 y1 x2 y2 x3 y3 w h out.new }
{
    let turn = side(x0, y0, x1, y1, x2, y2);
    if turn == 0 {
        return;
    }
    let rows = extent_of(&[y0, y1, y2, y3]);
    let first = whole::clamp_i64(rows.least as i64, h);
    let past = whole::clamp_i64(rows.greatest as i64 + 1, h);
    let sign = sign_of(turn);
    let e0 = edge_of(x0, y0, x1, y1, sign);
    let e1 = edge_of(x1, y1, x2, y2, sign);
    let e2 = edge_of(x2, y2, x3, y3, sign);
    let e3 = edge_of(x3, y3, x0, y0, sign);
    quad_rows(
        x0, y0, x1, y1, x2, y2, x3, y3, sign, e0, e1, e2, e3, w, first, past, out,
    );
}
