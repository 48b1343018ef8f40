// The rows of a picture that a shape can reach, as a run of rows that a loop goes through.
ghost use Rattle.std.specs.Prelude.{◌≡◌, false, ◌≤◌};
ghost use Rattle.refusal.specs.Refusals.{Sized};
ghost use Rattle.cover.specs.Cover.{bad_places};
ghost use Rattle.cover.specs.ReachRows.{rows_of, turned, beside, ReachRowsSays};

use crate::{Kind, row_reach};

// top <= y < bottom
#[derive(Clone, Copy)]
pub struct Rows {
    pub top: usize,
    pub bottom: usize,
}

// The row reach; an empty one has no row.
pub(crate) fn rows_of(kind: Kind, h: usize) -> Rows
    requires rows { h ≤ 256 }
    requires places { bad_places kind ≡ false }
    ensures { result ≡ rows_of kind h }
{
    let reach = row_reach(kind, h);
    let first = reach.first;
    let last = reach.last;
    let top = first as usize;
    if first <= last {
        return Rows {
            top: top,
            bottom: last as usize + 1,
        };
    }
    Rows {
        top: top,
        bottom: top,
    }
}

// Rows and columns changed for each other, so that the row reach tells of columns too.
pub(crate) fn turned(kind: Kind) -> Kind
    ensures { result ≡ turned kind }
{
    match kind {
        Kind::Circle(cx, cy, r) => Kind::Circle(cy, cx, r),
        Kind::Triangle(x0, y0, x1, y1, x2, y2) => Kind::Triangle(y0, x0, y1, x1, y2, x2),
        Kind::Quad(x0, y0, x1, y1, x2, y2, x3, y3) => Kind::Quad(y0, x0, y1, x1, y2, x2, y3, x3),
    }
}

// The shape lies left or right of a picture of w columns, whatever its rows.
fn beside(kind: Kind, w: usize) -> bool
    requires columns { w ≤ 256 }
    requires places { bad_places kind ≡ false }
    ensures { result ≡ beside kind w }
{
    let columns = row_reach(turned(kind), w);
    columns.last < columns.first
}

// The rows that may have a covered pixel.
pub fn reach_rows(kind: Kind, w: usize, h: usize) -> Rows
    requires sizes { Sized w h }
    requires places { bad_places kind ≡ false }
    ensures { ReachRowsSays kind w h result }
{
    if beside(kind, w) {
        return Rows { top: 0, bottom: 0 };
    }
    rows_of(kind, h)
}
