// The paint call: a shape is blended into the picture, then the table is updated over the shape's row reach.
#![tactic(auto)]

ghost use Rattle.std.specs.Prelude.{◌≡◌, false, true, ◌*◌, length};
ghost use Rattle.refusal.specs.Refusals.{Sized};
ghost use Rattle.refusal.specs.Outcomes.{number_of};
ghost use Rattle.cover.specs.Cover.{bad_places, RowReachSays};
ghost use Rattle.picture.specs.Painting.{BlendSays};
ghost use Rattle.table.specs.Table.{lengths_refusal};
ghost use Rattle.paint.specs.Paint.{paint_refusal, Painted, PaintSays};

use cover::{Kind, Reach};
use picture::Colour;
use refusal::Refusal;

// Refusals: size, a length, place, opacity, colour; then no number of `canvas` or `table` has changed. A usual call is tested in one
// go, and where the shape reaches no row it does nothing else.
pub fn paint(
    kind: Kind,
    opacity: f32,
    colour: Colour,
    w: usize,
    h: usize,
    target: &[f32],
    canvas: &mut [f32],
    table: &mut [f64],
) -> Result<(), Refusal>
    ensures { PaintSays kind opacity colour.red colour.green colour.blue w h target.now canvas.old table.old (number_of result) canvas.new table.new }
{
    if usual(
        kind,
        opacity,
        colour,
        w,
        h,
        target.len(),
        canvas.len(),
        table.len(),
    ) {
        let reach = cover::row_reach(kind, h);
        let first = reach.first;
        let last = reach.last;
        // an end above the picture redoes every row
        if (last < first) & (0 <= last) {
            return Ok(());
        }
        let same = anew(kind);
        paint_both(same, opacity, colour, w, h, target, canvas, table);
        return Ok(());
    }
    let same = anew(kind);
    tested_paint(same, opacity, colour, w, h, target, canvas, table)
}

// The same shape, made anew: what is handed on goes through memory, and so a call that hands nothing on does not.
// Kept: a plain copy is the block in memory: the bar of speed.
fn anew(kind: Kind) -> Kind
    ensures { result ≡ kind }
{
    match kind {
        Kind::Circle(cx, cy, r) => Kind::Circle(cx, cy, r),
        Kind::Triangle(x0, y0, x1, y1, x2, y2) => Kind::Triangle(x0, y0, x1, y1, x2, y2),
        Kind::Quad(x0, y0, x1, y1, x2, y2, x3, y3) => Kind::Quad(x0, y0, x1, y1, x2, y2, x3, y3),
    }
}

// Every test passes, in one go from the places on. Which one fails is left to the tests in order.
fn usual(
    kind: Kind,
    opacity: f32,
    colour: Colour,
    w: usize,
    h: usize,
    target: usize,
    canvas: usize,
    table: usize,
) -> bool
    ensures { result ≡ true → paint_refusal kind opacity colour.red colour.green colour.blue w h target canvas table ≡ 0 }
{
    if table::lengths_tested(w, h, target, canvas, table).is_err() {
        return false;
    }
    float::within(opacity) & !picture::bad_colour(colour) & !cover::bad_places(kind)
}

// The same with the tests in order.
fn tested_paint(
    kind: Kind,
    opacity: f32,
    colour: Colour,
    w: usize,
    h: usize,
    target: &[f32],
    canvas: &mut [f32],
    table: &mut [f64],
) -> Result<(), Refusal>
    ensures { PaintSays kind opacity colour.red colour.green colour.blue w h target.now canvas.old table.old (number_of result) canvas.new table.new }
{
    tested(
        kind,
        opacity,
        colour,
        w,
        h,
        target.len(),
        canvas.len(),
        table.len(),
    )?;
    paint_both(kind, opacity, colour, w, h, target, canvas, table);
    Ok(())
}

// Every test, in the order of the numbers.
fn tested(
    kind: Kind,
    opacity: f32,
    colour: Colour,
    w: usize,
    h: usize,
    target: usize,
    canvas: usize,
    table: usize,
) -> Result<(), Refusal>
    ensures { number_of result ≡ paint_refusal kind opacity colour.red colour.green colour.blue w h target canvas table }
{
    table::lengths_tested(w, h, target, canvas, table)?;
    if cover::bad_places(kind) {
        return Err(Refusal::Place);
    }
    if !float::within(opacity) {
        return Err(Refusal::Opacity);
    }
    if picture::bad_colour(colour) {
        return Err(Refusal::Colour);
    }
    Ok(())
}

// The picture, then the table. The reach's own ends are handed on, so an end above the picture redoes every row.
fn paint_both(
    kind: Kind,
    opacity: f32,
    colour: Colour,
    w: usize,
    h: usize,
    target: &[f32],
    canvas: &mut [f32],
    table: &mut [f64],
)
    requires sizes { lengths_refusal w h (length target.now) (length canvas.old) (length table.old) ≡ 0 }
    requires places { bad_places kind ≡ false }
    ensures { Painted kind opacity colour.red colour.green colour.blue w h target.now canvas.old table.old canvas.new table.new }
{
    let reach = cover::row_reach(kind, h);
    blend_reached(kind, opacity, colour, w, h, reach, canvas);
    let _ = table::update_canvas_rows(target, canvas, w, h, table, reach.first, reach.last);
}

// A shape that reaches no row has no pixel: then not even its runs are worked out.
fn blend_reached(
    kind: Kind,
    opacity: f32,
    colour: Colour,
    w: usize,
    h: usize,
    reach: Reach,
    canvas: &mut [f32],
)
    requires sizes { Sized w h }
    requires places { bad_places kind ≡ false }
    requires picture { length canvas.old ≡ h * w * 3 }
    requires rows { RowReachSays kind h reach }
    ensures { BlendSays kind opacity colour.red colour.green colour.blue w h canvas.old canvas.new }
{
    let first = reach.first;
    let last = reach.last;
    if first <= last {
        picture::blend(kind, opacity, colour, w, h, canvas);
    }
}
