// A table of the shapes of a list, by which rows of pictures are drawn. There is room for the shapes of a list and a candidate after them.
#![tactic(auto)]

ghost use Rattle.std.specs.Prelude.{◌≡◌, List, [], ◌∷◌, ℕ, ◌+◌, ◌*◌, ◌<◌, ◌≤◌, T, length, get_or};
ghost use Rattle.std.specs.Float.{nan};
ghost use Rattle.float.specs.Within.{all_within};
ghost use Rattle.refusal.specs.Refusals.{Sized};
ghost use Rattle.picture.specs.Strokes.{brushed_part};
ghost use Rattle.shapes.specs.declared.Shape.{Shape};
ghost use Rattle.shapes.specs.Blank.{blank};
ghost use Rattle.shapes.specs.Ranges.{fits};
ghost use Rattle.traces.specs.Traces.{Drawable, ColumnPut, brush_at, Traced, Tabled, RowPainted, TraceSays, TraceListSays, DropColumnSays, PaintRowSays, PaintAllSays};

use brush::Brush;
use shapes::{Shape, Shapes};

// The runs of shape i stand in column i, row y at y * 130, left and right; its brush stands at i * 4.
#[derive(Drop)]
pub struct Strokes {
    pub runs: [u16; 33280],
    pub paints: [f32; 260],
}

// ---- the table

fn put_column(h: usize, i: usize, column: &[u16; 512], runs: &mut [u16; 33280])
    requires { (h ≤ 256) × (i < 65) × (length runs.old ≡ 33280) }
    ensures { ColumnPut h i column.now runs.old runs.new }
{
    for y in 0..h {
        runs[y * 130 + i * 2] = column[y * 2];
        runs[y * 130 + i * 2 + 1] = column[y * 2 + 1];
    }
}

fn put_brush(brush: Brush, i: usize, paints: &mut [f32; 260])
    requires { (i < 65) × (length paints.old ≡ 260) }
    ensures { (length paints.new ≡ 260) × (brush_at paints.new i ≡ brush) × ((k : ℕ) → k < 65 → (k ≡ i → ⊥) → brush_at paints.new k ≡ brush_at paints.old k) }
{
    let place = i * 4;
    paints[place] = brush.keep;
    paints[place + 1] = brush.red;
    paints[place + 2] = brush.green;
    paints[place + 3] = brush.blue;
}

impl Strokes {
    // A shape is put in at i.
    pub fn trace(&mut self, w: usize, h: usize, s: Shape, i: usize)
        requires { Sized w h × T (fits s) × (i < 65) × (length self.old.runs ≡ 33280) × (length self.old.paints ≡ 260) }
        ensures { TraceSays w h s i self.old.runs self.old.paints self.new.runs self.new.paints }
    {
        let kind = s.kind;
        let mut column = [0u16; 512];
        cover::runs(kind, w, h, &mut column);
        put_column(h, i, &column, &mut self.runs);
        let brush = brush::brush_of(s.opacity, s.red, s.green, s.blue);
        put_brush(brush, i, &mut self.paints);
    }

    // And all shapes of a list.
    pub fn trace_list(&mut self, w: usize, h: usize, list: Shapes)
        requires { Drawable w h list × (length self.old.runs ≡ 33280) × (length self.old.paints ≡ 260) }
        ensures { TraceListSays w h list self.new.runs self.new.paints }
    {
        for i in 0..list.count {
            self.trace(w, h, list.items[i], i);
        }
    }

    // Shape j leaves, and those after it, up to n, move up.
    pub fn drop_column(&mut self, h: usize, j: usize, n: usize)
        requires { (h ≤ 256) × (j ≤ n) × (n < 65) × (length self.old.runs ≡ 33280) × (length self.old.paints ≡ 260) }
        ensures { DropColumnSays h j n self.old.runs self.old.paints self.new.runs self.new.paints }
    {
        self.paints.copy_within((j + 1) * 4..(n + 1) * 4, j * 4);
        for y in 0..h {
            let row = y * 130;
            self.runs
                .copy_within(row + (j + 1) * 2..row + (n + 1) * 2, row + j * 2);
        }
    }

    // ---- drawing

    // Pixels left up to right of the row that begins with pixel `start`.
    fn stroke(&self, i: usize, left: usize, right: usize, start: usize, canvas: &mut [f32])
        requires { (i < 65) × (left ≤ right) × ((start + right) * 3 ≤ length canvas.old) }
        ensures { canvas.new ≡ brushed_part (brush_at self.now.paints i) ((start + left) * 3) ((start + right) * 3) canvas.old }
    {
        let place = i * 4;
        let brush = Brush {
            keep: self.paints[place],
            red: self.paints[place + 1],
            green: self.paints[place + 2],
            blue: self.paints[place + 3],
        };
        let a = (start + left) * 3;
        let e = (start + right) * 3;
        brush::blend_run(brush, right - left, &mut canvas[a..e]);
    }

    // Shape i is painted on row y. Most shapes do not reach it.
    fn paint_one(&self, w: usize, h: usize, y: usize, i: usize, canvas: &mut [f32])
        requires { Tabled w h (i + 1) self.now.runs self.now.paints × (y < h) × (length canvas.old ≡ h * w * 3) × T (all_within canvas.old) }
        ensures { T (all_within canvas.new) × ((l : List Shape) → Traced w h l self.now.runs self.now.paints → i < length l → RowPainted w h y (get_or l i blank ∷ []) canvas.old canvas.new) }
    {
        let left = self.runs[y * 130 + i * 2] as usize;
        let right = self.runs[y * 130 + i * 2 + 1] as usize;
        if left < right {
            self.stroke(i, left, right, y * w, canvas);
        }
    }

    // The shapes from `from` up to `to` are painted on row y, in their order; the other rows are left as they are.
    pub fn paint_row(
        &self,
        w: usize,
        h: usize,
        y: usize,
        from: usize,
        to: usize,
        canvas: &mut [f32],
    )
        requires { Tabled w h to self.now.runs self.now.paints × (y < h) × (from ≤ to) × (length canvas.old ≡ h * w * 3) × T (all_within canvas.old) }
        ensures { PaintRowSays w h y from to self.now.runs self.now.paints canvas.old canvas.new }
    {
        for i in from..to {
            self.paint_one(w, h, y, i, canvas);
        }
    }

    // And on all rows.
    pub fn paint_all(&self, w: usize, h: usize, from: usize, to: usize, canvas: &mut [f32])
        requires { Tabled w h to self.now.runs self.now.paints × (from ≤ to) × (length canvas.old ≡ h * w * 3) × T (all_within canvas.old) }
        ensures { PaintAllSays w h from to self.now.runs self.now.paints canvas.old canvas.new }
    {
        for y in 0..h {
            self.paint_row(w, h, y, from, to, canvas);
        }
    }
}
