// The export of the paint call.
ghost use Rattle.capi.specs.Painting.{SillbadgerPaintSays};

use picture::Colour;

// Blends a shape into the canvas, then updates the table over the shape's rows.
#[unsafe(no_mangle)]
pub extern "C" fn sillbadger_paint(
    w: u32,
    h: u32,
    shape: &[i32],
    opacity: f32,
    red: f32,
    green: f32,
    blue: f32,
    target: &[f32],
    canvas: &mut [f32],
    table: &mut [f64],
) -> u8
    ensures { SillbadgerPaintSays w h shape.now opacity red green blue target.now canvas.old table.old result canvas.new table.new }
{
    let o = crossing::outline(shape);
    match o {
        Some(kind) => {
            let answer = paint::paint(
                kind,
                opacity,
                Colour { red, green, blue },
                w as usize,
                h as usize,
                target,
                canvas,
                table,
            );
            refusal::number_of(answer)
        }
        None => crate::no_shape(w, h).number(),
    }
}
