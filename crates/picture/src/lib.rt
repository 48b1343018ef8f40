// Pictures: fill, mean, total, and shapes blended into them.
#![tactic(auto)]

ghost use Rattle.std.specs.Prelude.{◌≡◌, false, ◌||◌, [], ◌∷◌, ◌+◌, ◌*◌, ◌≤◌, length};
ghost use Rattle.laws.specs.Strokes.{RunsWithin};
ghost use Rattle.refusal.specs.Refusals.{Sized, lowest, size_if, length_if, bad_size};
ghost use Rattle.refusal.specs.Outcomes.{number_of, outcome};
ghost use Rattle.refusal.specs.Lengths.{bad_picture};
ghost use Rattle.cover.specs.Cover.{bad_places};
ghost use Rattle.picture.specs.declared.Colour.{Colour};
ghost use Rattle.picture.specs.Painting.{BlendSays};
ghost use Rattle.picture.specs.Strokes.{brushed_part, brushed_rows, pixel_colour, Coloured, pair_put, pixel_put, RowsWithin};
ghost use Rattle.picture.specs.Pixels.{BadColourSays, FillSays, FilledCanvasSays, MeanRgbSays, SseTotalSays, TotalAnySays};

use brush::Brush;
use cover::Kind;
use cover::reached::Rows;
use refusal::Refusal;

#[derive(Clone, Copy)]
pub struct Colour {
    pub red: f32,
    pub green: f32,
    pub blue: f32,
}

// A colour channel is not within 0..1.
pub fn bad_colour(colour: Colour) -> bool
    ensures { BadColourSays colour.red colour.green colour.blue result }
{
    !(float::within(colour.red) & float::within(colour.green) & float::within(colour.blue))
}

// Size, then length.
fn tested(w: usize, h: usize, n: usize) -> Result<(), Refusal>
    ensures { number_of result ≡ lowest (size_if (bad_size w h) ∷ length_if (bad_picture w h n) ∷ []) }
{
    if refusal::bad_size(w, h) {
        return Err(Refusal::Size);
    }
    if refusal::bad_picture(w, h, n) {
        return Err(Refusal::Length);
    }
    Ok(())
}

// ---- fill

// Every pixel gets the colour. Refusals: size, length, colour.
pub fn filled_canvas(w: usize, h: usize, colour: Colour, canvas: &mut [f32]) -> Result<(), Refusal>
    ensures { FilledCanvasSays w h colour.red colour.green colour.blue canvas.old (number_of result) canvas.new }
{
    tested(w, h, canvas.len())?;
    if bad_colour(colour) {
        return Err(Refusal::Colour);
    }
    fill(w, h, colour, canvas);
    Ok(())
}

// The same without the tests, for any colour bits: the first 16 pixels, then four at a time, then those that are left.
pub fn fill(w: usize, h: usize, colour: Colour, canvas: &mut [f32])
    requires { length canvas.old ≡ h * w * 3 }
    ensures { FillSays w h colour.red colour.green colour.blue canvas.new }
{
    let n = h * w;
    let begun = whole::min_usize(n, 16);
    put_each(0, begun, colour, canvas);
    if n <= 16 {
        return;
    }
    let fours = n / 4;
    put_fours(fours, canvas);
    put_each(fours * 4, n, colour, canvas);
}

// Pixels `from` up to `to`, one by one.
fn put_each(from: usize, to: usize, colour: Colour, canvas: &mut [f32])
    requires { to * 3 ≤ length canvas.old }
    ensures { Coloured colour from canvas.old → Coloured colour to canvas.new }
{
    for i in from..to {
        put(i, colour, canvas);
    }
}

// Pixels 16 up to `fours` * 4, after 16 of one colour. Their twelve numbers are read back from the first four, one after another as they
// stand, so that the compiler holds and stores them as vectors. Of `red`, `green` and `blue` themselves it makes a store for each
// number on x86-64.
fn put_fours(fours: usize, canvas: &mut [f32])
    requires { (4 ≤ fours) × (fours * 12 ≤ length canvas.old) }
    ensures { (c : Colour) → Coloured c 16 canvas.old → Coloured c (fours * 4) canvas.new }
{
    let a = colour_at(0, canvas);
    let b = colour_at(1, canvas);
    let c = colour_at(2, canvas);
    let d = colour_at(3, canvas);
    for i in 4..fours {
        put_pair(i * 2, a, b, canvas);
        put_pair(i * 2 + 1, c, d, canvas);
    }
}

// The colour of pixel i.
fn colour_at(i: usize, canvas: &[f32]) -> Colour
    requires { i * 3 + 3 ≤ length canvas.now }
    ensures { result ≡ pixel_colour i canvas.now }
{
    let k = i * 3;
    Colour {
        red: canvas[k],
        green: canvas[k + 1],
        blue: canvas[k + 2],
    }
}

// Pixels 2 i and 2 i + 1.
fn put_pair(i: usize, a: Colour, b: Colour, canvas: &mut [f32])
    requires { i * 6 + 6 ≤ length canvas.old }
    ensures { canvas.new ≡ pair_put i a b canvas.old }
{
    put(i * 2, a, canvas);
    put(i * 2 + 1, b, canvas);
}

// Pixel i gets the colour.
fn put(i: usize, colour: Colour, canvas: &mut [f32])
    requires { i * 3 + 3 ≤ length canvas.old }
    ensures { canvas.new ≡ pixel_put i colour canvas.old }
{
    let k = i * 3;
    canvas[k] = colour.red;
    canvas[k + 1] = colour.green;
    canvas[k + 2] = colour.blue;
}

// ---- mean

// The mean of each channel, summed in f64 in the pixels' order. Refusals: size, length, pixel.
pub fn mean_rgb(w: usize, h: usize, target: &[f32]) -> Result<Colour, Refusal>
    ensures { MeanRgbSays w h target.now (outcome result) }
{
    tested(w, h, target.len())?;
    let n = h * w;
    match tally::means::sums_within(target, n) {
        Some(sums) => Ok(Colour {
            red: tally::means::share(sums.red, n),
            green: tally::means::share(sums.green, n),
            blue: tally::means::share(sums.blue, n),
        }),
        None => Err(Refusal::Pixel),
    }
}

// ---- total

// The squared differences of two pictures, summed in f64 in slice order. Refusals: size, length, pixel.
pub fn sse_total(w: usize, h: usize, target: &[f32], canvas: &[f32]) -> Result<f64, Refusal>
    ensures { SseTotalSays w h target.now canvas.now (outcome result) }
{
    lengths_tested(w, h, target.len(), canvas.len())?;
    tally::totals::total_within(target, canvas).ok_or(Refusal::Pixel)
}

// Size and lengths.
fn lengths_tested(w: usize, h: usize, n: usize, m: usize) -> Result<(), Refusal>
    ensures { number_of result ≡ lowest (size_if (bad_size w h) ∷ length_if (bad_picture w h n || bad_picture w h m) ∷ []) }
{
    tested(w, h, n)?;
    tested(w, h, m)
}

// A total without the tests, for any bits.
pub fn total_any(target: &[f32], canvas: &[f32]) -> f64
    requires { length target.now ≡ length canvas.now }
    ensures { TotalAnySays target.now canvas.now result }
{
    let n = target.len();
    let mut sum = 0.0f64;
    for i in 0..n {
        sum = sum + tally::totals::squared_any(target[i], canvas[i]);
    }
    sum
}

// ---- painting

// Every covered channel becomes m * old + a * colour, m = 1 - a, in f32; all others stay. For any picture, opacity and
// colour bits. Sizes, places and the picture's length were tested.
pub fn blend(kind: Kind, opacity: f32, colour: Colour, w: usize, h: usize, canvas: &mut [f32])
    requires sizes { Sized w h }
    requires places { bad_places kind ≡ false }
    requires picture { length canvas.old ≡ h * w * 3 }
    ensures { BlendSays kind opacity colour.red colour.green colour.blue w h canvas.old canvas.new }
{
    let rows = cover::reached::reach_rows(kind, w, h);
    if rows.bottom <= rows.top {
        return;
    }
    let mut runs = [0u16; 512];
    cover::runs(kind, w, h, &mut runs);
    let brush = brush::brush_of(opacity, colour.red, colour.green, colour.blue);
    blend_rows(brush, &runs, rows, w, h, canvas);
}

fn blend_rows(brush: Brush, runs: &[u16; 512], rows: Rows, w: usize, h: usize, canvas: &mut [f32])
    requires sizes { Sized w h }
    requires rows { RowsWithin h rows }
    requires runs { RunsWithin w h runs.now }
    requires picture { length canvas.old ≡ h * w * 3 }
    ensures { canvas.new ≡ brushed_rows brush runs.now rows.top rows.bottom w h canvas.old }
{
    for y in rows.top..rows.bottom {
        let left = runs[y * 2] as usize;
        let right = runs[y * 2 + 1] as usize;
        blend_row(brush, left, right, y * w, canvas);
    }
}

// Pixels left up to right of the row that begins with pixel `start`.
fn blend_row(brush: Brush, left: usize, right: usize, start: usize, canvas: &mut [f32])
    requires { (left ≤ right) × ((start + right) * 3 ≤ length canvas.old) }
    ensures { canvas.new ≡ brushed_part brush ((start + left) * 3) ((start + right) * 3) canvas.old }
{
    let a = (start + left) * 3;
    let e = (start + right) * 3;
    brush::blend_run(brush, right - left, &mut canvas[a..e]);
}
