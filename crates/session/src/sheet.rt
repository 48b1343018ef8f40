// A picture that is drawn on: target, canvas and table, each lent at exactly its size.
ghost use Rattle.std.specs.Prelude.{◌≡◌, false, not, [], ◌∷◌, map, ◌+◌, ◌*◌, ◌<◌, T, length};
ghost use Rattle.laws.specs.Rows.{put_row};
ghost use Rattle.refusal.specs.Refusals.{lowest, place_if, opacity_if};
ghost use Rattle.refusal.specs.Outcomes.{outcome};
ghost use Rattle.float.specs.Within.{nought, within, all_within};
ghost use Rattle.cover.specs.Cover.{bad_places};
ghost use Rattle.grade.specs.Finalize.{finalized};
ghost use Rattle.grade.specs.Answered.{answered};
ghost use Rattle.gather.specs.Gathered.{span_sums};
ghost use Rattle.tally.specs.Tally.{total_of};
ghost use Rattle.picture.specs.Pixels.{filled};
ghost use Rattle.picture.specs.Painting.{painted};
ghost use Rattle.session.specs.Session.{channel};
ghost use Rattle.session.specs.Held.{Sides, Sheet};

use cover::Kind;
use grade::Score;
use picture::Colour;
use refusal::Refusal;
use score::Request;

// A byte as a channel.
fn channel(b: u8) -> f32
    ensures { result ≡ channel b }
{
    b as f32 / 255.0
}

// Bytes as channels, into all of `out`.
fn put_channels(bytes: &[u8], out: &mut [f32])
    requires { length bytes.now ≡ length out.old }
    ensures { out.new ≡ map channel bytes.now }
{
    for i in 0..out.len() {
        out[i] = channel(bytes[i]);
    }
}

// A new picture: a black target, a canvas of one colour.
pub(crate) fn make(
    w: usize,
    h: usize,
    red: u8,
    green: u8,
    blue: u8,
    target: &mut [f32],
    canvas: &mut [f32],
    table: &mut [f64],
)
    requires sides { Sides w h }
    requires lent { (length target.old ≡ h * w * 3) × (length canvas.old ≡ h * w * 3) × (length table.old ≡ h * (w + 1) * 15) }
    ensures { (target.new ≡ filled w h nought nought nought) × (canvas.new ≡ filled w h (channel red) (channel green) (channel blue)) × Sheet w h target.new canvas.new table.new × T (all_within canvas.new) }
{
    let black = Colour {
        red: 0.0,
        green: 0.0,
        blue: 0.0,
    };
    let colour = Colour {
        red: channel(red),
        green: channel(green),
        blue: channel(blue),
    };
    picture::fill(w, h, black, target);
    picture::fill(w, h, colour, canvas);
    let _ = table::build(target, canvas, w, h, table);
}

// A row of the target. All of the table is built again: its target sums are stale, and no update redoes those.
pub(crate) fn set_row(
    w: usize,
    h: usize,
    y: usize,
    pixels: &[u8],
    target: &mut [f32],
    canvas: &[f32],
    table: &mut [f64],
)
    requires row { (y < h) × (length pixels.now ≡ w * 3) }
    requires sheet { Sheet w h target.old canvas.now table.old }
    requires canvas { T (all_within canvas.now) }
    ensures { (target.new ≡ put_row (w * 3) y (map channel pixels.now) target.old) × Sheet w h target.new canvas.now table.new }
{
    let n = w * 3;
    let a = y * n;
    put_channels(pixels, &mut target[a..a + n]);
    let _ = table::build(target, canvas, w, h, table);
}

// The score of a shape, or the refusal.
pub(crate) fn weigh(
    kind: Kind,
    opacity: f32,
    w: usize,
    h: usize,
    table: &[f64],
) -> Result<Score, Refusal>
    requires { Sides w h × (length table.now ≡ h * (w + 1) * 15) }
    ensures { outcome result ≡ answered (lowest (place_if (bad_places kind) ∷ opacity_if (not (within opacity)) ∷ [])) (finalized (span_sums kind w h table.now) opacity) }
{
    let levels = [0.0f32; 64];
    score::calls::span_score(kind, Request::Opacity(opacity), &levels, w, h, table)
}

// A shape in its score's colour, the table's sums with it, and the total after.
pub(crate) fn paint(
    kind: Kind,
    opacity: f32,
    s: Score,
    w: usize,
    h: usize,
    target: &[f32],
    canvas: &mut [f32],
    table: &mut [f64],
) -> f64
    requires places { bad_places kind ≡ false }
    requires sheet { Sheet w h target.now canvas.old table.old }
    ensures { (canvas.new ≡ painted kind opacity s.red s.green s.blue w h canvas.old) × Sheet w h target.now canvas.new table.new × (result ≡ total_of target.now canvas.new) }
{
    let colour = Colour {
        red: s.red,
        green: s.green,
        blue: s.blue,
    };
    picture::blend(kind, opacity, colour, w, h, canvas);
    let reach = cover::row_reach(kind, h);
    let _ = table::update_canvas_rows(target, canvas, w, h, table, reach.first, reach.last);
    picture::total_any(target, canvas)
}
