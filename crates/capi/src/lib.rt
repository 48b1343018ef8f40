// The C face for the Rust app. Functions on numbers each answer one i64: the value, or -n for refusal n; a span end of a
// row without a covered pixel is -9. Functions on lent slices stand in the modules; each answers the refusal's number, or
// `SillbadgerAnswer` where more comes back. Names start with sillbadger_. What only tests call is exported by the crates
// `probe_NAME`.
#![tactic(auto)]

ghost use Rattle.std.specs.Prelude.{◌≡◌, pos, neg_ℤ};
ghost use Rattle.refusal.specs.Outcomes.{number};
ghost use Rattle.cover.specs.Cover.{count, row_ends, refusal_of};
ghost use Rattle.capi.specs.Answers.{refused_by, shapeless};
ghost use Rattle.capi.specs.Exports.{
  exported,
  end_of,
  SillbadgerNarrowBitsSays,
  SillbadgerCountCircleSays,
  SillbadgerCountTriangleSays,
  SillbadgerCountQuadSays,
  SillbadgerLeftCircleSays,
  SillbadgerRightCircleSays,
  SillbadgerLeftTriangleSays,
  SillbadgerRightTriangleSays,
  SillbadgerLeftQuadSays,
  SillbadgerRightQuadSays,
};

use cover::Kind;
use refusal::Refusal;

pub mod painting;
pub mod pictures;
pub mod refining;
pub mod scores;
pub mod tables;

// What a call answers. A refused call has its number, and all else is 0; a call that is done has 0, and what it works
// out: all that it does not work out is 0.
#[repr(C)]
#[derive(Clone, Copy)]
pub struct SillbadgerAnswer {
    // Kept: the C interface needs a number.
    pub refusal: u32,
    pub count: u32,
    pub opacity: f32,
    pub change: f32,
    pub red: f32,
    pub green: f32,
    pub blue: f32,
    pub passes: u64,
    pub trials: u64,
    pub acceptances: u64,
    pub total: f64,
}

// A refused call's answer.
fn refused(number: u8) -> SillbadgerAnswer
    ensures { result ≡ refused_by number }
{
    SillbadgerAnswer {
        refusal: number as u32,
        count: 0,
        opacity: 0.0,
        change: 0.0,
        red: 0.0,
        green: 0.0,
        blue: 0.0,
        passes: 0,
        trials: 0,
        acceptances: 0,
        total: 0.0,
    }
}

// No kind of shape has as many coordinates as were lent.
fn no_shape(w: u32, h: u32) -> Refusal
    ensures { number result ≡ shapeless w h }
{
    if refusal::bad_size(w as usize, h as usize) {
        return Refusal::Size;
    }
    Refusal::Length
}

// The pattern of an f32 from that of an f64. Nothing is refused.
#[unsafe(no_mangle)]
pub extern "C" fn sillbadger_narrow_bits(bits: u64) -> i64
    ensures { SillbadgerNarrowBitsSays bits result }
{
    float::narrow_bits(bits) as i64
}

// A refusal's number, exported.
fn minus(why: Refusal) -> i64
    ensures { result ≡ neg_ℤ (pos (number why)) }
{
    0 - why.number() as i64
}

fn count_of(kind: Kind, w: u32, h: u32) -> i64
    ensures { result ≡ exported (refusal_of kind w h) (pos (count kind w h)) }
{
    let c = cover::count_covered(kind, w as usize, h as usize);
    match c {
        Ok(n) => n as i64,
        Err(why) => minus(why),
    }
}

// The last covered column of row y, or the first.
// Kept: the new form is no plainer: a closure that takes the one or the other of two numbers has a contract of its own at each of six calls.
fn end_of(kind: Kind, w: u32, h: u32, y: i32, last: bool) -> i64
    ensures { result ≡ exported (refusal_of kind w h) (end_of last (row_ends kind w h y)) }
{
    let e = cover::row_ends(kind, w as usize, h as usize, y);
    match e {
        Ok(Some(columns)) => {
            if last {
                columns.last as i64
            } else {
                columns.first as i64
            }
        }
        Ok(None) => -9,
        Err(why) => minus(why),
    }
}

// How many pixels of a picture of w by h a shape covers.
#[unsafe(no_mangle)]
pub extern "C" fn sillbadger_count_circle(w: u32, h: u32, cx: i32, cy: i32, r: i32) -> i64
    ensures { SillbadgerCountCircleSays w h cx cy r result }
{
    count_of(Kind::Circle(cx, cy, r), w, h)
}

#[unsafe(no_mangle)]
pub extern "C" fn sillbadger_count_triangle(
    w: u32,
    h: u32,
    x0: i32,
    y0: i32,
    x1: i32,
    y1: i32,
    x2: i32,
    y2: i32,
) -> i64
    ensures { SillbadgerCountTriangleSays w h x0 y0 x1 y1 x2 y2 result }
{
    count_of(Kind::Triangle(x0, y0, x1, y1, x2, y2), w, h)
}

#[unsafe(no_mangle)]
pub extern "C" fn sillbadger_count_quad(
    w: u32,
    h: u32,
    x0: i32,
    y0: i32,
    x1: i32,
    y1: i32,
    x2: i32,
    y2: i32,
    x3: i32,
    y3: i32,
) -> i64
    ensures { SillbadgerCountQuadSays w h x0 y0 x1 y1 x2 y2 x3 y3 result }
{
    count_of(Kind::Quad(x0, y0, x1, y1, x2, y2, x3, y3), w, h)
}

// The first and the last covered column of row y.
#[unsafe(no_mangle)]
pub extern "C" fn sillbadger_left_circle(w: u32, h: u32, cx: i32, cy: i32, r: i32, y: i32) -> i64
    ensures { SillbadgerLeftCircleSays w h cx cy r y result }
{
    end_of(Kind::Circle(cx, cy, r), w, h, y, false)
}

#[unsafe(no_mangle)]
pub extern "C" fn sillbadger_right_circle(w: u32, h: u32, cx: i32, cy: i32, r: i32, y: i32) -> i64
    ensures { SillbadgerRightCircleSays w h cx cy r y result }
{
    end_of(Kind::Circle(cx, cy, r), w, h, y, true)
}

#[unsafe(no_mangle)]
pub extern "C" fn sillbadger_left_triangle(
    w: u32,
    h: u32,
    x0: i32,
    y0: i32,
    x1: i32,
    y1: i32,
    x2: i32,
    y2: i32,
    y: i32,
) -> i64
    ensures { SillbadgerLeftTriangleSays w h x0 y0 x1 y1 x2 y2 y result }
{
    end_of(Kind::Triangle(x0, y0, x1, y1, x2, y2), w, h, y, false)
}

#[unsafe(no_mangle)]
pub extern "C" fn sillbadger_right_triangle(
    w: u32,
    h: u32,
    x0: i32,
    y0: i32,
    x1: i32,
    y1: i32,
    x2: i32,
    y2: i32,
    y: i32,
) -> i64
    ensures { SillbadgerRightTriangleSays w h x0 y0 x1 y1 x2 y2 y result }
{
    end_of(Kind::Triangle(x0, y0, x1, y1, x2, y2), w, h, y, true)
}

#[unsafe(no_mangle)]
pub extern "C" fn sillbadger_left_quad(
    w: u32,
    h: u32,
    x0: i32,
    y0: i32,
    x1: i32,
    y1: i32,
    x2: i32,
    y2: i32,
    x3: i32,
    y3: i32,
    y: i32,
) -> i64
    ensures { SillbadgerLeftQuadSays w h x0 y0 x1 y1 x2 y2 x3 y3 y result }
{
    end_of(Kind::Quad(x0, y0, x1, y1, x2, y2, x3, y3), w, h, y, false)
}

#[unsafe(no_mangle)]
pub extern "C" fn sillbadger_right_quad(
    w: u32,
    h: u32,
    x0: i32,
    y0: i32,
    x1: i32,
    y1: i32,
    x2: i32,
    y2: i32,
    x3: i32,
    y3: i32,
    y: i32,
) -> i64
    ensures { SillbadgerRightQuadSays w h x0 y0 x1 y1 x2 y2 x3 y3 y result }
{
    end_of(Kind::Quad(x0, y0, x1, y1, x2, y2, x3, y3), w, h, y, true)
}
