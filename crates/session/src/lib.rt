// The program's running state: one step for each request, on two pictures and a table that the caller lends.
#![tactic(auto)]

ghost use Rattle.std.specs.Prelude.{◌≡◌, ◌+◌, ◌≤◌, length, take, drop};
ghost use Rattle.frame.specs.Frames.{new, row, score, paint};
ghost use Rattle.frame.specs.declared.Answer.TheVariants.{Refused};
ghost use Rattle.session.specs.Session.{bad_sides, values_of};
ghost use Rattle.refusal.specs.Outcomes.{number, outcome};
ghost use Rattle.held.specs.Asking.{Carried};
ghost use Rattle.session.specs.Held.{Sides, Holds, weighed_of, stepped, stepped_by, StepTakes, StepSays};

use cover::Kind;
use frame::{Answer, Request, Values};
use grade::Score;
use held::State;
use refusal::Refusal;

mod sheet;

#[derive(Clone, Copy)]
pub struct Stepped {
    pub state: State,
    pub answer: Answer,
}

fn bad_sides(w: usize, h: usize) -> bool
    ensures { result ≡ bad_sides w h }
{
    !matches!((w, h), (1..=16, 1..=16))
}

fn refused(s: State, refusal: Refusal) -> Stepped
    ensures { result ≡ stepped s (Refused (number refusal)) }
{
    Stepped {
        state: s,
        answer: Answer::Refused(refusal.number()),
    }
}

// Floats as bits.
fn values(s: Score) -> Values
    ensures { result ≡ values_of s }
{
    Values {
        count: s.count,
        change: float::bits32(s.change),
        red: float::bits32(s.red),
        green: float::bits32(s.green),
        blue: float::bits32(s.blue),
    }
}

fn step_new(
    s: State,
    w: u8,
    h: u8,
    red: u8,
    green: u8,
    blue: u8,
    target: &mut [f32],
    canvas: &mut [f32],
    table: &mut [f64],
) -> Result<Stepped, Refusal>
    requires { Holds s target.old canvas.old table.old }
    ensures { StepTakes s (new w h red green blue) target.old canvas.old table.old (stepped_by s result) target.new canvas.new table.new }
{
    let width = w as usize;
    let height = h as usize;
    if bad_sides(width, height) {
        return Err(Refusal::Size);
    }
    let n = height * width * 3;
    let k = height * (width + 1) * 15;
    sheet::make(
        width,
        height,
        red,
        green,
        blue,
        &mut target[0..n],
        &mut canvas[0..n],
        &mut table[0..k],
    );
    let state = State {
        w: width,
        h: height,
        painted: false,
    };
    Ok(Stepped {
        state,
        answer: Answer::Made,
    })
}

fn step_row(
    s: State,
    y: u8,
    n: usize,
    bytes: &[u8],
    target: &mut [f32],
    canvas: &[f32],
    table: &mut [f64],
) -> Result<Stepped, Refusal>
    requires held { Holds s target.old canvas.now table.old }
    requires carried { 2 + n ≤ length bytes.now }
    ensures { StepTakes s (row y (take n (drop 2 bytes.now))) target.old canvas.now table.old (stepped_by s result) target.new canvas.now table.new }
{
    let w = s.w;
    let h = s.h;
    if w == 0 {
        return Err(Refusal::Malformed);
    }
    if n != w * 3 {
        return Err(Refusal::Malformed);
    }
    let row = y as usize;
    if h <= row {
        return Err(Refusal::Malformed);
    }
    if s.painted {
        return Err(Refusal::Malformed);
    }
    let e = n + 2;
    let m = h * w * 3;
    let k = h * (w + 1) * 15;
    sheet::set_row(
        w,
        h,
        row,
        &bytes[2..e],
        &mut target[0..m],
        &canvas[0..m],
        &mut table[0..k],
    );
    Ok(Stepped {
        state: s,
        answer: Answer::Set,
    })
}

// The score of a shape on the picture held, or the refusal.
fn weighed(s: State, kind: Kind, opacity: f32, table: &[f64]) -> Result<Score, Refusal>
    requires { ((s.w ≡ 0 → ⊥) → Sides s.w s.h) × (length table.now ≡ 4080) }
    ensures { outcome result ≡ weighed_of s kind opacity table.now }
{
    let w = s.w;
    let h = s.h;
    if w == 0 {
        return Err(Refusal::Malformed);
    }
    let k = h * (w + 1) * 15;
    sheet::weigh(kind, opacity, w, h, &table[0..k])
}

fn step_score(
    s: State,
    kind: Kind,
    opacity: u32,
    target: &[f32],
    canvas: &[f32],
    table: &[f64],
) -> Result<Stepped, Refusal>
    requires { Holds s target.now canvas.now table.now }
    ensures { StepTakes s (score kind opacity) target.now canvas.now table.now (stepped_by s result) target.now canvas.now table.now }
{
    let score = weighed(s, kind, float::of_bits32(opacity), table)?;
    Ok(Stepped {
        state: s,
        answer: Answer::Scored(values(score)),
    })
}

fn step_paint(
    s: State,
    kind: Kind,
    opacity: u32,
    target: &[f32],
    canvas: &mut [f32],
    table: &mut [f64],
) -> Result<Stepped, Refusal>
    requires { Holds s target.now canvas.old table.old }
    ensures { StepTakes s (paint kind opacity) target.now canvas.old table.old (stepped_by s result) target.now canvas.new table.new }
{
    let w = s.w;
    let h = s.h;
    let n = h * w * 3;
    let k = h * (w + 1) * 15;
    let a = float::of_bits32(opacity);
    let score = weighed(s, kind, a, table)?;
    let total = sheet::paint(
        kind,
        a,
        score,
        w,
        h,
        &target[0..n],
        &mut canvas[0..n],
        &mut table[0..k],
    );
    let state = State {
        w,
        h,
        painted: true,
    };
    Ok(Stepped {
        state,
        answer: Answer::Painted(values(score), float::bits64(total)),
    })
}

// What a request makes of the running state, or the refusal.
fn taken(
    s: State,
    request: Request,
    bytes: &[u8],
    target: &mut [f32],
    canvas: &mut [f32],
    table: &mut [f64],
) -> Result<Stepped, Refusal>
    requires held { Holds s target.old canvas.old table.old }
    requires carried { Carried request bytes.now }
    ensures { StepSays s request bytes.now target.old canvas.old table.old (stepped_by s result) target.new canvas.new table.new }
{
    match request {
        Request::New(w, h, red, green, blue) => step_new(
            s, w, h, red, green, blue, target, canvas, table,
        ),
        Request::Row(y, n) => step_row(s, y, n, bytes, target, canvas, table),
        Request::Score(kind, opacity) => step_score(s, kind, opacity, target, canvas, table),
        Request::Paint(kind, opacity) => step_paint(s, kind, opacity, target, canvas, table),
    }
}

// One step of the running state. The state is one that `start` or an earlier step gave, with what is lent as it was left.
pub fn step(
    s: State,
    request: Request,
    bytes: &[u8],
    target: &mut [f32],
    canvas: &mut [f32],
    table: &mut [f64],
) -> Stepped
    requires held { Holds s target.old canvas.old table.old }
    requires carried { Carried request bytes.now }
    ensures { StepSays s request bytes.now target.old canvas.old table.old result target.new canvas.new table.new }
{
    match taken(s, request, bytes, target, canvas, table) {
        Ok(stepped) => stepped,
        Err(refusal) => refused(s, refusal),
    }
}
