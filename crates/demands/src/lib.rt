// The demands, as theorems in specs/. The one function here shows that the theorem on paint calls meets the code.
#![tactic(auto)]

ghost use Rattle.std.specs.Prelude.{◌≡◌, length};
ghost use Rattle.refusal.specs.Outcomes.{number_of};
ghost use Rattle.demands.specs.PaintCalls.{CallSays, Kept, TwoCallsSays};

use cover::Kind;
use picture::Colour;
use refusal::Refusal;

// A paint call: shape, opacity, colour, and its own sizes.
#[derive(Clone, Copy)]
pub struct Call {
    pub kind: Kind,
    pub opacity: f32,
    pub colour: Colour,
    pub w: usize,
    pub h: usize,
}

// What two paint calls and a build answered.
#[derive(Clone, Copy)]
pub struct Numbers {
    pub first: Result<(), Refusal>,
    pub second: Result<(), Refusal>,
    pub afresh: Result<(), Refusal>,
}

// Two paint calls, taken or refused, on a table that was built; then a table is built afresh beside it.
pub fn two_calls(
    first: Call,
    second: Call,
    w: usize,
    h: usize,
    target: &[f32],
    canvas: &mut [f32],
    table: &mut [f64],
    fresh: &mut [f64],
) -> Numbers
    requires built { Kept w h target.now canvas.old table.old }
    requires room { length fresh.old ≡ length table.old }
    ensures { TwoCallsSays first second w h target.now canvas.old table.old result canvas.new table.new fresh.new }
{
    let first = run_call(first, target, canvas, table);
    let second = run_call(second, target, canvas, table);
    let afresh = table::build(target, canvas, w, h, fresh);
    Numbers {
        first,
        second,
        afresh,
    }
}

fn run_call(c: Call, target: &[f32], canvas: &mut [f32], table: &mut [f64]) -> Result<(), Refusal>
    ensures { CallSays c target.now canvas.old table.old (number_of result) canvas.new table.new }
{
    let kind = c.kind;
    paint::paint(kind, c.opacity, c.colour, c.w, c.h, target, canvas, table)
}
