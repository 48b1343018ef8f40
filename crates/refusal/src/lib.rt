// Document 01's refusals, and the tests of sizes and places that every entry point shares.
#![tactic(auto)]

ghost use Rattle.std.specs.Prelude.{◌≤◌};
ghost use Rattle.refusal.specs.Refusals.{BadSizeSays, BadPlaceSays};
ghost use Rattle.refusal.specs.Lengths.{BadPictureSays, BadTableSays};
ghost use Rattle.refusal.specs.Outcomes.{NumberSays, NumberOfSays};

// Why a call is refused; the order is that of document 01's numbers. The last one is given by a program alone.
#[derive(Clone, Copy, PartialEq, Eq, Debug)]
pub enum Refusal {
    // w or h
    Size,
    // of a lent slice
    Length,
    // of levels, shapes, candidates or passes
    Count,
    // a coordinate or radius
    Place,
    Opacity,
    Colour,
    Pixel,
    // a line that is no frame, or a frame at the wrong time
    Malformed,
}

impl Refusal {
    // Document 01's number.
    pub fn number(self) -> u8
        ensures { NumberSays self result }
    {
        match self {
            Refusal::Size => 1,
            Refusal::Length => 2,
            Refusal::Count => 3,
            Refusal::Place => 4,
            Refusal::Opacity => 5,
            Refusal::Colour => 6,
            Refusal::Pixel => 7,
            Refusal::Malformed => 8,
        }
    }
}

// The number of what a call without a value answers: 0 where it is done.
// Kept: the C interface needs a number.
pub fn number_of(done: Result<(), Refusal>) -> u8
    ensures { NumberOfSays done result }
{
    match done {
        Ok(()) => 0,
        Err(no) => no.number(),
    }
}

// w or h outside 1..256
#[tactic(auto, unfolding(crate::specs::Refusals::bad_size))]
pub fn bad_size(w: usize, h: usize) -> bool
    ensures { BadSizeSays w h result }
{
    if w < 1 {
        return true;
    }
    if 256 < w {
        return true;
    }
    if h < 1 {
        return true;
    }
    256 < h
}

// a coordinate or radius outside -8191..8191
#[tactic(auto, unfolding(crate::specs::Refusals::bad_place))]
pub fn bad_place(z: i32) -> bool
    ensures { BadPlaceSays z result }
{
    if z < -8191 {
        return true;
    }
    8191 < z
}

// n elements are not a picture's. Sizes are tested before, so that the product does not wrap.
pub fn bad_picture(w: usize, h: usize, n: usize) -> bool
    requires { (w ≤ 256) × (h ≤ 256) }
    ensures { BadPictureSays w h n result }
{
    n != h * w * 3
}

// n elements are not a table's.
pub fn bad_table(w: usize, h: usize, n: usize) -> bool
    requires { (w ≤ 256) × (h ≤ 256) }
    ensures { BadTableSays w h n result }
{
    n != h * (w + 1) * 15
}
