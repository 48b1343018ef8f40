// Shapes with their opacity and colour, lists of them by value, and candidates; what of them is within its range.
#![tactic(auto)]

ghost use Rattle.std.specs.Prelude.{◌≡◌, [], ◌∷◌, ◌<◌, ◌≤◌};
ghost use Rattle.shapes.specs.Lists.{ExchangeSays};
ghost use Rattle.shapes.specs.Ranges.{ranges_of, both, LookAtSays, LookThroughSays};

use cover::Kind;
use picture::Colour;

// A shape with its opacity and colour. It is read by its fields' names alone.
#[derive(Clone, Copy)]
pub struct Shape {
    pub kind: Kind,
    pub opacity: f32,
    pub red: f32,
    pub green: f32,
    pub blue: f32,
}

// A list of shapes: the first `count` of the items.
#[derive(Clone, Copy)]
pub struct Shapes {
    pub items: [Shape; 64],
    pub count: usize,
}

// What the trials are offered, a shape or nothing: the first `count` of the slots. A large list: it stays in the function that has it,
// which hands on one candidate at a time.
#[derive(Clone, Copy)]
pub struct Candidates {
    pub slots: [Option<Shape>; 1024],
    pub count: usize,
}

// What is within its range, of all shapes that were looked at.
#[derive(Clone, Copy)]
pub struct Ranges {
    pub places: bool,
    pub opacities: bool,
    pub colours: bool,
}

// ---- lists

// Shape j leaves, later ones move up, and x goes last.
pub fn exchange(mut s: Shapes, j: usize, x: Shape) -> Shapes
    requires { (j < s.count) × (s.count ≤ 64) }
    ensures { ExchangeSays s j x result }
{
    let count = s.count;
    s.items.copy_within(j + 1..count, j);
    s.items[count - 1] = x;
    s
}

// ---- ranges

// One more shape is looked at.
fn look(r: Ranges, s: Shape) -> Ranges
    ensures { result ≡ both r (ranges_of (s ∷ [])) }
{
    let kind = s.kind;
    let colour = Colour {
        red: s.red,
        green: s.green,
        blue: s.blue,
    };
    Ranges {
        places: r.places & !cover::bad_places(kind),
        opacities: r.opacities & float::within(s.opacity),
        colours: r.colours & !picture::bad_colour(colour),
    }
}

// A candidate, if it is a shape.
pub fn look_at(r: Ranges, what: Option<Shape>) -> Ranges
    ensures { LookAtSays r what result }
{
    match what {
        None => r,
        Some(s) => look(r, s),
    }
}

// All shapes of a list.
pub fn look_through(s: Shapes) -> Ranges
    ensures { LookThroughSays s result }
{
    let n = s.count.min(64);
    let mut r = Ranges {
        places: true,
        opacities: true,
        colours: true,
    };
    for x in &s.items[..n] {
        r = look(r, *x);
    }
    r
}
