// How shapes cross the C border: plain slices of numbers are read as shapes.
#![tactic(auto)]

ghost use Rattle.std.specs.Prelude.{◌≡◌, ◌≤◌, length};
ghost use Rattle.crossing.specs.Outlines.{sized, wanted, kind_sized, OutlineSays};

use cover::Kind;

pub mod lists;

// Some kind has so many coordinates: 3 for cx, cy, r; 6 for three corners; 8 for four.
fn is_sized(n: usize) -> bool
    ensures { result ≡ sized n }
{
    (n == 3) | (n == 6) | (n == 8)
}

// The kind of n coordinates, which come first. One way out: with a `return` in each branch the compiler merges the stores of the
// three kinds, and the shape stays in memory.
fn kind_sized(n: usize, zs: &[i32]) -> Kind
    requires { wanted n ≤ length zs.now }
    ensures { result ≡ kind_sized n zs.now }
{
    if n == 3 {
        Kind::Circle(zs[0], zs[1], zs[2])
    } else {
        if n == 6 {
            Kind::Triangle(zs[0], zs[1], zs[2], zs[3], zs[4], zs[5])
        } else {
            Kind::Quad(zs[0], zs[1], zs[2], zs[3], zs[4], zs[5], zs[6], zs[7])
        }
    }
}

// The number of coordinates says the kind; another number is no shape.
pub fn outline(shape: &[i32]) -> Option<Kind>
    ensures { OutlineSays shape.now result }
{
    let n = shape.len();
    if is_sized(n) {
        return Some(kind_sized(n, shape));
    }
    None
}
