// How a list of shapes crosses: for each shape its number of coordinates, eight places for them, and four floats: opacity, red,
// green, blue. Among candidates 0 coordinates are nothing.
ghost use Rattle.std.specs.Prelude.{◌≡◌, false, not, ◌||◌, ◌*◌, ◌<◌, ◌≤◌, eqb, length};
ghost use Rattle.laws.specs.Every.{every};
ghost use Rattle.cover.specs.Cover.{places};
ghost use Rattle.shapes.specs.Lists.{listed};
ghost use Rattle.crossing.specs.Crossed.{
  sized_or,
  Fits,
  shape_at,
  offer_at,
  BadListSays,
  ReadListSays,
  ReadOffersSays,
  place_in,
  paint_in,
  sizes_of,
  places_of,
  paints_of,
  WriteListSays,
};

use cover::Kind;
use shapes::{Candidates, Shape, Shapes};

// Eight places and four floats for each of n shapes. Divided, since a product might not fit.
fn bad_lengths(n: usize, places: usize, paints: usize) -> bool
    ensures { result ≡ (not (eqb places (n * 8)) || not (eqb paints (n * 4))) }
{
    if places / 8 != n {
        return true;
    }
    if places % 8 != 0 {
        return true;
    }
    if paints / 4 != n {
        return true;
    }
    if paints % 4 != 0 {
        return true;
    }
    false
}

// Kept: `gaps` is a part of the rule (`sized_or`), which `BadListSays` names, and it picks no code.
fn size_fits(n: u8, gaps: bool) -> bool
    ensures { result ≡ sized_or gaps n }
{
    crate::is_sized(n as usize) | (gaps & (n == 0))
}

// It has no way out, so that it is vectorised: a list that is far too long is looked through before it is refused. Kept: as above.
fn sizes_fit(sizes: &[u8], gaps: bool) -> bool
    ensures { result ≡ every (sized_or gaps) sizes.now }
{
    let mut ok = true;
    for n in sizes {
        ok = ok & size_fits(*n, gaps);
    }
    ok
}

// The slices are no list: their lengths do not fit each other, or a number of coordinates is one that no kind has. With
// `gaps` an entry may be nothing.
// Kept: `gaps` stands in the promise.
pub fn bad_list(sizes: &[u8], places: &[i32], paints: &[f32], gaps: bool) -> bool
    ensures { BadListSays sizes.now places.now paints.now gaps result }
{
    if bad_lengths(sizes.len(), places.len(), paints.len()) {
        return true;
    }
    !sizes_fit(sizes, gaps)
}

// Kept: the new form is no plainer: a byte is widened at an index, whose range this clause says.
fn wide(x: u8) -> usize
    ensures { result ≡ x }
{
    x as usize
}

// Shape i.
fn shape_at(sizes: &[u8], places: &[i32], paints: &[f32], i: usize) -> Shape
    requires { (i < length sizes.now) × Fits sizes.now places.now paints.now }
    ensures { result ≡ shape_at sizes.now places.now paints.now i }
{
    let a = i * 8;
    let e = a + 8;
    let p = i * 4;
    let kind = crate::kind_sized(wide(sizes[i]), &places[a..e]);
    Shape {
        kind,
        opacity: paints[p],
        red: paints[p + 1],
        green: paints[p + 2],
        blue: paints[p + 3],
    }
}

fn offer_at(sizes: &[u8], places: &[i32], paints: &[f32], i: usize) -> Option<Shape>
    requires { (i < length sizes.now) × Fits sizes.now places.now paints.now }
    ensures { result ≡ offer_at sizes.now places.now paints.now i }
{
    if sizes[i] == 0 {
        return None;
    }
    Some(shape_at(sizes, places, paints, i))
}

fn blank() -> Shape {
    Shape {
        kind: Kind::Circle(0, 0, 0),
        opacity: 0.0,
        red: 0.0,
        green: 0.0,
        blue: 0.0,
    }
}

// The list that slices hold.
pub fn read_list(sizes: &[u8], places: &[i32], paints: &[f32]) -> Shapes
    requires { (length sizes.now ≤ 64) × Fits sizes.now places.now paints.now }
    ensures { ReadListSays sizes.now places.now paints.now result }
{
    let n = sizes.len();
    let mut items = [blank(); 64];
    for i in 0..n {
        items[i] = shape_at(sizes, places, paints, i);
    }
    Shapes { items, count: n }
}

// The candidates that slices hold.
pub fn read_offers(sizes: &[u8], places: &[i32], paints: &[f32]) -> Candidates
    requires { (length sizes.now ≤ 1024) × Fits sizes.now places.now paints.now }
    ensures { ReadOffersSays sizes.now places.now paints.now result }
{
    let n = sizes.len();
    let mut slots = [None; 1024];
    for i in 0..n {
        slots[i] = offer_at(sizes, places, paints, i);
    }
    Candidates { slots, count: n }
}

// ---- and back

// How many coordinates a kind has.
fn size_of(kind: Kind) -> u8
    ensures { result ≡ length (places kind) }
{
    match kind {
        Kind::Circle(_, _, _) => 3,
        Kind::Triangle(_, _, _, _, _, _) => 6,
        Kind::Quad(_, _, _, _, _, _, _, _) => 8,
    }
}

// Coordinate j, 0 past the kind's own.
fn place_of(kind: Kind, j: usize) -> i32
    requires { j < 8 }
    ensures { result ≡ place_in kind j }
{
    match kind {
        Kind::Circle(cx, cy, r) => {
            let zs = [cx, cy, r, 0, 0, 0, 0, 0];
            zs[j]
        }
        Kind::Triangle(x0, y0, x1, y1, x2, y2) => {
            let zs = [x0, y0, x1, y1, x2, y2, 0, 0];
            zs[j]
        }
        Kind::Quad(x0, y0, x1, y1, x2, y2, x3, y3) => {
            let zs = [x0, y0, x1, y1, x2, y2, x3, y3];
            zs[j]
        }
    }
}

fn paint_of(s: Shape, j: usize) -> f32
    requires { j < 4 }
    ensures { result ≡ paint_in s j }
{
    let ps = [s.opacity, s.red, s.green, s.blue];
    ps[j]
}

fn write_sizes(list: Shapes, sizes: &mut [u8])
    requires { (list.count ≡ length sizes.old) × (list.count ≤ 64) }
    ensures { sizes.new ≡ sizes_of (listed list) }
{
    for i in 0..list.count {
        sizes[i] = size_of(list.items[i].kind);
    }
}

fn write_places(list: Shapes, places: &mut [i32])
    requires { (length places.old ≡ list.count * 8) × (list.count ≤ 64) }
    ensures { places.new ≡ places_of (listed list) }
{
    for k in 0..list.count * 8 {
        places[k] = place_of(list.items[k / 8].kind, k % 8);
    }
}

fn write_paints(list: Shapes, paints: &mut [f32])
    requires { (length paints.old ≡ list.count * 4) × (list.count ≤ 64) }
    ensures { paints.new ≡ paints_of (listed list) }
{
    for k in 0..list.count * 4 {
        paints[k] = paint_of(list.items[k / 4], k % 4);
    }
}

// The slices hold the list.
pub fn write_list(list: Shapes, sizes: &mut [u8], places: &mut [i32], paints: &mut [f32])
    requires { (list.count ≡ length sizes.old) × (list.count ≤ 64) × Fits sizes.old places.old paints.old }
    ensures { WriteListSays list sizes.new places.new paints.new }
{
    write_sizes(list, sizes);
    write_places(list, places);
    write_paints(list, paints);
}
