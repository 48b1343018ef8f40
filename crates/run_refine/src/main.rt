// Runs refinement on small cases: lists, candidates and targets drawn from a seed. `oracle/refine.rs` has the same draws and works
// the expected output out with the published Rust; refusals it takes from document 01.
#![tactic(auto)]

ghost use Rattle.std.specs.Prelude.{◌≡◌, ◌*◌, ◌<◌, ◌≤◌, length};

use cover::Kind;
use refine::Refined;
use refusal::Refusal;
use shapes::{Candidates, Shape, Shapes};
use std::io;

// ---- draws

fn mixed(x: u64) -> u64
    requires { x < 65537 }
    ensures { result < 65537 }
{
    (x * 75 + x / 128 * 31 + 74) % 65537
}

// Number j of thing k of a seed.
fn byte(seed: u64, k: usize, j: u64) -> u8
    requires { (seed < 1000) × (k < 2000) × (j < 32) }
{
    let x = (seed * 7919 + (k as u64) * 271 + j * 8191) % 65537;
    (mixed(mixed(mixed(x))) / 256 % 256) as u8
}

// 0 to 15
fn place(seed: u64, k: usize, j: u64) -> i32
    requires { (seed < 1000) × (k < 2000) × (j < 32) }
{
    (byte(seed, k, j) % 16) as i32
}

fn channel(seed: u64, k: usize, j: u64) -> f32
    requires { (seed < 1000) × (k < 2000) × (j < 32) }
{
    byte(seed, k, j) as f32 / 255.0
}

fn kind(seed: u64, k: usize) -> Kind
    requires { (seed < 1000) × (k < 2000) }
{
    let t = byte(seed, k, 0) % 3;
    if t == 0 {
        return Kind::Circle(
            place(seed, k, 1),
            place(seed, k, 2),
            (byte(seed, k, 3) % 8) as i32,
        );
    }
    let x0 = place(seed, k, 1);
    let y0 = place(seed, k, 2);
    let x1 = place(seed, k, 3);
    let y1 = place(seed, k, 4);
    let x2 = place(seed, k, 5);
    let y2 = place(seed, k, 6);
    if t == 1 {
        return Kind::Triangle(x0, y0, x1, y1, x2, y2);
    }
    Kind::Quad(x0, y0, x1, y1, x2, y2, place(seed, k, 7), place(seed, k, 8))
}

fn shape(seed: u64, k: usize) -> Shape
    requires { (seed < 1000) × (k < 2000) }
{
    let kind = kind(seed, k);
    Shape {
        kind,
        opacity: (byte(seed, k, 9) % 128 + 64) as f32 / 256.0,
        red: channel(seed, k, 10),
        green: channel(seed, k, 11),
        blue: channel(seed, k, 12),
    }
}

// One in eight is nothing. Candidates are drawn behind the shapes of the list.
fn offer(seed: u64, k: usize) -> Option<Shape>
    requires { (seed < 1000) × (k < 1024) }
{
    if byte(seed, k + 64, 13) < 32 {
        return None;
    }
    Some(shape(seed, k + 64))
}

fn list_of(seed: u64, n: usize) -> Shapes
    requires { seed < 1000 }
{
    let mut items = [shape(seed, 0); 64];
    for i in 0..64 {
        items[i] = shape(seed, i);
    }
    Shapes { items, count: n }
}

fn draw_target(seed: u64, target: &mut [f32])
    requires { (seed < 1000) × (length target.old ≤ 576) }
{
    for i in 0..target.len() {
        target[i] = channel(seed, i, 14);
    }
}

// ---- what is written

fn number(rt: &impl Print, n: usize) -> io::Result<()> {
    print!(rt; " {n}")
}

fn checksum(p: &[f32]) -> u64 {
    let mut sum = 0u64;
    for x in p {
        sum = (sum * 31 + float::bits32(*x) as u64) % 4294967291;
    }
    sum
}

// The shapes by their opacities.
fn write_list(rt: &impl Print, list: Shapes) -> io::Result<()> {
    print!(rt; " list")?;
    for s in &list.items[..list.count.min(64)] {
        print!(rt; " {:08x}", float::bits32(s.opacity))?;
    }
    Ok(())
}

fn labelled(rt: &impl Print, label: &str, n: usize) -> io::Result<()> {
    print!(rt; "{label} {n}")
}

fn write_counts(
    rt: &impl Print,
    refusal: Option<Refusal>,
    passes: usize,
    trials: usize,
    acceptances: usize,
) -> io::Result<()> {
    let no = match refusal {
        None => 0,
        Some(why) => why.number(),
    };
    labelled(rt, ": refusal", no as usize)?;
    labelled(rt, " passes", passes)?;
    labelled(rt, " trials", trials)?;
    labelled(rt, " accepted", acceptances)
}

fn write_pictures(rt: &impl Print, first: &[f32], second: &[f32]) -> io::Result<()> {
    println!(rt;
        " pictures {:08x} {:08x}",
        checksum(first),
        checksum(second)
    )
}

fn write_answer(rt: &impl Print, r: Refined, first: &[f32], second: &[f32]) -> io::Result<()> {
    write_counts(rt, r.refusal, r.passes, r.trials, r.acceptances)?;
    let list = r.shapes;
    write_list(rt, list)?;
    write_pictures(rt, first, second)
}

// ---- cases

fn offers(seed: u64, m: usize) -> Candidates
    requires { seed < 1000 }
{
    let mut slots = [None; 1024];
    for i in 0..m.min(1024) {
        slots[i] = offer(seed, i);
    }
    Candidates { slots, count: m }
}

// A list of n shapes and m candidates over a target of noise.
fn refined(
    seed: u64,
    w: usize,
    h: usize,
    n: usize,
    m: usize,
    passes: usize,
    target: &[f32],
    first: &mut [f32],
    second: &mut [f32],
) -> Refined
    requires { seed < 1000 }
{
    let candidates = offers(seed, m);
    let list = list_of(seed, n);
    let red = channel(seed, 1999, 0);
    let green = channel(seed, 1999, 1);
    let blue = channel(seed, 1999, 2);
    refine::refine_shapes(
        list, candidates, passes, red, green, blue, w, h, target, first, second,
    )
}

fn heading(
    rt: &impl Print,
    seed: u64,
    w: usize,
    h: usize,
    n: usize,
    m: usize,
    passes: usize,
) -> io::Result<()> {
    print!(rt; "seed {seed}")?;
    labelled(rt, " size", w)?;
    number(rt, h)?;
    labelled(rt, " shapes", n)?;
    labelled(rt, " offers", m)?;
    labelled(rt, " passes", passes)
}

fn case(
    rt: &impl Print,
    seed: u64,
    w: usize,
    h: usize,
    n: usize,
    m: usize,
    passes: usize,
    target: &mut [f32],
    first: &mut [f32],
    second: &mut [f32],
) -> io::Result<()>
    requires { (seed < 1000) × (length target.old ≤ 576) }
{
    heading(rt, seed, w, h, n, m, passes)?;
    draw_target(seed, target);
    let r = refined(seed, w, h, n, m, passes, target, first, second);
    write_answer(rt, r, first, second)
}

fn run(
    rt: &impl Print,
    seed: u64,
    w: usize,
    h: usize,
    n: usize,
    m: usize,
    passes: usize,
) -> io::Result<()>
    requires { (seed < 1000) × (h * w * 3 ≤ 576) }
{
    let mut target = [0.0f32; 576];
    let mut first = [0.0f32; 576];
    let mut second = [0.0f32; 576];
    let end = h * w * 3;
    case(
        rt,
        seed,
        w,
        h,
        n,
        m,
        passes,
        &mut target[0..end],
        &mut first[0..end],
        &mut second[0..end],
    )
}

fn circle(cx: i32, cy: i32, red: f32, green: f32, blue: f32) -> Shape {
    Shape {
        kind: Kind::Circle(cx, cy, 1),
        opacity: 1.0,
        red,
        green,
        blue,
    }
}

fn two_off_the_picture() -> Shapes {
    let off = circle(9, 9, 0.0, 0.0, 0.0);
    Shapes {
        items: [off; 64],
        count: 2,
    }
}

fn one_offer(red: f32, green: f32, blue: f32) -> Candidates {
    let right = circle(2, 0, red, green, blue);
    Candidates {
        slots: [Some(right); 1024],
        count: 1,
    }
}

// Two pixels. Nothing is drawn on them, and the candidate makes the second right, so that the old total is 1 + (r*r + g*g + b*b) / 2^52 and
// the new one is 1. With 1540, 1180, 860 the two are 1e-9 apart, rounded: new + 1e-9 is old.
fn edge(rt: &impl Print, red: f32, green: f32, blue: f32) -> io::Result<()> {
    let step = 67108864.0;
    print!(rt; "edge")?;
    number(rt, float::bits32(red) as usize)?;
    let list = two_off_the_picture();
    let candidates = one_offer(red / step, green / step, blue / step);
    let target = [1.0f32, 0.0, 0.0, red / step, green / step, blue / step];
    let mut first = [0.5f32; 6];
    let mut second = [0.5f32; 6];
    let r = refine::refine_shapes(
        list,
        candidates,
        1,
        0.0,
        0.0,
        0.0,
        2,
        1,
        &target,
        &mut first,
        &mut second,
    );
    write_answer(rt, r, &first, &second)
}

fn runs(rt: &impl Print) -> io::Result<()> {
    // no pass, or fewer than two shapes
    run(rt, 1, 5, 4, 0, 4, 3)?;
    run(rt, 2, 5, 4, 1, 4, 3)?;
    run(rt, 3, 5, 4, 3, 4, 0)?;
    // no candidates: one pass
    run(rt, 4, 5, 4, 3, 0, 3)?;
    // accepted, rejected, mixed; candidates that run out in the middle of a pass
    run(rt, 7, 4, 3, 2, 2, 1)?;
    run(rt, 6, 7, 5, 3, 1, 2)?;
    run(rt, 7, 9, 6, 4, 6, 3)?;
    run(rt, 8, 6, 8, 5, 12, 4)?;
    run(rt, 313, 8, 6, 12, 192, 16)?;
    // at the bounds, and past them
    run(rt, 10, 3, 2, 64, 2, 1)?;
    run(rt, 11, 3, 2, 2, 1024, 16)?;
    run(rt, 12, 3, 2, 65, 2, 1)?;
    run(rt, 13, 3, 2, 2, 1025, 16)?;
    run(rt, 14, 3, 2, 2, 4, 17)?;
    run(rt, 15, 0, 4, 65, 0, 0)
}

// At the margin, a little below and above it.
fn edges(rt: &impl Print) -> io::Result<()> {
    edge(rt, 1540.0, 1180.0, 860.0)?;
    edge(rt, 1541.0, 1180.0, 860.0)?;
    edge(rt, 1539.0, 1180.0, 860.0)?;
    edge(rt, 0.0, 0.0, 0.0)
}

fn main(rt: HostRuntime) -> io::Result<()> {
    runs(&rt)?;
    edges(&rt)
}
