// Runs through the Rust's stored answers (standard input, made by oracle/stored), on the whole-number functions and on covered pixels, and
// says how many there are and how many of ours differ. A line that does not read as oracle/answers.rs writes it counts as a difference.
#![tactic(auto)]

use cover::Kind;
use std::io;
use std::io::Read;
use words::scan;

#[derive(Clone, Copy)]
struct Tally {
    cases: u64,
    differences: u64,
}

// ---- a whole-number function: arguments, "=", one answer

fn number_agrees(name: &[u8], n: usize, x: i64, y: i64, answer: i64) -> bool {
    if check::same(name, b"isqrt_i64") {
        return n == 1 && whole::isqrt_i64(x) == answer;
    }
    if check::same(name, b"div_floor_i64") {
        return n == 2 && whole::div_floor_i64(x, y) == answer;
    }
    if check::same(name, b"div_ceil_i64") {
        return n == 2 && whole::div_ceil_i64(x, y) == answer;
    }
    false
}

// ---- a shape: w, h, coordinates, a row, "=", the count, both ends

// n numbers are given, with two sizes and a row among them.
fn shape(name: &[u8], n: usize, p: &[u64; 12]) -> Option<Kind> {
    let x0 = words::signed32(p[2]);
    let y0 = words::signed32(p[3]);
    let x1 = words::signed32(p[4]);
    if check::same(name, b"circle") {
        if n == 6 {
            return Some(Kind::Circle(x0, y0, x1));
        }
        return None;
    }
    let y1 = words::signed32(p[5]);
    let x2 = words::signed32(p[6]);
    let y2 = words::signed32(p[7]);
    if check::same(name, b"triangle") {
        if n == 9 {
            return Some(Kind::Triangle(x0, y0, x1, y1, x2, y2));
        }
        return None;
    }
    let x3 = words::signed32(p[8]);
    let y3 = words::signed32(p[9]);
    if check::same(name, b"quad") {
        if n == 11 {
            return Some(Kind::Quad(x0, y0, x1, y1, x2, y2, x3, y3));
        }
    }
    None
}

fn counts(kind: Kind, w: u64, h: u64, count: i64) -> bool {
    let Ok(n) = cover::count_covered(kind, w as usize, h as usize) else {
        return false;
    };
    n as i64 == count
}

fn ends(kind: Kind, w: u64, h: u64, y: i32, left: i64, right: i64) -> bool {
    let e = cover::row_ends(kind, w as usize, h as usize, y);
    match e {
        Ok(Some(c)) => c.first as i64 == left && c.last as i64 == right,
        Ok(None) => left == -9 && right == -9,
        Err(_) => false,
    }
}

fn shape_agrees(name: &[u8], n: usize, given: &[u64; 12], wanted: &[u64; 4]) -> bool {
    let Some(kind) = shape(name, n, given) else {
        return false;
    };
    let row = if n == 6 {
        given[5]
    } else {
        if n == 9 { given[8] } else { given[10] }
    };
    let y = words::signed32(row);
    let count = words::signed(wanted[0]);
    let left = words::signed(wanted[1]);
    let right = words::signed(wanted[2]);
    counts(kind, given[0], given[1], count) && ends(kind, given[0], given[1], y, left, right)
}

// ---- lines

// One line: a name, numbers, "=", answers.
fn agrees(line: &[u8]) -> bool {
    let Some(name) = scan::find(line, 0, b' ') else {
        return false;
    };
    let Some(equals) = scan::find(line, name, b'=') else {
        return false;
    };
    if line.len() - equals < 2 {
        return false;
    }
    let mut given = [0u64; 12];
    let mut wanted = [0u64; 4];
    let n = words::numbers(&line[name + 1..], &mut given);
    let m = words::numbers(&line[equals + 2..], &mut wanted);
    if m == 3 {
        return shape_agrees(&line[0..name], n, &given, &wanted);
    }
    let x = words::signed(given[0]);
    let y = words::signed(given[1]);
    let answer = words::signed(wanted[0]);
    m == 1 && number_agrees(&line[0..name], n, x, y, answer)
}

// Kept: `same` picks nothing, it is what is counted.
fn counted(t: Tally, same: bool) -> Tally {
    Tally {
        cases: t.cases.wrapping_add(1),
        differences: t.differences.wrapping_add(if same { 0 } else { 1 }),
    }
}

// Every line.
fn replay(text: &[u8]) -> Tally {
    let mut t = Tally {
        cases: 0,
        differences: 0,
    };
    for line in text.split_inclusive(|b| *b == b'\n') {
        t = counted(t, agrees(line.strip_suffix(b"\n").unwrap_or(line)));
    }
    t
}

fn main(rt: HostRuntime) -> io::Result<()> {
    let mut text = Vec::new(rt.alloc());
    rt.stdin().read_to_end(&mut text)?;
    let t = replay(&text);
    println!(rt; "{} cases, {} differences", t.cases, t.differences)
}
