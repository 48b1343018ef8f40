// Published IEEE 754 vectors (Berkeley TestFloat, data/ORIGIN.md), run and compared: a line for each file.
// The vectors of narrowing and widening go through our functions, those of + - * / through the language's own operators.
// A result that is a NaN is compared as "is a NaN": both sides are put into the one form that float::bits32 and bits64 give.
#![tactic(auto)]

ghost use Rattle.std.specs.Prelude.{◌<◌, IfSome};

use std::fs::File;
use std::io;
use std::io::Read;
use std::rt::Files;

// The operations that the files have vectors of.
#[derive(Clone, Copy)]
enum Operation {
    Narrow,
    Widen,
    Add32,
    Sub32,
    Mul32,
    Add64,
    Sub64,
    Mul64,
    Div64,
}

// A line as far as it is read: the last three words before the one that is being read, that one, and the counts so far.
#[derive(Clone, Copy)]
struct Reading {
    words: [u64; 4],
    lines: u64,
    differences: u64,
}

fn of32(w: u64) -> f32 {
    float::of_bits32((w % 0x1_0000_0000) as u32)
}

fn of64(w: u64) -> f64 {
    float::of_bits64(w)
}

fn same32(x: f32, w: u64) -> bool {
    float::bits32(x) == float::bits32(of32(w))
}

fn same64(x: f64, w: u64) -> bool {
    float::bits64(x) == float::bits64(of64(w))
}

// Both of the narrowings give the result.
fn narrows(b: u64, c: u64) -> bool {
    let bits = float::narrow_bits(b) == float::bits32(of32(c));
    let value = same32(float::narrow(of64(b)), c);
    bits & value
}

// At the end of a line, which has the flags for its last word. Its words are the operation's operands a and b and its result c, or, of a
// conversion, the operand b and its result c.
fn ended<F: Fn(u64, u64, u64) -> bool>(r: Reading, agrees: &F) -> Reading
    requires { F.IsAlwaysCallable agrees.now }
{
    let [a, b, c, _] = r.words;
    let wrong = if agrees(a, b, c) { 0 } else { 1 };
    Reading {
        words: [0; 4],
        lines: r.lines.wrapping_add(1),
        differences: r.differences.wrapping_add(wrong),
    }
}

// The value of a capital hexadecimal digit.
fn digit(byte: u8) -> Option<u64> {
    match byte {
        b'0'..=b'9' => Some(u64::from(byte - b'0')),
        b'A'..=b'F' => Some(u64::from(byte - b'A' + 10)),
        _ => None,
    }
}

fn read<F: Fn(u64, u64, u64) -> bool>(r: Reading, agrees: &F, byte: u8) -> Reading
    requires { F.IsAlwaysCallable agrees.now }
{
    let [a, b, c, word] = r.words;
    if byte == b'\n' {
        return ended(r, agrees);
    }
    if byte == b' ' {
        return Reading {
            words: [b, c, word, 0],
            ..r
        };
    }
    match digit(byte) {
        Some(d) => Reading {
            words: [a, b, c, word.wrapping_mul(16).wrapping_add(d)],
            ..r
        },
        // a byte that no vector has counts as a difference
        None => Reading {
            differences: r.differences.wrapping_add(1),
            ..r
        },
    }
}

fn run<F: Fn(u64, u64, u64) -> bool>(
    rt: &(impl Files + Print),
    name: &str,
    agrees: &F,
) -> io::Result<()>
    requires { F.IsAlwaysCallable agrees.now }
{
    let mut file = File::open(rt, name)?;
    let mut r = Reading {
        words: [0; 4],
        lines: 0,
        differences: 0,
    };
    let mut buf = [0u8; 65536];
    for _ in 0..u64::MAX {
        let n = file.read(&mut buf)?;
        if n == 0 {
            break;
        }
        for byte in &buf[..n] {
            r = read(r, agrees, *byte);
        }
    }
    println!(rt; "{name}: {} lines, {} differences", r.lines, r.differences)
}

fn main(rt: HostRuntime) -> io::Result<()> {
    run(&rt, "f64_to_f32.txt", &|_, b, c| narrows(b, c))?;
    run(
        &rt,
        "f32_to_f64.txt",
        &|_, b, c| same64(float::widen(of32(b)), c),
    )?;
    run(&rt, "f32_add.txt", &|a, b, c| same32(of32(a) + of32(b), c))?;
    run(&rt, "f32_sub.txt", &|a, b, c| same32(of32(a) - of32(b), c))?;
    run(&rt, "f32_mul.txt", &|a, b, c| same32(of32(a) * of32(b), c))?;
    run(&rt, "f64_add.txt", &|a, b, c| same64(of64(a) + of64(b), c))?;
    run(&rt, "f64_sub.txt", &|a, b, c| same64(of64(a) - of64(b), c))?;
    run(&rt, "f64_mul.txt", &|a, b, c| same64(of64(a) * of64(b), c))?;
    run(&rt, "f64_div.txt", &|a, b, c| same64(of64(a) / of64(b), c))
}
