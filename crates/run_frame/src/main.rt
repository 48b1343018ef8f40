// Reads every line of standard input, byte by byte, and writes what it decodes to; then inputs that end in other ways, then answers.
#![tactic(auto)]

use cover::Kind;
use frame::{Answer, Read, Request, Values};
use lines::Line;
use refusal::Refusal;
use std::io;
use std::io::Read as _;

fn shape(rt: &impl Print, name: &str, k: Kind, opacity: u32) -> io::Result<()> {
    match k {
        Kind::Circle(cx, cy, r) => print!(rt; "{name} circle {cx} {cy} {r}")?,
        Kind::Triangle(x0, y0, x1, y1, x2, y2) => {
            print!(rt; "{name} triangle {x0} {y0} {x1} {y1} {x2} {y2}")?;
        }
        Kind::Quad(x0, y0, x1, y1, x2, y2, x3, y3) => {
            print!(rt; "{name} quad {x0} {y0} {x1} {y1} {x2} {y2} {x3} {y3}")?;
        }
    }
    println!(rt; " opacity {opacity:08x}")
}

fn line_of(rt: &impl Print, bytes: &[u8]) -> io::Result<()> {
    let mut out = [0u8; 100];
    let k = lines::write_line(bytes, &mut out);
    rt.write_all(&out[..k])
}

// A row without its pixels, whose line goes on.
fn what(rt: &impl Print, frame: Result<Request, Refusal>) -> io::Result<()> {
    match frame {
        Ok(Request::New(w, h, r, g, b)) => println!(rt; "new {w} {h} {r} {g} {b}"),
        Ok(Request::Row(y, n)) => print!(rt; "row {y} of {n}"),
        Ok(Request::Score(k, opacity)) => shape(rt, "score", k, opacity),
        Ok(Request::Paint(k, opacity)) => shape(rt, "paint", k, opacity),
        Err(refusal) => println!(rt; "refused {}", refusal.number()),
    }
}

// A row's pixels are written back as digits. Whether the bytes behind a refusal, and after a frame, are zeros is not shown by the kinds of
// frame alone: the first two and the last are written too.
fn read(rt: &impl Print, r: Read) -> io::Result<()> {
    let Read { frame, bytes } = r;
    what(rt, frame)?;
    if let Ok(Request::Row(_, n)) = frame {
        print!(rt; ": ")?;
        if n <= 48 {
            line_of(rt, &bytes[2..n + 2])?;
        }
    }
    let [first, second, .., last] = bytes;
    println!(rt; "  bytes {first} {second} {last}")
}

fn steps(rt: &impl Print, before: Line, came: &[u8], text: &mut [u8]) -> io::Result<Line> {
    let mut line = before;
    for b in came {
        line = lines::feed(line, *b, text);
        if line.ended {
            read(rt, frame::read_line(line, text))?;
        }
    }
    Ok(line)
}

fn finish(rt: &impl Print, line: Line, text: &[u8]) -> io::Result<()> {
    if lines::last(line) {
        read(rt, frame::read_line(line, text))?;
    }
    Ok(())
}

fn standard_input(rt: &(impl Input + Print)) -> io::Result<()> {
    let mut text = [0u8; 100];
    let mut line = lines::start();
    let mut input = rt.reader();
    let mut buf = [0u8; 4096];
    for _ in 0..u64::MAX {
        let n = input.read(&mut buf)?;
        if n == 0 {
            break;
        }
        line = steps(rt, line, &buf[..n], &mut text)?;
    }
    finish(rt, line, &text)
}

// An input of its own.
fn run(rt: &impl Print, input: &[u8]) -> io::Result<()> {
    println!(rt; "--")?;
    let mut text = [0u8; 100];
    let line = steps(rt, lines::start(), input, &mut text)?;
    finish(rt, line, &text)
}

// Bytes without a line.
fn bare(rt: &impl Print, bytes: &[u8]) -> io::Result<()> {
    let frame = frame::decode(bytes);
    what(rt, frame)?;
    if let Ok(Request::Row(_, _)) = frame {
        println!(rt)?;
    }
    Ok(())
}

fn bares(rt: &impl Print) -> io::Result<()> {
    bare(rt, b"")?;
    bare(rt, b"\x01")?;
    bare(rt, b"\x02")?;
    bare(rt, b"\x02\x10")?;
    bare(rt, &[2u8; 49])?;
    bare(rt, &[2u8; 50])?;
    bare(rt, &[2u8; 51])?;
    bare(rt, &[2u8; 60])
}

// Digits without a frame, into a buffer of four bytes.
fn spelled(rt: &impl Print, line: &[u8]) -> io::Result<()> {
    let mut out = [42u8; 4];
    match lines::decode_hex(line, &mut out) {
        Ok(n) => print!(rt; "{n}")?,
        Err(refusal) => print!(rt; "refused {}", refusal.number())?,
    }
    let [a, b, c, d] = out;
    println!(rt; " {a} {b} {c} {d}")
}

fn spellings(rt: &impl Print) -> io::Result<()> {
    spelled(rt, b"")?;
    spelled(rt, b"0")?;
    spelled(rt, b"0a")?;
    spelled(rt, b"0A1b")?;
    spelled(rt, b"fFfE0100")?;
    spelled(rt, b"fFfE010")?;
    spelled(rt, b"fFfE01002a")?;
    spelled(rt, b"0102030g")?;
    spelled(rt, b"g1020304")
}

// What `write_answer` writes, and what it leaves after it.
fn answer(rt: &impl Print, a: Answer) -> io::Result<()> {
    let mut out = [42u8; 100];
    let n = frame::write_answer(a, &mut out);
    print!(rt; "{n} ")?;
    if n < 100 {
        rt.write_all(&out[..n])?;
        println!(rt; " {}", out[n])?;
    }
    Ok(())
}

// A buffer that has room for five characters.
fn small(rt: &impl Print, a: Answer) -> io::Result<()> {
    let mut out = [42u8; 5];
    let n = frame::write_answer(a, &mut out);
    print!(rt; "{n} ")?;
    rt.write_all(&out)?;
    println!(rt)
}

fn values(count: u32, change: u32, colour: u32) -> Values {
    Values {
        count,
        change,
        red: colour,
        green: 0x9abcdef0,
        blue: 0xffffffff,
    }
}

fn answers(rt: &impl Print) -> io::Result<()> {
    answer(rt, Answer::Made)?;
    answer(rt, Answer::Set)?;
    answer(rt, Answer::Scored(values(1, 0xc0100000, 0x3f800000)))?;
    answer(
        rt,
        Answer::Painted(values(256, 0x01020304, 0), 0x3fe8000000000000),
    )?;
    answer(
        rt,
        Answer::Painted(values(0xfffffffe, 0x0a0b0c0d, 0x10), 0xfedcba9876543210),
    )?;
    answer(rt, Answer::Refused(8))?;
    answer(rt, Answer::Refused(255))?;
    small(rt, Answer::Made)?;
    small(rt, Answer::Refused(1))?;
    small(rt, Answer::Scored(values(0, 0, 0)))
}

fn main(rt: HostRuntime) -> io::Result<()> {
    standard_input(&rt)?;
    run(&rt, b"")?;
    run(&rt, b"\n")?;
    run(&rt, b"\n\n")?;
    run(&rt, b"010203040506")?;
    run(&rt, b"010203040506\n")?;
    run(&rt, b"\n010203040506")?;
    run(&rt, b"0")?;
    bares(&rt)?;
    spellings(&rt)?;
    answers(&rt)
}
