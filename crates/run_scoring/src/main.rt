// The scoring calls on a picture of 7 by 5: scores by spans and by points, sums, sweeps, levels, and refusals, several wrong at once.
// It reads its cases from standard input, one a line. tools/score-figures writes them and works out the answers.
//
//   spans-opacity OPACITY LENT AT BAD W H NUMBERS OTHERS : SHAPE   a score, by spans; points-opacity: by points
//   spans-levels COUNT LENT AT BAD W H NUMBERS OTHERS : SHAPE      the best of so many levels; points-levels
//   spans-sums W H NUMBERS OTHERS : SHAPE                          the sums alone; points-sums
//   sweep COUNT LENT AT BAD PIXELS T C TT CC TC                    the best of so many levels, from sums
//   levels BITS LENT                                               the levels themselves
//
// LENT levels are lent, with BAD in place AT. Of the table NUMBERS are lent; or of the target, and OTHERS of the canvas. SHAPE is a name
// and coordinates. A number behind x is a float's bits. A line that does not read so is a bad line.
#![tactic(auto)]

ghost use Rattle.std.specs.Prelude.{◌≤◌, length, IfOk};

mod answers;
mod calls;
mod shapes;

use answers::answer;
use calls::{By, Call, called};
use cover::Kind;
use score::Request;
use shapes::{bits32, float32, shape};
use std::io;
use std::io::Read;
use sums::ShapeSums;
use words::scan;

// 64 levels of 6 bits, six more numbers, and one of them another.
fn fill_levels(levels: &mut [f32; 70], at: u64, bad: u64) {
    let _ = grade::levels::alpha_levels(6, &mut levels[0..64]);
    if at < 70 {
        levels[at as usize] = float32(bad);
    }
}

// W, H, NUMBERS, OTHERS behind four others.
fn with_levels(
    rt: &impl Print,
    by: By,
    kind: Kind,
    request: Request,
    levels: &[f32],
    p: &[u64; 11],
) -> io::Result<bool> {
    called(
        rt,
        by,
        kind,
        Call::Score(request),
        levels,
        p[4] as usize,
        p[5] as usize,
        p[6] as usize,
        p[7] as usize,
    )
}

// OPACITY or COUNT, LENT, AT, BAD, W, H, NUMBERS, OTHERS.
fn score_line(
    rt: &impl Print,
    by: By,
    kind: Kind,
    request: Request,
    p: &[u64; 11],
) -> io::Result<bool> {
    let mut levels = [0.5f32; 70];
    fill_levels(&mut levels, p[2], p[3]);
    let Some(lent) = levels.get(..p[1] as usize) else {
        return Ok(false);
    };
    with_levels(rt, by, kind, request, lent, p)
}

// W, H, NUMBERS, OTHERS.
fn sums_line(rt: &impl Print, by: By, kind: Kind, p: &[u64; 11]) -> io::Result<bool> {
    let levels = [0.0f32; 1];
    called(
        rt,
        by,
        kind,
        Call::Sums,
        &levels,
        p[0] as usize,
        p[1] as usize,
        p[2] as usize,
        p[3] as usize,
    )
}

fn sums_called(rt: &impl Print, name: &[u8], p: &[u64; 11], kind: Kind) -> io::Result<bool> {
    if check::same(name, b"spans-sums") {
        return sums_line(rt, By::Spans, kind, p);
    }
    if check::same(name, b"points-sums") {
        return sums_line(rt, By::Points, kind, p);
    }
    Ok(false)
}

fn opacity_called(rt: &impl Print, name: &[u8], p: &[u64; 11], kind: Kind) -> io::Result<bool> {
    if check::same(name, b"spans-opacity") {
        return score_line(rt, By::Spans, kind, Request::Opacity(float32(p[0])), p);
    }
    if check::same(name, b"points-opacity") {
        return score_line(rt, By::Points, kind, Request::Opacity(float32(p[0])), p);
    }
    Ok(false)
}

fn levels_called(rt: &impl Print, name: &[u8], p: &[u64; 11], kind: Kind) -> io::Result<bool> {
    if check::same(name, b"spans-levels") {
        return score_line(rt, By::Spans, kind, Request::Levels(p[0] as usize), p);
    }
    if check::same(name, b"points-levels") {
        return score_line(rt, By::Points, kind, Request::Levels(p[0] as usize), p);
    }
    Ok(false)
}

fn shape_line(
    rt: &impl Print,
    name: &[u8],
    n: usize,
    p: &[u64; 11],
    kind: Kind,
) -> io::Result<bool> {
    if n == 4 {
        return sums_called(rt, name, p, kind);
    }
    if n == 8 {
        return Ok(opacity_called(rt, name, p, kind)? || levels_called(rt, name, p, kind)?);
    }
    Ok(false)
}

// PIXELS, and sums that are the same in each channel.
fn sums_of(p: &[u64; 11]) -> ShapeSums {
    let t = float::of_bits64(p[5]);
    let c = float::of_bits64(p[6]);
    let tt = float::of_bits64(p[7]);
    let cc = float::of_bits64(p[8]);
    let tc = float::of_bits64(p[9]);
    ShapeSums {
        s_t: [t, t, t],
        s_c: [c, c, c],
        s_t2: [tt, tt, tt],
        s_c2: [cc, cc, cc],
        s_tc: [tc, tc, tc],
        count: bits32(p[4]),
    }
}

// COUNT, LENT, AT, BAD, and the sums.
fn sweep_line(rt: &impl Print, p: &[u64; 11]) -> io::Result<bool> {
    let mut levels = [0.5f32; 70];
    fill_levels(&mut levels, p[2], p[3]);
    let Some(lent) = levels.get(..p[1] as usize) else {
        return Ok(false);
    };
    answer(
        rt,
        grade::sweeps::alpha_sweep(sums_of(p), lent, p[0] as usize),
    )?;
    Ok(true)
}

fn eight_across(rt: &impl Print, levels: &[f32]) -> io::Result<()> {
    figures::numbers(rt, levels, 8)?;
    if levels.len() % 8 != 0 {
        println!(rt)?;
    }
    Ok(())
}

fn levels_on(rt: &impl Print, bits: u32, levels: &mut [f32]) -> io::Result<()> {
    let no = refusal::number_of(grade::levels::alpha_levels(bits, levels));
    println!(rt; "{no}")?;
    eight_across(rt, levels)
}

// BITS, LENT.
fn levels_line(rt: &impl Print, p: &[u64; 11]) -> io::Result<bool> {
    let mut levels = [7.0f32; 70];
    let Some(lent) = levels.get_mut(..p[1] as usize) else {
        return Ok(false);
    };
    levels_on(rt, bits32(p[0]), lent)?;
    Ok(true)
}

// ---- lines

fn shape_behind_colon(text: &[u8]) -> Option<Kind> {
    let colon = scan::find(text, 0, b':')?;
    shape(text.get(colon + 2..)?)
}

fn named_line(
    rt: &impl Print,
    name: &[u8],
    rest: &[u8],
    n: usize,
    p: &[u64; 11],
) -> io::Result<bool> {
    if n == 2 && check::same(name, b"levels") {
        return levels_line(rt, p);
    }
    if n == 10 && check::same(name, b"sweep") {
        return sweep_line(rt, p);
    }
    let Some(kind) = shape_behind_colon(rest) else {
        return Ok(false);
    };
    shape_line(rt, name, n, p, kind)
}

fn one(rt: &impl Print, line: &[u8]) -> io::Result<bool> {
    let Some(name) = scan::find(line, 0, b' ') else {
        return Ok(false);
    };
    let mut p = [0u64; 11];
    let n = words::numbers(&line[name + 1..], &mut p);
    named_line(rt, &line[0..name], &line[name + 1..], n, &p)
}

fn each(rt: &impl Print, text: &[u8]) -> io::Result<()> {
    for line in text.split_inclusive(|b| *b == b'\n') {
        if !one(rt, line.strip_suffix(b"\n").unwrap_or(line))? {
            println!(rt; "bad line")?;
        }
    }
    Ok(())
}

// What standard input has, as far as there is room.
fn read_full(input: &mut impl io::Read, text: &mut [u8]) -> io::Result<usize>
    ensures { IfOk result (λ n. n ≤ length text.new) }
{
    let mut n = 0;
    for _ in 0..u64::MAX {
        let got = input.read(&mut text[n..])?;
        if got == 0 {
            break;
        }
        n += got;
    }
    Ok(n)
}

fn main(rt: HostRuntime) -> io::Result<()> {
    let mut text = [0u8; 65536];
    let n = read_full(&mut rt.reader(), &mut text)?;
    each(&rt, &text[..n])
}
