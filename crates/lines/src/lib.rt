// Lines of hexadecimal digits, as they come in and as they go out. Nothing here knows what the bytes mean.
#![tactic(auto)]

ghost use Rattle.std.specs.Prelude.{◌≡◌, ◌+◌, ◌<◌, length};
ghost use Rattle.refusal.specs.Outcomes.{outcome};
ghost use Rattle.lines.specs.Hex.{DecodeHexSays, digit};
ghost use Rattle.lines.specs.Lines.{StartSays, FeedSays, LastSays, WriteLineSays, standing};
ghost use Rattle.lines.specs.Inside.{DigitOf, DigitsIn, AllDigits, SpelledBy};

use refusal::Refusal;

// ---- digits

// The value of a digit in either case.
fn digit_of(c: u8) -> Option<u8>
    ensures { DigitOf c result }
{
    match c {
        b'0'..=b'9' => Some(c - b'0'),
        b'A'..=b'F' => Some(c - b'A' + 10),
        b'a'..=b'f' => Some(c - b'a' + 10),
        _ => None,
    }
}

// Whether every character is a digit.
fn all_digits(line: &[u8]) -> bool
    ensures { DigitsIn line.now result }
{
    for c in line {
        if digit_of(*c).is_none() {
            return false;
        }
    }
    true
}

// Two digits a byte, the high one first.
fn fill(line: &[u8], out: &mut [u8])
    requires { (length line.now ≡ length out.old + length out.old) × AllDigits line.now }
    ensures { SpelledBy line.now out.new }
{
    for i in 0..out.len() {
        let high = digit_of(line[i + i]).unwrap();
        let low = digit_of(line[i + i + 1]).unwrap();
        out[i] = high * 16 + low;
    }
}

// The bytes that a line spells, into the front of `out`: their count. Nothing is written where it spells none, or more than there is room for.
pub fn decode_hex(line: &[u8], out: &mut [u8]) -> Result<usize, Refusal>
    ensures { DecodeHexSays line.now out.old (outcome result) out.new }
{
    let n = line.len() / 2;
    if n == 0 {
        return Err(Refusal::Malformed);
    }
    if n + n != line.len() {
        return Err(Refusal::Malformed);
    }
    if out.len() < n {
        return Err(Refusal::Malformed);
    }
    if !all_digits(line) {
        return Err(Refusal::Malformed);
    }
    fill(line, &mut out[..n]);
    Ok(n)
}

// ---- lines

// A line as it comes in: how many bytes of it are held, whether it was longer than the room, whether its LF has come.
#[derive(Clone, Copy)]
pub struct Line {
    pub held: usize,
    pub over: bool,
    pub ended: bool,
}

// Before the first byte of the input.
pub fn start() -> Line
    ensures { StartSays result }
{
    Line {
        held: 0,
        over: false,
        ended: false,
    }
}

// An ended line makes room for the next.
fn ready(line: Line) -> Line
    ensures { result ≡ standing line }
{
    if line.ended { start() } else { line }
}

// The next byte of the input. A byte that does not fit into `text` is dropped, and the line is over-long until its LF.
pub fn feed(line: Line, b: u8, text: &mut [u8]) -> Line
    ensures { FeedSays line b text.old result text.new }
{
    let s = ready(line);
    let held = s.held;
    if b == b'\n' {
        return Line { ended: true, ..s };
    }
    if held < text.len() {
        text[held] = b;
        Line {
            held: held + 1,
            ended: false,
            ..s
        }
    } else {
        Line {
            over: true,
            ended: false,
            ..s
        }
    }
}

// At the end of the input: whether a line is left that has no LF.
pub fn last(line: Line) -> bool
    ensures { LastSays line result }
{
    !line.ended && (line.over || 0 < line.held)
}

// ---- lines written

// The character of a digit.
fn character(n: u8) -> u8
    requires { n < 16 }
    ensures { result ≡ digit n }
{
    if n < 10 { b'0' + n } else { b'A' - 10 + n }
}

// Digits and LF into the front of `out`. Where there is no room for them, nothing is written and the count is 0.
pub fn write_line(bytes: &[u8], out: &mut [u8]) -> usize
    ensures { WriteLineSays bytes.now out.old result out.new }
{
    if out.len() < bytes.len() + bytes.len() + 1 {
        return 0;
    }
    let n = bytes.len();
    for i in 0..n {
        let b = bytes[i];
        out[i + i] = character(b / 16);
        out[i + i + 1] = character(b % 16);
    }
    out[n + n] = b'\n';
    n + n + 1
}
