// Frames, which are requests as bytes, and answers, apart from the state of any program.
#![tactic(auto)]

ghost use Rattle.std.specs.Prelude.{◌≡◌, [], ◌∷◌, ◌++◌, ◌+◌, ◌<◌, ◌≤◌, length, get_or, take, drop, replicate};
ghost use Rattle.refusal.specs.Outcomes.{outcome};
ghost use Rattle.lines.specs.Lines.{WriteLineSays};
ghost use Rattle.frame.specs.Frames.{DecodeSays, ReadFrameSays, ReadLineSays, unread};
ghost use Rattle.frame.specs.Answers.{fields, WriteAnswerSays};
ghost use Rattle.frame.specs.Inside.{Coordinate, OpacityIn, ShapeFound};

use cover::Kind;
use lines::Line;
use refusal::Refusal;

// ---- frames

// What a frame asks for.
#[derive(Clone, Copy)]
pub enum Request {
    // w, h, r, g, b
    New(u8, u8, u8, u8, u8),
    // y, and how many pixel bytes there are: they stand among the frame's bytes from the third on
    Row(u8, usize),
    // the shape and the bits of its opacity
    Score(Kind, u32),
    Paint(Kind, u32),
}

// A decoded frame with its bytes.
#[derive(Clone, Copy)]
pub struct Read {
    pub frame: Result<Request, Refusal>,
    pub bytes: [u8; 50],
}

// Two bytes, big-endian and signed.
fn signed(high: u8, low: u8) -> i32
    ensures { Coordinate high low result }
{
    i32::from(i16::from_be_bytes([high, low]))
}

fn coordinate(bytes: &[u8], at: usize) -> i32
    requires { at + 1 < length bytes.now }
    ensures { Coordinate (get_or bytes.now at 0) (get_or bytes.now (at + 1) 0) result }
{
    signed(bytes[at], bytes[at + 1])
}

// Four bytes, big-endian.
fn opacity_of(bytes: &[u8]) -> u32
    requires { 6 ≤ length bytes.now }
    ensures { OpacityIn bytes.now result }
{
    u32::from_be_bytes([bytes[2], bytes[3], bytes[4], bytes[5]])
}

// A frame's kind, the bits of its opacity and its coordinates: all bytes after its number.
fn shape_of(bytes: &[u8]) -> Option<(Kind, u32)>
    ensures { ShapeFound bytes.now result }
{
    if bytes.len() < 6 {
        return None;
    }
    let opacity = opacity_of(bytes);
    match (bytes[1], bytes.len()) {
        (1, 12) => Some((
            Kind::Circle(
                coordinate(bytes, 6),
                coordinate(bytes, 8),
                coordinate(bytes, 10),
            ),
            opacity,
        )),
        (2, 18) => Some((
            Kind::Triangle(
                coordinate(bytes, 6),
                coordinate(bytes, 8),
                coordinate(bytes, 10),
                coordinate(bytes, 12),
                coordinate(bytes, 14),
                coordinate(bytes, 16),
            ),
            opacity,
        )),
        (3, 22) => Some((
            Kind::Quad(
                coordinate(bytes, 6),
                coordinate(bytes, 8),
                coordinate(bytes, 10),
                coordinate(bytes, 12),
                coordinate(bytes, 14),
                coordinate(bytes, 16),
                coordinate(bytes, 18),
                coordinate(bytes, 20),
            ),
            opacity,
        )),
        _ => None,
    }
}

fn decode_new(bytes: &[u8]) -> Result<Request, Refusal>
    requires { (0 < length bytes.now) × (get_or bytes.now 0 0 ≡ 1) }
    ensures { DecodeSays bytes.now (outcome result) }
{
    if bytes.len() != 6 {
        return Err(Refusal::Malformed);
    }
    Ok(Request::New(bytes[1], bytes[2], bytes[3], bytes[4], bytes[5]))
}

fn decode_row(bytes: &[u8]) -> Result<Request, Refusal>
    requires { (0 < length bytes.now) × (get_or bytes.now 0 0 ≡ 2) }
    ensures { DecodeSays bytes.now (outcome result) }
{
    let n = bytes.len();
    if n < 2 {
        return Err(Refusal::Malformed);
    }
    if 50 < n {
        return Err(Refusal::Malformed);
    }
    Ok(Request::Row(bytes[1], n - 2))
}

// 03 scores a shape and 04 paints it.
fn decode_shape(bytes: &[u8]) -> Result<Request, Refusal>
    requires { (0 < length bytes.now) × (3 ≤ get_or bytes.now 0 0) × (get_or bytes.now 0 0 ≤ 4) }
    ensures { DecodeSays bytes.now (outcome result) }
{
    let Some((kind, opacity)) = shape_of(bytes) else {
        return Err(Refusal::Malformed);
    };
    if bytes[0] == 3 {
        return Ok(Request::Score(kind, opacity));
    }
    Ok(Request::Paint(kind, opacity))
}

// The request that bytes ask for.
pub fn decode(bytes: &[u8]) -> Result<Request, Refusal>
    ensures { DecodeSays bytes.now (outcome result) }
{
    if bytes.len() == 0 {
        return Err(Refusal::Malformed);
    }
    match bytes[0] {
        1 => decode_new(bytes),
        2 => decode_row(bytes),
        3 | 4 => decode_shape(bytes),
        _ => Err(Refusal::Malformed),
    }
}

// A refused line.
fn unread() -> Read
    ensures { result ≡ unread }
{
    Read {
        frame: Err(Refusal::Malformed),
        bytes: [0u8; 50],
    }
}

// The request that a line asks for.
pub fn read_frame(line: &[u8]) -> Read
    ensures { ReadFrameSays line.now result }
{
    let mut bytes = [0u8; 50];
    let Ok(n) = lines::decode_hex(line, &mut bytes) else {
        return unread();
    };
    let Ok(request) = decode(&bytes[..n]) else {
        return unread();
    };
    Read {
        frame: Ok(request),
        bytes,
    }
}

// The request that the line in `text` asks for, as `feed` left it there.
pub fn read_line(line: Line, text: &[u8]) -> Read
    ensures { ReadLineSays line text.now result }
{
    let held = line.held;
    if line.over {
        return unread();
    }
    if text.len() < held {
        return unread();
    }
    read_frame(&text[..held])
}

// ---- answers

// What a score answers; floats as their bits.
#[derive(Clone, Copy)]
pub struct Values {
    pub count: u32,
    pub change: u32,
    pub red: u32,
    pub green: u32,
    pub blue: u32,
}

// What a line is answered.
// Kept: `Refused` holds a number, see there.
#[derive(Clone, Copy)]
pub enum Answer {
    // 81: a new picture
    Made,
    // 82: a target row
    Set,
    // 83
    Scored(Values),
    // 84, with the bits of the total after
    Painted(Values, u64),
    // FF and the number. Kept: what may not change needs a number here, not a `Refusal` (run_frame writes Refused(255)).
    Refused(u8),
}

// A part of an answer, from a place on.
fn put_at(out: &mut [u8], at: usize, part: &[u8])
    requires { at + length part.now ≤ length out.old }
    ensures { out.new ≡ take at out.old ++ (part.now ++ drop (at + length part.now) out.old) }
{
    out[at..at + part.len()].copy_from_slice(part);
}

// The bytes of an answer that begins with a score's values, and room for a total.
fn begun(first: u8, v: Values) -> [u8; 29]
    ensures { result ≡ first ∷ fields v ++ replicate 8 0 }
{
    let mut bytes = [0u8; 29];
    bytes[0] = first;
    put_at(&mut bytes, 1, &v.count.to_be_bytes());
    put_at(&mut bytes, 5, &v.change.to_be_bytes());
    put_at(&mut bytes, 9, &v.red.to_be_bytes());
    put_at(&mut bytes, 13, &v.green.to_be_bytes());
    put_at(&mut bytes, 17, &v.blue.to_be_bytes());
    bytes
}

fn write_one(first: u8, out: &mut [u8]) -> usize
    ensures { WriteLineSays (first ∷ []) out.old result out.new }
{
    let bytes = [first];
    lines::write_line(&bytes, out)
}

fn write_scored(v: Values, out: &mut [u8]) -> usize
    ensures { WriteAnswerSays (Answer.Scored v) out.old result out.new }
{
    let bytes = begun(0x83, v);
    lines::write_line(&bytes[0..21], out)
}

fn write_painted(v: Values, total: u64, out: &mut [u8]) -> usize
    ensures { WriteAnswerSays (Answer.Painted v total) out.old result out.new }
{
    let mut bytes = begun(0x84, v);
    put_at(&mut bytes, 21, &total.to_be_bytes());
    lines::write_line(&bytes, out)
}

fn write_refused(number: u8, out: &mut [u8]) -> usize
    ensures { WriteAnswerSays (Answer.Refused number) out.old result out.new }
{
    let bytes = [0xff, number];
    lines::write_line(&bytes, out)
}

// An answer's line, into the front of `out`: its count of bytes, or 0 where there is no room for it.
pub fn write_answer(a: Answer, out: &mut [u8]) -> usize
    ensures { WriteAnswerSays a out.old result out.new }
{
    match a {
        Answer::Made => write_one(0x81, out),
        Answer::Set => write_one(0x82, out),
        Answer::Scored(v) => write_scored(v, out),
        Answer::Painted(v, total) => write_painted(v, total, out),
        Answer::Refused(number) => write_refused(number, out),
    }
}
