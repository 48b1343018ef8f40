// What a line says: numbers, and a shape's name and coordinates.
use cover::Kind;
use words::scan;

pub(crate) fn bits32(p: u64) -> u32 {
    (p % 0x1_0000_0000) as u32
}

pub(crate) fn float32(p: u64) -> f32 {
    float::of_bits32(bits32(p))
}

fn named_shape(name: &[u8], p: &[u64]) -> Option<Kind> {
    match p {
        [x, y, r] if check::same(name, b"circle") => Some(Kind::Circle(
            words::signed32(*x),
            words::signed32(*y),
            words::signed32(*r),
        )),
        [x0, y0, x1, y1, x2, y2] if check::same(name, b"triangle") => Some(Kind::Triangle(
            words::signed32(*x0),
            words::signed32(*y0),
            words::signed32(*x1),
            words::signed32(*y1),
            words::signed32(*x2),
            words::signed32(*y2),
        )),
        [x0, y0, x1, y1, x2, y2, x3, y3] if check::same(name, b"quad") => Some(Kind::Quad(
            words::signed32(*x0),
            words::signed32(*y0),
            words::signed32(*x1),
            words::signed32(*y1),
            words::signed32(*x2),
            words::signed32(*y2),
            words::signed32(*x3),
            words::signed32(*y3),
        )),
        _ => None,
    }
}

pub(crate) fn shape(text: &[u8]) -> Option<Kind> {
    let name = scan::find(text, 0, b' ')?;
    let mut p = [0u64; 9];
    let n = words::numbers(&text[name + 1..], &mut p);
    named_shape(&text[0..name], &p[..n])
}
