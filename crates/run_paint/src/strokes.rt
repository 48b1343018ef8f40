// Shapes on a picture of 4 columns and 3 rows.
use crate::MARK;
use cover::Kind;
use picture::Colour;
use std::io;

// The numbers written of a marked table, row by row.
fn rows_redone(
    rt: &impl Print,
    target: &[f32; 36],
    kind: Kind,
    opacity: f32,
    colour: Colour,
) -> io::Result<()> {
    let mut canvas = [0.0f32; 36];
    figures::slope(&mut canvas, 0.9, -0.02);
    let mut marked = [MARK; 225];
    let _ = paint::paint(
        kind,
        opacity,
        colour,
        4,
        3,
        target,
        &mut canvas,
        &mut marked,
    );
    let marks = [MARK; 75];
    print!(rt; ", written")?;
    for (y, row) in marked.chunks_exact(75).enumerate() {
        print!(rt; " {y}:{}", figures::differing(row, &marks))?;
    }
    Ok(())
}

fn stroke(
    rt: &impl Print,
    name: &str,
    kind: Kind,
    opacity: f32,
    red: f32,
    green: f32,
    blue: f32,
) -> io::Result<()> {
    let colour = Colour { red, green, blue };
    let mut target = [0.0f32; 36];
    let mut canvas = [0.0f32; 36];
    crate::slopes(&mut target, &mut canvas);
    let mut places = [0.0; 225];
    let _ = table::build(&target, &canvas, 4, 3, &mut places);
    let answer = paint::paint(
        kind,
        opacity,
        colour,
        4,
        3,
        &target,
        &mut canvas,
        &mut places,
    );
    print!(rt; "{name}: {}", refusal::number_of(answer))?;
    rows_redone(rt, &target, kind, opacity, colour)?;
    let mut fresh = [0.0; 225];
    let _ = table::build(&target, &canvas, 4, 3, &mut fresh);
    crate::verdict(rt, &places, &fresh)?;
    figures::numbers(rt, &canvas, 12)
}

fn half_red(rt: &impl Print, name: &str, kind: Kind) -> io::Result<()> {
    stroke(rt, name, kind, 0.5, 1.0, 0.25, 0.0)
}

pub(crate) fn inside(rt: &impl Print) -> io::Result<()> {
    half_red(rt, "circle (1,1) r 1", Kind::Circle(1, 1, 1))?;
    stroke(
        rt,
        "circle (0,0) r 1",
        Kind::Circle(0, 0, 1),
        0.3,
        0.1,
        0.7,
        1.0,
    )?;
    stroke(
        rt,
        "triangle (0,0),(3,0),(0,2)",
        Kind::Triangle(0, 0, 3, 0, 0, 2),
        0.2,
        0.9,
        0.1,
        0.4,
    )?;
    stroke(
        rt,
        "quad (1,1),(3,1),(3,2),(1,2)",
        Kind::Quad(1, 1, 3, 1, 3, 2, 1, 2),
        1.0,
        0.3,
        0.6,
        0.9,
    )
}

pub(crate) fn of_nothing(rt: &impl Print) -> io::Result<()> {
    stroke(rt, "opacity -0", Kind::Circle(1, 1, 2), -0.0, 0.3, 0.6, 0.9)?;
    half_red(rt, "radius 0", Kind::Circle(1, 1, 0))?;
    half_red(rt, "radius -3", Kind::Circle(1, 1, -3))?;
    half_red(rt, "no area", Kind::Triangle(0, 0, 1, 1, 2, 2))
}

pub(crate) fn past_an_edge(rt: &impl Print) -> io::Result<()> {
    half_red(rt, "above", Kind::Circle(1, -5, 2))?;
    half_red(rt, "just above", Kind::Triangle(0, -1, 3, -1, 1, -4))?;
    half_red(rt, "one row", Kind::Circle(1, -1, 1))?;
    half_red(rt, "below", Kind::Circle(1, 9, 2))?;
    half_red(rt, "beside", Kind::Circle(20, 1, 3))?;
    stroke(
        rt,
        "farthest",
        Kind::Quad(-8191, -8191, 8191, -8191, 8191, 8191, -8191, 8191),
        0.7,
        0.0,
        1.0,
        0.5,
    )
}
