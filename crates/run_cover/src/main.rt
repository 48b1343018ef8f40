// Runs document 01's figures of the cover, its boundaries and some of our own. The stored output was worked out from the
// rule itself, pixel by pixel.
#![tactic(auto)]

use cover::Kind;
use refusal::Refusal;
use std::{fmt, io};

// A shape by its kind and coordinates.
#[derive(Clone, Copy)]
struct Named(Kind);

impl fmt::Display for Named {
    fn fmt<W: fmt::Write>(&self, f: &mut fmt::Formatter<W>) -> fmt::Result {
        match self.0 {
            Kind::Circle(cx, cy, r) => write!(f, "circle {cx} {cy} {r}"),
            Kind::Triangle(x0, y0, x1, y1, x2, y2) => {
                write!(f, "triangle {x0} {y0} {x1} {y1} {x2} {y2}")
            }
            Kind::Quad(x0, y0, x1, y1, x2, y2, x3, y3) => {
                write!(f, "quad {x0} {y0} {x1} {y1} {x2} {y2} {x3} {y3}")
            }
        }
    }
}

fn refused(rt: &impl Print, why: Refusal) -> io::Result<()> {
    println!(rt; "refused {}", why.number())
}

fn count(rt: &impl Print, kind: Kind, w: usize, h: usize) -> io::Result<()> {
    print!(rt; "count of {} on {w} by {h}: ", Named(kind))?;
    match cover::count_covered(kind, w, h) {
        Ok(n) => println!(rt; "{n}"),
        Err(why) => refused(rt, why),
    }
}

fn ends(rt: &impl Print, kind: Kind, w: usize, h: usize, y: i32) -> io::Result<()> {
    print!(rt; "row {y} of {} on {w} by {h}: ", Named(kind))?;
    match cover::row_ends(kind, w, h, y) {
        Ok(Some(c)) => println!(rt; "{} to {}", c.first, c.last),
        Ok(None) => println!(rt; "none"),
        Err(why) => refused(rt, why),
    }
}

fn band(rt: &impl Print, kind: Kind, w: usize, h: usize) -> io::Result<()> {
    print!(rt; "band of {} on {w} by {h}: ", Named(kind))?;
    match cover::redraw_band(kind, w, h) {
        Ok(b) => println!(rt; "{} to {}", b.first, b.last),
        Err(why) => refused(rt, why),
    }
}

fn circles(rt: &impl Print) -> io::Result<()> {
    for kind in [
        Kind::Circle(8, 8, 5),
        Kind::Circle(0, 0, 1),
        Kind::Circle(0, 0, 0),
        Kind::Circle(0, 0, -3),
    ] {
        count(rt, kind, 16, 16)?;
    }
    Ok(())
}

fn triangles(rt: &impl Print) -> io::Result<()> {
    for (kind, w, h) in [
        (Kind::Triangle(0, 0, 4, 0, 0, 4), 16, 16),
        (Kind::Triangle(0, 4, 4, 0, 0, 0), 16, 16),
        (Kind::Triangle(0, 0, 4, 0, 0, 4), 3, 3),
        (Kind::Triangle(0, 0, 2, 2, 5, 5), 16, 16),
    ] {
        count(rt, kind, w, h)?;
    }
    Ok(())
}

fn quads(rt: &impl Print) -> io::Result<()> {
    for kind in [
        Kind::Quad(1, 1, 3, 1, 3, 2, 1, 2),
        Kind::Quad(0, 0, 2, 0, 4, 0, 0, 4),
        Kind::Quad(0, 0, 2, 0, 0, 2, 2, 2),
    ] {
        count(rt, kind, 16, 16)?;
    }
    Ok(())
}

fn not_square(rt: &impl Print) -> io::Result<()> {
    for kind in [
        Kind::Circle(5, 1, 2),
        Kind::Circle(1, 5, 2),
        Kind::Triangle(0, 0, 6, 0, 0, 2),
        Kind::Triangle(0, 0, 2, 0, 0, 6),
        Kind::Quad(1, 0, 5, 0, 5, 1, 1, 1),
    ] {
        count(rt, kind, 7, 2)?;
    }
    Ok(())
}

fn round_radius_127(rt: &impl Print) -> io::Result<()> {
    for (kind, w, h) in [
        (Kind::Circle(100, 90, 126), 256, 256),
        (Kind::Circle(100, 90, 127), 256, 256),
        (Kind::Circle(100, 90, 128), 256, 256),
        (Kind::Circle(100, 90, 129), 256, 200),
    ] {
        count(rt, kind, w, h)?;
    }
    Ok(())
}

fn reaching_far(rt: &impl Print) -> io::Result<()> {
    for kind in [
        Kind::Circle(128, 128, 8191),
        Kind::Circle(-8191, -8191, 8191),
        Kind::Circle(0, -8191, 8191),
        Kind::Circle(8191, 0, 8191),
        Kind::Triangle(-8191, -8191, 8191, -8191, 0, 8191),
        Kind::Triangle(-7, -3, 200, 40, 90, 255),
        Kind::Quad(-8191, -8191, 8191, -8191, 8191, 8191, -8191, 8191),
        Kind::Quad(10, 20, 200, 5, 250, 180, 30, 240),
        Kind::Quad(10, 20, 200, 180, 250, 30, 30, 240),
    ] {
        count(rt, kind, 256, 256)?;
    }
    Ok(())
}

fn places_of_circles(rt: &impl Print) -> io::Result<()> {
    for kind in [
        Kind::Circle(8191, 0, 1),
        Kind::Circle(8192, 0, 1),
        Kind::Circle(0, 8192, 1),
        Kind::Circle(0, 0, 8192),
        Kind::Circle(-8191, 0, 1),
        Kind::Circle(-8192, 0, 1),
    ] {
        count(rt, kind, 1, 1)?;
    }
    Ok(())
}

fn places_of_corners(rt: &impl Print) -> io::Result<()> {
    for kind in [
        Kind::Triangle(0, 0, 8192, 0, 0, 4),
        Kind::Triangle(0, 0, 4, 0, 0, 8192),
        Kind::Quad(0, 0, 4, 0, 4, 4, 0, -8192),
        Kind::Quad(0, 0, 4, 0, 4, 4, 0, 8191),
    ] {
        count(rt, kind, 16, 16)?;
    }
    Ok(())
}

fn sizes(rt: &impl Print) -> io::Result<()> {
    for (kind, w, h) in [
        (Kind::Circle(8, 8, 5), 0, 16),
        (Kind::Circle(8, 8, 5), 16, 0),
        (Kind::Circle(8, 8, 5), 257, 16),
        (Kind::Circle(8, 8, 5), 16, 257),
        (Kind::Circle(8, 8, 5), 256, 256),
        (Kind::Circle(8, 8, 5), 1, 1),
        (Kind::Circle(9999, 8, 5), 0, 16),
    ] {
        count(rt, kind, w, h)?;
    }
    Ok(())
}

fn rows_of_a_circle(rt: &impl Print) -> io::Result<()> {
    for y in [8, 11, 12, 13, 14, 3, 2] {
        ends(rt, Kind::Circle(8, 8, 5), 16, 16, y)?;
    }
    Ok(())
}

fn rows_outside(rt: &impl Print) -> io::Result<()> {
    for (kind, w, h, y) in [
        (Kind::Circle(5, 1, 2), 7, 2, 0),
        (Kind::Circle(5, 1, 2), 7, 2, 1),
        (Kind::Circle(5, 1, 2), 7, 2, 2),
        (Kind::Circle(5, 1, 2), 7, 2, -1),
        (Kind::Circle(5, 1, 9), 7, 2, -2147483648),
        (Kind::Circle(5, 1, 9), 7, 2, 2147483647),
    ] {
        ends(rt, kind, w, h, y)?;
    }
    Ok(())
}

fn rows_of_polygons(rt: &impl Print) -> io::Result<()> {
    for (kind, w, h, y) in [
        (Kind::Circle(3, 3, 0), 8, 8, 3),
        (Kind::Triangle(0, 0, 6, 0, 0, 2), 7, 3, 1),
        (Kind::Triangle(-2, 0, 6, 0, -2, 2), 7, 3, 1),
        (Kind::Triangle(0, 0, 6, 0, 0, 2), 7, 3, 2),
        (Kind::Triangle(-9, 0, -1, 0, -9, 4), 7, 3, 1),
        (Kind::Quad(1, 0, 5, 0, 5, 1, 1, 1), 7, 2, 1),
        (Kind::Quad(1, 0, 5, 0, 5, 1, 1, 1), 7, 2, 2),
    ] {
        ends(rt, kind, w, h, y)?;
    }
    Ok(())
}

fn rows_far_and_refused(rt: &impl Print) -> io::Result<()> {
    for (kind, w, h, y) in [
        (Kind::Circle(200, 100, 128), 256, 256, 0),
        (Kind::Circle(200, 100, 128), 256, 256, 227),
        (Kind::Circle(200, 100, 128), 256, 256, 228),
        (Kind::Circle(8192, 0, 1), 16, 16, 0),
        (Kind::Circle(0, 0, 1), 16, 257, 0),
    ] {
        ends(rt, kind, w, h, y)?;
    }
    Ok(())
}

fn bands_of_circles(rt: &impl Print) -> io::Result<()> {
    for kind in [
        Kind::Circle(8, 8, 5),
        Kind::Circle(8, 8, 9),
        Kind::Circle(8, -9, 5),
        Kind::Circle(8, 30, 5),
        Kind::Circle(8, 8, 0),
        Kind::Circle(8, 8, -3),
    ] {
        band(rt, kind, 16, 16)?;
    }
    Ok(())
}

fn bands_of_polygons(rt: &impl Print) -> io::Result<()> {
    for (kind, w, h) in [
        (Kind::Triangle(0, 0, 6, 0, 0, 2), 7, 3),
        (Kind::Triangle(0, 9, 6, -4, 0, 2), 7, 3),
        (Kind::Quad(1, 0, 5, 0, 5, 1, 1, 1), 7, 2),
        (Kind::Quad(0, -8191, 1, 8191, 2, 0, 3, 0), 16, 256),
    ] {
        band(rt, kind, w, h)?;
    }
    Ok(())
}

fn bands_refused(rt: &impl Print) -> io::Result<()> {
    for (kind, w, h) in [
        (Kind::Circle(0, 0, 8192), 16, 16),
        (Kind::Circle(0, 0, 1), 0, 16),
    ] {
        band(rt, kind, w, h)?;
    }
    Ok(())
}

fn main(rt: HostRuntime) -> io::Result<()> {
    circles(&rt)?;
    triangles(&rt)?;
    quads(&rt)?;
    not_square(&rt)?;
    round_radius_127(&rt)?;
    reaching_far(&rt)?;
    places_of_circles(&rt)?;
    places_of_corners(&rt)?;
    sizes(&rt)?;
    rows_of_a_circle(&rt)?;
    rows_outside(&rt)?;
    rows_of_polygons(&rt)?;
    rows_far_and_refused(&rt)?;
    bands_of_circles(&rt)?;
    bands_of_polygons(&rt)?;
    bands_refused(&rt)
}
