// Runs fill_quad at document 01's figures, and at shapes that tell columns from rows. A row is written left..right.
#![tactic(auto)]

ghost use Rattle.refusal.specs.Refusals.{Sized};
ghost use Rattle.polygon.specs.Polygon.{at};
ghost use Rattle.polygon.specs.Steps.{Placed};

use std::io;

// The rows that are not 0, 0.
fn show_runs(rt: &impl Print, out: &[u16; 512]) -> io::Result<()> {
    for y in 0..256 {
        let left = out[y * 2];
        let right = out[y * 2 + 1];
        if (left, right) != (0, 0) {
            print!(rt; " {y}: {left}..{right}")?;
        }
    }
    println!(rt; "")
}

fn triangle(
    rt: &impl Print,
    x0: i32,
    y0: i32,
    x1: i32,
    y1: i32,
    x2: i32,
    y2: i32,
    w: usize,
    h: usize,
) -> io::Result<()>
    requires first { Placed (at x0 y0) }
    requires second { Placed (at x1 y1) }
    requires third { Placed (at x2 y2) }
    requires size { Sized w h }
{
    let mut out: [u16; 512] = [0; 512];
    polygon::fill_quad(x0, y0, x1, y1, x2, y2, x2, y2, w, h, &mut out);
    show_runs(rt, &out)
}

fn quad(
    rt: &impl Print,
    x0: i32,
    y0: i32,
    x1: i32,
    y1: i32,
    x2: i32,
    y2: i32,
    x3: i32,
    y3: i32,
    w: usize,
    h: usize,
) -> io::Result<()>
    requires first { Placed (at x0 y0) }
    requires second { Placed (at x1 y1) }
    requires third { Placed (at x2 y2) }
    requires fourth { Placed (at x3 y3) }
    requires size { Sized w h }
{
    let mut out: [u16; 512] = [0; 512];
    polygon::fill_quad(x0, y0, x1, y1, x2, y2, x3, y3, w, h, &mut out);
    show_runs(rt, &out)
}

fn triangles(rt: &impl Print) -> io::Result<()> {
    rt.print("(0,0) (4,0) (0,4) on 16x16:")?;
    triangle(rt, 0, 0, 4, 0, 0, 4, 16, 16)?;
    rt.print("(0,0) (0,4) (4,0) on 16x16:")?;
    triangle(rt, 0, 0, 0, 4, 4, 0, 16, 16)?;
    rt.print("(0,0) (4,0) (0,4) on 3x3:")?;
    triangle(rt, 0, 0, 4, 0, 0, 4, 3, 3)?;
    rt.print("(0,0) (2,2) (5,5) on 16x16:")?;
    triangle(rt, 0, 0, 2, 2, 5, 5, 16, 16)
}

fn quads(rt: &impl Print) -> io::Result<()> {
    rt.print("(1,1) (3,1) (3,2) (1,2) on 16x16:")?;
    quad(rt, 1, 1, 3, 1, 3, 2, 1, 2, 16, 16)?;
    rt.print("(0,0) (2,0) (4,0) (0,4) on 16x16:")?;
    quad(rt, 0, 0, 2, 0, 4, 0, 0, 4, 16, 16)?;
    rt.print("(4,0) (2,0) (0,0) (0,4) on 16x16:")?;
    quad(rt, 4, 0, 2, 0, 0, 0, 0, 4, 16, 16)?;
    rt.print("(0,0) (2,0) (0,2) (2,2) on 16x16:")?;
    quad(rt, 0, 0, 2, 0, 0, 2, 2, 2, 16, 16)?;
    rt.print("(0,0) (9,0) (9,9) (6,3) on 16x16:")?;
    quad(rt, 0, 0, 9, 0, 9, 9, 6, 3, 16, 16)
}

fn columns_from_rows(rt: &impl Print) -> io::Result<()> {
    rt.print("(0,0) (9,0) (0,3) on 12x5:")?;
    triangle(rt, 0, 0, 9, 0, 0, 3, 12, 5)?;
    rt.print("(0,0) (9,0) (0,3) on 5x12:")?;
    triangle(rt, 0, 0, 9, 0, 0, 3, 5, 12)?;
    rt.print("(7,0) (9,5) (2,3) on 12x6:")?;
    triangle(rt, 7, 0, 9, 5, 2, 3, 12, 6)?;
    rt.print("(-5,1) (3,2) (-2,6) on 8x5:")?;
    triangle(rt, -5, 1, 3, 2, -2, 6, 8, 5)?;
    rt.print("(-9,1) (-3,2) (-2,6) on 8x5:")?;
    triangle(rt, -9, 1, -3, 2, -2, 6, 8, 5)?;
    rt.print("(0,6) (3,4) (8,1) on 10x7:")?;
    triangle(rt, 0, 6, 3, 4, 8, 1, 10, 7)
}

fn reaching_far(rt: &impl Print) -> io::Result<()> {
    rt.print("(-8191,-8191) (8191,-8191) (0,8191) on 256x2:")?;
    triangle(rt, -8191, -8191, 8191, -8191, 0, 8191, 256, 2)?;
    rt.print("(-8191,8191) (8191,-8191) (8191,8191) on 256x2:")?;
    triangle(rt, -8191, 8191, 8191, -8191, 8191, 8191, 256, 2)?;
    rt.print("(2,-3) (14,2) (11,9) (-1,4) on 13x7:")?;
    quad(rt, 2, -3, 14, 2, 11, 9, -1, 4, 13, 7)
}

fn main(rt: HostRuntime) -> io::Result<()> {
    triangles(&rt)?;
    quads(&rt)?;
    columns_from_rows(&rt)?;
    reaching_far(&rt)
}
