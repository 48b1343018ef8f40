// Runs the stamps of circles and of corners among 64 pixels, and parts of stamps. The stored output was worked out from the rule itself, pixel by pixel.
#![tactic(auto)]

ghost use Rattle.std.specs.Prelude.{◌+◌, ◌≤◌, pos, ◌≤ℤ◌};
ghost use Rattle.polygon.specs.Polygon.{at};
ghost use Rattle.stamp.specs.Lanes.{Cornered};

use std::io;

fn circle(rt: &impl Print, r: i32) -> io::Result<()>
    requires { (pos 1 ≤ℤ r) × (r ≤ℤ pos 3) }
{
    println!(rt; "circle {r}: {:016x}", stamp::circle_stamp(r))
}

fn quad(
    rt: &impl Print,
    x0: i32,
    y0: i32,
    x1: i32,
    y1: i32,
    x2: i32,
    y2: i32,
    x3: i32,
    y3: i32,
) -> io::Result<()>
    requires first { Cornered (at x0 y0) }
    requires second { Cornered (at x1 y1) }
    requires third { Cornered (at x2 y2) }
    requires fourth { Cornered (at x3 y3) }
{
    let bits = stamp::polygon_stamp(x0, y0, x1, y1, x2, y2, x3, y3);
    println!(rt; "corners {x0} {y0} {x1} {y1} {x2} {y2} {x3} {y3}: {bits:016x}")
}

fn part(
    rt: &impl Print,
    bits: u64,
    across: u64,
    down: u64,
    columns: u64,
    rows: u64,
) -> io::Result<()>
    requires columns { (1 ≤ columns) × (across + columns ≤ 8) }
    requires rows { (1 ≤ rows) × (down + rows ≤ 8) }
{
    let part = stamp::cut(bits, across, down, columns, rows);
    println!(rt; "part {bits:016x} from {across} {down} {columns} by {rows}: {part:016x}")
}

fn parts(rt: &impl Print) -> io::Result<()> {
    part(rt, 0x00083e3e7f3e3e08, 0, 0, 7, 7)?;
    part(rt, 0x00083e3e7f3e3e08, 3, 0, 4, 7)?;
    part(rt, 0x00083e3e7f3e3e08, 0, 2, 7, 5)?;
    part(rt, 0x00083e3e7f3e3e08, 6, 6, 1, 1)?;
    part(rt, 0x000000040e1f0e04, 2, 1, 3, 2)?;
    part(rt, 0xffffffffffffffff, 0, 0, 8, 8)?;
    part(rt, 0xffffffffffffffff, 1, 1, 7, 7)?;
    part(rt, 0xffffffffffffffff, 7, 7, 1, 1)?;
    part(rt, 0xffffffffffffffff, 0, 0, 1, 8)?;
    part(rt, 0xffffffffffffffff, 0, 7, 8, 1)?;
    part(rt, 0xffffffffffffffff, 3, 2, 4, 5)?;
    part(rt, 0x0123456789abcdef, 2, 3, 5, 4)?;
    part(rt, 0x0123456789abcdef, 0, 0, 8, 8)?;
    part(rt, 0x0123456789abcdef, 5, 0, 3, 8)
}

fn circles(rt: &impl Print) -> io::Result<()> {
    circle(rt, 1)?;
    circle(rt, 2)?;
    circle(rt, 3)
}

fn triangles(rt: &impl Print) -> io::Result<()> {
    quad(rt, 0, 0, 4, 0, 0, 4, 0, 4)?;
    quad(rt, 0, 0, 0, 4, 4, 0, 4, 0)?;
    quad(rt, 7, 7, 0, 7, 7, 0, 7, 0)?;
    quad(rt, 7, 7, 7, 0, 0, 7, 0, 7)?;
    quad(rt, 1, 1, 2, 1, 1, 2, 1, 2)?;
    quad(rt, 0, 6, 3, 4, 7, 1, 7, 1)?;
    quad(rt, 7, 0, 0, 1, 7, 2, 7, 2)?;
    quad(rt, 2, 0, 3, 7, 4, 0, 4, 0)
}

fn quads(rt: &impl Print) -> io::Result<()> {
    quad(rt, 0, 0, 2, 2, 5, 5, 5, 5)?;
    quad(rt, 3, 3, 3, 3, 3, 3, 3, 3)?;
    quad(rt, 0, 0, 7, 0, 7, 7, 0, 7)?;
    quad(rt, 0, 7, 7, 7, 7, 0, 0, 0)?;
    quad(rt, 1, 1, 3, 1, 3, 2, 1, 2)?;
    quad(rt, 0, 0, 4, 0, 6, 2, 6, 5)?;
    quad(rt, 0, 0, 0, 4, 2, 6, 5, 6)?;
    quad(rt, 3, 0, 7, 3, 4, 7, 0, 4)
}

fn more_quads(rt: &impl Print) -> io::Result<()> {
    quad(rt, 0, 4, 4, 7, 7, 3, 3, 0)?;
    quad(rt, 0, 0, 7, 0, 7, 7, 5, 2)?;
    quad(rt, 0, 0, 2, 0, 0, 2, 2, 2)?;
    quad(rt, 0, 0, 7, 7, 7, 0, 1, 6)?;
    quad(rt, 0, 0, 2, 0, 4, 0, 0, 4)?;
    quad(rt, 0, 0, 4, 0, 0, 4, 0, 0)?;
    quad(rt, 0, 2, 7, 0, 7, 2, 0, 5)
}

fn main(rt: HostRuntime) -> io::Result<()> {
    circles(&rt)?;
    parts(&rt)?;
    triangles(&rt)?;
    quads(&rt)?;
    more_quads(&rt)
}
