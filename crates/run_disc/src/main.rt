// Runs document 01's half widths, and those at the bounds of the radius. The stored output was worked out from the rule itself.
#![tactic(auto)]

ghost use Rattle.std.specs.Prelude.{nat_abs};
ghost use Rattle.laws.specs.Bound.{Bounded};

use std::io;

fn half(rt: &impl Print, r: i32, dy: i32) -> io::Result<()>
    requires { Bounded 8191 r × Bounded (nat_abs r) dy }
{
    println!(rt; "half width, r {r} dy {dy}: {}", disc::half_width(r, dy))
}

// Kept one by one: a loop over a list of them would have to show of each that its row lies within the radius.
fn main(rt: HostRuntime) -> io::Result<()> {
    half(&rt, 5, 0)?;
    half(&rt, 5, 3)?;
    half(&rt, 5, 4)?;
    half(&rt, 5, 5)?;
    half(&rt, 127, 1)?;
    half(&rt, 128, 1)?;
    half(&rt, 127, 127)?;
    half(&rt, 1, 0)?;
    half(&rt, 8191, 0)?;
    half(&rt, 8191, -8191)?;
    half(&rt, 8191, 8190)?;
    half(&rt, -5, 3)
}
