// A small table's numbers, document 01's figures of an update, and the refusals of both calls, several wrong at once.
#![tactic(auto)]

use std::io;

mod places;
mod refusals;
mod updates;

// What stands in a table before a call, to count what it writes.
const MARK: f64 = 7.0;

fn main(rt: HostRuntime) -> io::Result<()> {
    places::of_a_row(&rt)?;
    places::of_a_column(&rt)?;
    updates::all(&rt)?;
    refusals::builds(&rt)?;
    refusals::updates(&rt)
}
