// The sums over a shape's pixels: by spans, from a table, and by points, from two pictures.
#![tactic(auto)]

pub mod points;
pub mod spans;
