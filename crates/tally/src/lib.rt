// Whole pictures added up: the sums of each channel, and the total squared difference of two. The tests for 0..1 and the additions go
// through a picture together.
#![tactic(auto)]

pub mod means;
mod parts;
pub mod running;
pub mod totals;
