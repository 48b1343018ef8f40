// Scores of shapes: the calls that test what is lent, take the sums over a shape's pixels, by spans or by points, and score.
#![tactic(auto)]

pub mod calls;
mod tests;

// What a shape is scored at: one opacity, or the first of the lent levels, so many.
#[derive(Clone, Copy)]
pub enum Request {
    Opacity(f32),
    Levels(usize),
}
