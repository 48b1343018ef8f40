// What the program holds between two frames, by value, and what a frame asks for. Apart from `session`, so that its edits are quick to refuse.
#![tactic(auto)]

ghost use Rattle.held.specs.Asking.{StartSays, AskSays};

use frame::Request;

// The sizes of the picture, width 0 before there is one, and whether it was painted on.
#[derive(Clone, Copy)]
pub struct State {
    pub w: usize,
    pub h: usize,
    pub painted: bool,
}

// Before the first frame.
pub fn start() -> State
    ensures { StartSays result }
{
    State {
        w: 0,
        h: 0,
        painted: false,
    }
}

// What a frame asks for, or what it is refused with, whatever that is: a `Refusal`, or a number.
pub fn ask<E>(frame: Result<Request, E>) -> Result<Request, E>
    ensures { AskSays frame result }
{
    // Kept: what may not change needs this step (`AskSays`, and the edits score_paints and sides_swapped).
    frame
}
