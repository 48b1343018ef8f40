// Frames in memory, exported for the benchmark and the differential runs. Nothing that ships links this crate.
#![tactic(auto)]

ghost use Rattle.probe_session.specs.Running.{Stands};

use frame::Answer;
use held::State;
use lines::Line;
use refusal::Refusal;

// The running state with the pictures and the table that stand for it. Kept: the same stands in `stream`; a rule of the project, for what
// both would share is public, and a public function promises all that it does.
#[derive(Drop)]
struct Running {
    state: State,
    target: [f32; 768],
    canvas: [f32; 768],
    table: [f64; 4080],
}

impl Running {
    fn start() -> Running
        ensures { Stands result }
    {
        Running {
            state: held::start(),
            target: [0.0; 768],
            canvas: [0.0; 768],
            table: [0.0; 4080],
        }
    }

    // A line is a request, which takes its step, or it is refused.
    fn answer(&mut self, line: Line, text: &[u8]) -> Answer
        requires { Stands self.old }
        ensures { Stands self.new }
    {
        let read = frame::read_line(line, text);
        let Ok(request) = held::ask(read.frame) else {
            return Answer::Refused(Refusal::Malformed.number());
        };
        let stepped = session::step(
            self.state,
            request,
            &read.bytes,
            &mut self.target,
            &mut self.canvas,
            &mut self.table,
        );
        self.state = stepped.state;
        stepped.answer
    }
}

// The answers to the ended lines of `input`, into the front of `out`: how many bytes they are. An answer that has no room is left out.
#[unsafe(no_mangle)]
pub extern "C" fn probe_frames(input: &[u8], out: &mut [u8]) -> usize {
    let mut text = [0u8; 100];
    let mut running = Running::start();
    let mut line = lines::start();
    let mut at = 0;
    for b in input {
        line = lines::feed(line, *b, &mut text);
        if line.ended {
            at += frame::write_answer(running.answer(line, &text), &mut out[at..]);
        }
    }
    at
}
