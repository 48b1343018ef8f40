// Frames from standard input, an answer to standard output for each line as soon as it has ended.
// No contract can say what is read or written; what is proved is that the running state stays that of `session`.
#![tactic(auto)]

ghost use Rattle.stream.specs.Running.{Stands};

use frame::Answer;
use held::State;
use lines::Line;
use refusal::Refusal;
use std::io;
use std::io::Read;

// The running state with the pictures and the table that stand for it. Kept: that they do is no ghost field but a clause; tried,
// antt finds no proof that `Stands`, which has two cases, is a proposition.
#[derive(Drop)]
struct Running {
    state: State,
    target: [f32; 768],
    canvas: [f32; 768],
    table: [f64; 4080],
}

impl Running {
    // Kept: `probe_session` has the same, see there.
    fn start() -> Running
        ensures { Stands result }
    {
        Running {
            state: held::start(),
            target: [0.0; 768],
            canvas: [0.0; 768],
            table: [0.0; 4080],
        }
    }

    // A line is a request, which takes its step, or it is refused.
    fn answer(&mut self, line: Line, text: &[u8]) -> Answer
        requires { Stands self.old }
        ensures { Stands self.new }
    {
        let read = frame::read_line(line, text);
        let Ok(request) = held::ask(read.frame) else {
            return Answer::Refused(Refusal::Malformed.number());
        };
        let stepped = session::step(
            self.state,
            request,
            &read.bytes,
            &mut self.target,
            &mut self.canvas,
            &mut self.table,
        );
        self.state = stepped.state;
        stepped.answer
    }
}

// One line, by one write.
fn print(rt: &impl Print, a: Answer) -> io::Result<()> {
    let mut out = [0u8; 64];
    let n = frame::write_answer(a, &mut out);
    rt.write_all(&out[..n])
}

// All bytes of one read.
fn take_all(
    rt: &impl Print,
    before: Line,
    came: &[u8],
    text: &mut [u8],
    running: &mut Running,
) -> io::Result<Line>
    requires { Stands running.old }
    ensures { Stands running.new }
{
    let mut line = before;
    for b in came {
        line = lines::feed(line, *b, text);
        if line.ended {
            print(rt, running.answer(line, text))?;
        }
    }
    Ok(line)
}

// Until the input ends, or the output is closed, which is an error. What fails to be read has ended; a last line without LF is answered too.
fn answer_all(rt: &(impl Input + Print)) -> io::Result<()> {
    let mut text = [0u8; 100];
    let mut running = Running::start();
    let mut line = lines::start();
    let mut input = rt.reader();
    let mut buf = [0u8; 4096];
    for _ in 0..u64::MAX {
        let n = input.read(&mut buf).unwrap_or(0);
        if n == 0 {
            break;
        }
        line = take_all(rt, line, &buf[..n], &mut text, &mut running)?;
    }
    if lines::last(line) {
        print(rt, running.answer(line, &text))?;
    }
    Ok(())
}

// The program: where its output is closed it ends in silence.
pub fn run(rt: &(impl Input + Print)) {
    let _ = answer_all(rt);
}
