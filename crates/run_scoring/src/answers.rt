// What is written of an answer.
use grade::Score;
use refusal::Refusal;
use std::io;
use sums::ShapeSums;

pub(crate) fn refused(rt: &impl Print, no: u8) -> io::Result<()> {
    print!(rt; "refused {no}")
}

fn colour(rt: &impl Print, red: f32, green: f32, blue: f32) -> io::Result<()> {
    figures::number(rt, red)?;
    figures::number(rt, green)?;
    figures::number(rt, blue)
}

fn scored(rt: &impl Print, r: Score) -> io::Result<()> {
    print!(rt; "{:08x} {}", float::bits32(r.opacity), r.count)?;
    figures::number(rt, r.change)?;
    colour(rt, r.red, r.green, r.blue)
}

pub(crate) fn answer(rt: &impl Print, s: Result<Score, Refusal>) -> io::Result<()> {
    match s {
        Ok(r) => scored(rt, r)?,
        Err(no) => refused(rt, no.number())?,
    }
    println!(rt)
}

pub(crate) fn sums_answer(rt: &impl Print, c: Result<ShapeSums, Refusal>) -> io::Result<()> {
    match c {
        Ok(s) => {
            println!(rt; "{}", s.count)?;
            figures::series(rt, s)
        }
        Err(no) => {
            refused(rt, no.number())?;
            println!(rt)
        }
    }
}
