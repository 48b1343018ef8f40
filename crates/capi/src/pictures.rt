// Exports on pictures: opacity levels, fill, mean, total.
ghost use Rattle.std.specs.Prelude.{◌≡◌};
ghost use Rattle.capi.specs.Pictures.{
  SillbadgerLevelsSays,
  SillbadgerFillSays,
  SillbadgerMeanSays,
  SillbadgerTotalSays,
};

use crate::SillbadgerAnswer;
use picture::Colour;

// Fills 64 lent places with the opacity levels of a number of level bits; the unused are 0.
#[unsafe(no_mangle)]
pub extern "C" fn sillbadger_levels(bits: u32, levels: &mut [f32]) -> u8
    ensures { SillbadgerLevelsSays bits levels.old result levels.new }
{
    refusal::number_of(grade::levels::alpha_levels(bits, levels))
}

// Every pixel has the colour.
#[unsafe(no_mangle)]
pub extern "C" fn sillbadger_fill(
    w: u32,
    h: u32,
    red: f32,
    green: f32,
    blue: f32,
    canvas: &mut [f32],
) -> u8
    ensures { SillbadgerFillSays w h red green blue canvas.old result canvas.new }
{
    let colour = Colour { red, green, blue };
    refusal::number_of(picture::filled_canvas(w as usize, h as usize, colour, canvas))
}

// The mean colour of a picture: red, green, blue.
#[unsafe(no_mangle)]
pub extern "C" fn sillbadger_mean(w: u32, h: u32, target: &[f32]) -> SillbadgerAnswer
    ensures { SillbadgerMeanSays w h target.now result }
{
    match picture::mean_rgb(w as usize, h as usize, target) {
        Ok(c) => {
            let mut a = crate::refused(0);
            a.red = c.red;
            a.green = c.green;
            a.blue = c.blue;
            a
        }
        Err(e) => crate::refused(e.number()),
    }
}

// The total squared difference of two pictures: total.
#[unsafe(no_mangle)]
pub extern "C" fn sillbadger_total(
    w: u32,
    h: u32,
    target: &[f32],
    canvas: &[f32],
) -> SillbadgerAnswer
    ensures { SillbadgerTotalSays w h target.now canvas.now result }
{
    match picture::sse_total(w as usize, h as usize, target, canvas) {
        Ok(sum) => {
            let mut a = crate::refused(0);
            a.total = sum;
            a
        }
        Err(e) => crate::refused(e.number()),
    }
}
