// The sums of the channels: tests and sums in one loop over parts of the picture.
ghost use Rattle.std.specs.Prelude.{◌≡◌, ◌+◌, ◌*◌, ◌^◌, ◌<◌, ◌≤◌, T, length, take};
ghost use Rattle.float.specs.Within.{all_within};
ghost use Rattle.tally.specs.Tally.{ShareSays, SumsWithinSays, sums_to};

// The three channels' sums.
#[derive(Clone, Copy)]
pub struct Sums {
    pub red: f64,
    pub green: f64,
    pub blue: f64,
}

// The sums of the n pixels, or none where a number is not within 0..1. 16 at a time: the next ones' tests are done while the
// additions, which may not be reordered, wait for each other. The compiler knows how many a part has, so that it adds red and green as
// a pair; of any number it would gather a channel's numbers from four pixels, which costs more than it saves.
pub fn sums_within(target: &[f32], n: usize) -> Option<Sums>
    requires { length target.now ≡ n * 3 }
    ensures { SumsWithinSays target.now n result }
{
    let mut sums = Sums {
        red: 0.0,
        green: 0.0,
        blue: 0.0,
    };
    let parts = n / 16;
    for part in 0..parts {
        let i = part * 16;
        if !crate::parts::part_within(target, i * 3, (i + 16) * 3) {
            return None;
        }
        sums = add_pixels(sums, target, i, i + 16);
    }
    let i = parts * 16;
    if !crate::parts::part_within(target, i * 3, n * 3) {
        return None;
    }
    Some(add_pixels(sums, target, i, n))
}

// The sums go on from those of the pixels before `from`.
fn add_pixels(before: Sums, target: &[f32], from: usize, to: usize) -> Sums
    requires from_le_to { (from ≤ to) × (to * 3 ≤ length target.now) × T (all_within (take (to * 3) target.now)) }
    requires before_value { before ≡ sums_to target.now from }
    ensures { result ≡ sums_to target.now to }
{
    let mut sums = before;
    for i in from..to {
        sums = add_pixel(sums, target, i);
    }
    sums
}

// The sums of the pixels before i, and pixel i.
fn add_pixel(sums: Sums, target: &[f32], i: usize) -> Sums
    requires { (i * 3 + 3 ≤ length target.now) × T (all_within (take (i * 3 + 3) target.now)) }
    ensures { sums ≡ sums_to target.now i → result ≡ sums_to target.now (i + 1) }
{
    let red = sums.red + float::widen_number(target[i * 3]);
    let green = sums.green + float::widen_number(target[i * 3 + 1]);
    let blue = sums.blue + float::widen_number(target[i * 3 + 2]);
    Sums { red, green, blue }
}

// The n-th part of a sum.
pub fn share(sum: f64, n: usize) -> f32
    requires { n < 2 ^ 32 }
    ensures { ShareSays sum n result }
{
    float::narrow(sum / (n as u32) as f64)
}
