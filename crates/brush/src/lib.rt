// Blending in place: the same mixture for pixels one after another.
#![tactic(auto)]

ghost use Rattle.std.specs.Prelude.{◌≡◌, ◌*◌, length};
ghost use Rattle.laws.specs.F32.{◌⊞◌, ◌⊠◌};
ghost use Rattle.brush.specs.Brushes.{brushed, BrushOfSays, BlendRunSays};

// What an opacity and a colour come to, the same for every pixel: `keep` times the old value is kept, and the rest is added.
#[derive(Clone, Copy)]
pub struct Brush {
    pub keep: f32,
    pub red: f32,
    pub green: f32,
    pub blue: f32,
}

pub fn brush_of(opacity: f32, red: f32, green: f32, blue: f32) -> Brush
    ensures { BrushOfSays opacity red green blue result }
{
    Brush {
        keep: 1.0 - opacity,
        red: opacity * red,
        green: opacity * green,
        blue: opacity * blue,
    }
}

// n pixels, four at a time: twelve numbers are three vectors of four, each with its own pattern of channels.
pub fn blend_run(brush: Brush, n: usize, run: &mut [f32])
    requires { length run.old ≡ n * 3 }
    ensures { BlendRunSays brush run.old run.new }
{
    let fours = n / 4;
    let middle = fours * 12;
    let end = n * 3;
    blend_parts::<4>(brush, fours, &mut run[0..middle]);
    blend_parts::<1>(brush, n - fours * 4, &mut run[middle..end]);
}

// n parts of N pixels.
fn blend_parts<const N: usize>(brush: Brush, n: usize, run: &mut [f32])
    requires { length run.old ≡ n * N * 3 }
    ensures { run.new ≡ brushed brush run.old }
{
    for k in 0..n {
        let a = k * N * 3;
        blend_part::<N>(brush, &mut run[a..a + N * 3]);
    }
}

// N pixels, a number that the compiler knows: no loop is left.
fn blend_part<const N: usize>(brush: Brush, part: &mut [f32])
    requires { length part.old ≡ N * 3 }
    ensures { part.new ≡ brushed brush part.old }
{
    for k in 0..N {
        let a = k * 3;
        blend_pixel(brush, &mut part[a..a + 3]);
    }
}

fn blend_pixel(brush: Brush, pixel: &mut [f32])
    requires { length pixel.old ≡ 3 }
    ensures { pixel.new ≡ brushed brush pixel.old }
{
    let red = mix(brush.keep, pixel[0], brush.red);
    let green = mix(brush.keep, pixel[1], brush.green);
    let blue = mix(brush.keep, pixel[2], brush.blue);
    pixel[0] = red;
    pixel[1] = green;
    pixel[2] = blue;
}

// In f32, each operation rounded once.
fn mix(keep: f32, old: f32, add: f32) -> f32
    ensures { result ≡ keep ⊠ old ⊞ add }
{
    keep * old + add
}
