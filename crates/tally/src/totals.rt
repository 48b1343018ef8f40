// The total: tests and sums in one loop over parts of the two pictures.
ghost use Rattle.std.specs.Prelude.{◌≡◌, ◌&&◌, ◌<◌, ◌≤◌, T, length, take};
ghost use Rattle.laws.specs.F32.{◌⊟◌};
ghost use Rattle.float.specs.Within.{within, all_within};
ghost use Rattle.tally.specs.Tally.{SquaredAnySays, squared_difference, TotalWithinSays, total_to};

// The total of two pictures, or none where a number of one is not within 0..1. 16 numbers at a time: the next ones' tests are done
// while the additions, which may not be reordered, wait for each other.
// Kept: tried, proved, slower: `for` over parts here and over eights below takes 6.1 ns a pixel; `while` 5.0 to 5.4.
pub fn total_within(target: &[f32], canvas: &[f32]) -> Option<f64>
    requires { length target.now ≡ length canvas.now }
    ensures { TotalWithinSays target.now canvas.now result }
{
    let n = target.len();
    let mut sum = 0.0f64;
    let mut i = 0;
    // Kept: a `for` over parts is slower, see above.
    while i < n {
        let e = part_end(i, n);
        if !both_within(target, canvas, i, e) {
            return None;
        }
        sum = add_squares(target, canvas, i, e, sum);
        i = e;
    }
    Some(sum)
}

fn part_end(i: usize, n: usize) -> usize
    requires { i < n }
    ensures { (i < result) × (result ≤ n) }
{
    if n - i < 16 {
        return n;
    }
    i + 16
}

// As `part_within`, of two pictures.
fn both_within(target: &[f32], canvas: &[f32], from: usize, to: usize) -> bool
    requires from_le_to { (from ≤ to) × (to ≤ length target.now) × (to ≤ length canvas.now) }
    requires t { T (all_within (take from target.now)) × T (all_within (take from canvas.now)) }
    ensures { result ≡ all_within (take to target.now) && all_within (take to canvas.now) }
{
    crate::parts::part_within(target, from, to) & crate::parts::part_within(canvas, from, to)
}

// The sum goes on from that of the numbers before `from`. By eights, whose number the compiler knows: it works out two differences
// and two squares at once.
fn add_squares(target: &[f32], canvas: &[f32], from: usize, to: usize, before: f64) -> f64
    requires from_le_to { (from ≤ to) × (to ≤ length target.now) × (to ≤ length canvas.now) }
    requires t { T (all_within (take to target.now)) × T (all_within (take to canvas.now)) }
    requires before_value { before ≡ total_to target.now canvas.now from }
    ensures { result ≡ total_to target.now canvas.now to }
{
    let mut sum = before;
    let mut k = from;
    // Kept: a `for` over eights is slower, see `total_within`.
    while 8 <= to - k {
        sum = add_each(target, canvas, k, k + 8, sum);
        k += 8;
    }
    add_each(target, canvas, k, to, sum)
}

// One by one.
fn add_each(target: &[f32], canvas: &[f32], from: usize, to: usize, before: f64) -> f64
    requires from_le_to { (from ≤ to) × (to ≤ length target.now) × (to ≤ length canvas.now) }
    requires t { T (all_within (take to target.now)) × T (all_within (take to canvas.now)) }
    requires before_value { before ≡ total_to target.now canvas.now from }
    ensures { result ≡ total_to target.now canvas.now to }
{
    let mut sum = before;
    for k in from..to {
        sum = sum + squared(target[k], canvas[k]);
    }
    sum
}

pub(crate) fn squared(t: f32, c: f32) -> f64
    requires { T (within t) × T (within c) }
    ensures { result ≡ squared_difference t c }
{
    let d = float::widen_number(t - c);
    d * d
}

// Of any numbers.
pub fn squared_any(t: f32, c: f32) -> f64
    ensures { SquaredAnySays t c result }
{
    let d = difference_any(t, c);
    d * d
}

// In f32, then widened.
fn difference_any(t: f32, c: f32) -> f64
    ensures { result ≡ t ⊟ c }
{
    float::widen(t - c)
}
