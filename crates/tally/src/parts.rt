// The tests of a part of a picture, where all before it was tested.
ghost use Rattle.std.specs.Prelude.{◌≡◌, ◌≤◌, T, length, take};
ghost use Rattle.float.specs.Within.{all_within};

// All before `from` were within 0..1.
pub(crate) fn part_within(picture: &[f32], from: usize, to: usize) -> bool
    requires { (from ≤ to) × (to ≤ length picture.now) × T (all_within (take from picture.now)) }
    ensures { result ≡ all_within (take to picture.now) }
{
    float::all_within(&picture[from..to])
}
