// The running sums of a score and of a row of the table: target, canvas, their squares and their products over some pixels.
#![tactic(auto)]

ghost use Rattle.std.specs.Prelude.{◌≡◌, ◌+◌, ◌<◌, ◌≤◌, ◌^◌, Float};
ghost use Rattle.sums.specs.Sums.{each3_of, each_of, pixel_sums, NewSays, PlusSays, MinusSays, PushSays, PushWideSays};

#[derive(Clone, Copy)]
pub struct ShapeSums {
    pub s_t: [f64; 3],
    pub s_t2: [f64; 3],
    pub s_c: [f64; 3],
    pub s_c2: [f64; 3],
    pub s_tc: [f64; 3],
    pub count: u32,
}

impl ShapeSums {
    pub fn new() -> Self
        ensures { NewSays result }
    {
        let none = [0.0, 0.0, 0.0];
        ShapeSums {
            s_t: none,
            s_c: none,
            s_t2: none,
            s_c2: none,
            s_tc: none,
            count: 0,
        }
    }

    // Number by number.
    pub fn plus(self, more: ShapeSums) -> Self
        requires { self.count + more.count < 2 ^ 32 }
        ensures { PlusSays self more result }
    {
        each(self, more, self.count + more.count, |x, y| x + y)
    }

    pub fn minus(self, less: ShapeSums) -> Self
        requires { less.count ≤ self.count }
        ensures { MinusSays self less result }
    {
        each(self, less, self.count - less.count, |x, y| x - y)
    }

    // One pixel more: its target and its canvas, red, green and blue.
    pub fn push(self, tr: f32, tg: f32, tb: f32, cr: f32, cg: f32, cb: f32) -> Self
        requires { self.count + 1 < 2 ^ 32 }
        ensures { PushSays self tr tg tb cr cg cb result }
    {
        self.push_wide(
            float::widen(tr),
            float::widen(tg),
            float::widen(tb),
            float::widen(cr),
            float::widen(cg),
            float::widen(cb),
        )
    }

    // The same, of values that are widened already.
    pub fn push_wide(self, tr: f64, tg: f64, tb: f64, cr: f64, cg: f64, cb: f64) -> Self
        requires { self.count + 1 < 2 ^ 32 }
        ensures { PushWideSays self tr tg tb cr cg cb result }
    {
        self.plus(pixel(tr, tg, tb, cr, cg, cb))
    }
}

fn pixel(tr: f64, tg: f64, tb: f64, cr: f64, cg: f64, cb: f64) -> ShapeSums
    ensures { result ≡ pixel_sums tr tg tb cr cg cb }
{
    let s_t = [tr, tg, tb];
    let s_c = [cr, cg, cb];
    let s_t2 = each3(s_t, s_t, |x, y| x * y);
    let s_c2 = each3(s_c, s_c, |x, y| x * y);
    let s_tc = each3(s_t, s_c, |x, y| x * y);
    ShapeSums {
        s_t,
        s_c,
        s_t2,
        s_c2,
        s_tc,
        count: 1,
    }
}

// Two sums number by number, and a count.
fn each<F: Fn(f64, f64) -> f64>(a: ShapeSums, b: ShapeSums, count: u32, f: F) -> ShapeSums
    requires { F.IsAlwaysCallable f }
    ensures { (g : Float → Float → Float) → ((x y z : _) → F.post f x y z → z ≡ g x y) → result ≡ each_of g a b count }
{
    let s_t = each3(a.s_t, b.s_t, &f);
    let s_c = each3(a.s_c, b.s_c, &f);
    let s_t2 = each3(a.s_t2, b.s_t2, &f);
    let s_c2 = each3(a.s_c2, b.s_c2, &f);
    let s_tc = each3(a.s_tc, b.s_tc, &f);
    ShapeSums {
        s_t,
        s_c,
        s_t2,
        s_c2,
        s_tc,
        count,
    }
}

// Channel by channel.
fn each3<F: Fn(f64, f64) -> f64>(a: [f64; 3], b: [f64; 3], f: F) -> [f64; 3]
    requires { F.IsAlwaysCallable f }
    ensures { (g : Float → Float → Float) → ((x y z : _) → F.post f x y z → z ≡ g x y) → result ≡ each3_of g a b }
{
    [f(a[0], b[0]), f(a[1], b[1]), f(a[2], b[2])]
}
