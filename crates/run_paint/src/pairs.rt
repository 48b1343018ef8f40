// Two calls and a build afresh.
use cover::Kind;
use demands::Call;
use picture::Colour;
use std::io;

fn circle(cx: i32, cy: i32, r: i32, opacity: f32, w: usize, h: usize) -> Call {
    let colour = Colour {
        red: 1.0,
        green: 0.5,
        blue: 0.25,
    };
    Call {
        kind: Kind::Circle(cx, cy, r),
        opacity,
        colour,
        w,
        h,
    }
}

fn both(rt: &impl Print, first: Call, second: Call) -> io::Result<()> {
    let mut target = [0.0f32; 36];
    let mut canvas = [0.0f32; 36];
    crate::slopes(&mut target, &mut canvas);
    let mut places = [0.0; 225];
    let mut fresh = [0.0; 225];
    if table::build(&target, &canvas, 4, 3, &mut places).is_ok() {
        let n = demands::two_calls(
            first,
            second,
            4,
            3,
            &target,
            &mut canvas,
            &mut places,
            &mut fresh,
        );
        let first = refusal::number_of(n.first);
        let second = refusal::number_of(n.second);
        let afresh = refusal::number_of(n.afresh);
        print!(rt; "two calls: {first} {second} {afresh}")?;
        crate::verdict(rt, &places, &fresh)?;
    }
    Ok(())
}

pub(crate) fn all(rt: &impl Print) -> io::Result<()> {
    both(rt, circle(1, 0, 1, 0.5, 4, 3), circle(2, 2, 1, 0.25, 4, 3))?;
    both(rt, circle(1, 0, 1, 0.5, 4, 3), circle(2, 2, 1, 2.0, 4, 3))?;
    both(rt, circle(1, 0, 1, 0.5, 3, 4), circle(2, 2, 1, 0.25, 4, 3))?;
    both(
        rt,
        circle(1, -9, 1, 0.5, 4, 3),
        circle(8192, 2, 1, 0.25, 4, 3),
    )
}
