// An update of 3 rows of 2 pixels: the canvas has changed in every row.
use std::io;

// The rows that differ from the old table's, and whether they are a fresh table's.
fn rows_redone(
    rt: &impl Print,
    old: &[f64; 135],
    new: &[f64; 135],
    fresh: &[f64; 135],
) -> io::Result<()> {
    let rows = old
        .chunks_exact(45)
        .zip(new.chunks_exact(45))
        .zip(fresh.chunks_exact(45));
    for (y, ((old, new), fresh)) in rows.enumerate() {
        if figures::differing(new, old) != 0 {
            print!(rt; " {y}")?;
            if figures::differing(new, fresh) != 0 {
                print!(rt; " (not as built)")?;
            }
        }
    }
    Ok(())
}

fn update(rt: &impl Print, ymin: i32, ymax: i32) -> io::Result<()> {
    let mut target = [0.0f32; 18];
    let mut canvas = [0.0f32; 18];
    let mut changed = [0.0f32; 18];
    figures::slope(&mut target, 0.0, 0.05);
    figures::slope(&mut canvas, 0.9, -0.04);
    figures::slope(&mut changed, 0.1, 0.03);
    let mut old = [0.0; 135];
    let _ = table::build(&target, &canvas, 2, 3, &mut old);
    let mut new = old;
    let answer = table::update_canvas_rows(&target, &changed, 2, 3, &mut new, ymin, ymax);
    let mut fresh = [0.0; 135];
    let _ = table::build(&target, &changed, 2, 3, &mut fresh);
    print!(rt;
        "update {ymin} to {ymax}: {}, redone",
        refusal::number_of(answer)
    )?;
    rows_redone(rt, &old, &new, &fresh)?;
    println!(rt)
}

pub(crate) fn all(rt: &impl Print) -> io::Result<()> {
    for (ymin, ymax) in [
        (-4, -1),
        (3, 5),
        (i32::MIN, i32::MAX),
        (2, 1),
        (0, 0),
        (1, i32::MIN),
        (i32::MAX, -1),
        (1, 2),
    ] {
        update(rt, ymin, ymax)?;
    }
    Ok(())
}
