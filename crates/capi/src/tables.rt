// Exports on the table of sums: build, update.
ghost use Rattle.capi.specs.Tables.{SillbadgerBuildSays, SillbadgerUpdateSays};

// Writes the table of a target and a canvas.
#[unsafe(no_mangle)]
pub extern "C" fn sillbadger_build(
    w: u32,
    h: u32,
    target: &[f32],
    canvas: &[f32],
    table: &mut [f64],
) -> u8
    ensures { SillbadgerBuildSays w h target.now canvas.now table.old result table.new }
{
    refusal::number_of(table::build(target, canvas, w as usize, h as usize, table))
}

// Rewrites the canvas's sums in rows ymin to ymax, any numbers; with a negative ymax in every row from ymin on.
#[unsafe(no_mangle)]
pub extern "C" fn sillbadger_update(
    w: u32,
    h: u32,
    target: &[f32],
    canvas: &[f32],
    ymin: i32,
    ymax: i32,
    table: &mut [f64],
) -> u8
    ensures { SillbadgerUpdateSays w h target.now canvas.now ymin ymax table.old result table.new }
{
    refusal::number_of(table::update_canvas_rows(
        target, canvas, w as usize, h as usize, table, ymin, ymax,
    ))
}
