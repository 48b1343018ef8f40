// The export of refinement. A list crosses as three slices: of each shape its number of coordinates (3, 6, 8; among candidates 0
// is nothing), eight places for them, and four floats: opacity, red, green, blue.
ghost use Rattle.std.specs.Prelude.{◌≡◌, ◌≤◌, length};
ghost use Rattle.refusal.specs.Outcomes.{number};
ghost use Rattle.crossing.specs.Crossed.{Fits, shapes_of, offers_of};
ghost use Rattle.capi.specs.Refining.{too_many, refine_refusal, Refines, SillbadgerRefineSays};

use crate::SillbadgerAnswer;
use refusal::Refusal;

// A list is too long to be read: then only 1 and 2 are lower.
fn long_refusal(w: u32, h: u32, target: usize, first: usize, second: usize) -> Refusal
    ensures { number result ≡ too_many w h target first second }
{
    if refusal::bad_size(w as usize, h as usize) {
        return Refusal::Size;
    }
    if refusal::bad_picture(w as usize, h as usize, target) {
        return Refusal::Length;
    }
    if refusal::bad_picture(w as usize, h as usize, first) {
        return Refusal::Length;
    }
    if refusal::bad_picture(w as usize, h as usize, second) {
        return Refusal::Length;
    }
    Refusal::Count
}

// Lists that can be read.
fn refine_lists(
    w: u32,
    h: u32,
    red: f32,
    green: f32,
    blue: f32,
    sizes: &mut [u8],
    places: &mut [i32],
    paints: &mut [f32],
    offered_sizes: &[u8],
    offered_places: &[i32],
    offered_paints: &[f32],
    passes: u32,
    target: &[f32],
    first: &mut [f32],
    second: &mut [f32],
) -> SillbadgerAnswer
    requires list { (length sizes.old ≤ 64) × Fits sizes.old places.old paints.old }
    requires offers { (length offered_sizes.now ≤ 1024) × Fits offered_sizes.now offered_places.now offered_paints.now }
    ensures { Refines w h red green blue (shapes_of sizes.old places.old paints.old) (offers_of offered_sizes.now offered_places.now offered_paints.now) passes target.now
        (refine_refusal w h red green blue (shapes_of sizes.old places.old paints.old) (offers_of offered_sizes.now offered_places.now offered_paints.now) passes target.now (length first.old) (length second.old))
        sizes.old places.old paints.old first.old second.old
        result sizes.new places.new paints.new first.new second.new }
{
    let list = crossing::lists::read_list(sizes, places, paints);
    let offers = crossing::lists::read_offers(offered_sizes, offered_places, offered_paints);
    let r = refine::refine_shapes(
        list,
        offers,
        passes as usize,
        red,
        green,
        blue,
        w as usize,
        h as usize,
        target,
        first,
        second,
    );
    if let Some(why) = r.refusal {
        return crate::refused(why.number());
    }
    let shapes = r.shapes;
    crossing::lists::write_list(shapes, sizes, places, paints);
    let mut a = crate::refused(0);
    a.passes = r.passes as u64;
    a.trials = r.trials as u64;
    a.acceptances = r.acceptances as u64;
    a
}

// Refines the list over the background: passes, trials, acceptances. The list comes back in its slices; both work pictures end
// holding it drawn.
#[unsafe(no_mangle)]
pub extern "C" fn sillbadger_refine(
    w: u32,
    h: u32,
    red: f32,
    green: f32,
    blue: f32,
    sizes: &mut [u8],
    places: &mut [i32],
    paints: &mut [f32],
    offered_sizes: &[u8],
    offered_places: &[i32],
    offered_paints: &[f32],
    passes: u32,
    target: &[f32],
    first: &mut [f32],
    second: &mut [f32],
) -> SillbadgerAnswer
    ensures { SillbadgerRefineSays w h red green blue sizes.old places.old paints.old offered_sizes.now offered_places.now offered_paints.now passes target.now first.old second.old
        result sizes.new places.new paints.new first.new second.new }
{
    if crossing::lists::bad_list(sizes, places, paints, false) {
        return crate::refused(crate::no_shape(w, h).number());
    }
    if crossing::lists::bad_list(offered_sizes, offered_places, offered_paints, true) {
        return crate::refused(crate::no_shape(w, h).number());
    }
    if 64 < sizes.len() {
        return crate::refused(long_refusal(w, h, target.len(), first.len(), second.len()).number());
    }
    if 1024 < offered_sizes.len() {
        return crate::refused(long_refusal(w, h, target.len(), first.len(), second.len()).number());
    }
    refine_lists(
        w,
        h,
        red,
        green,
        blue,
        sizes,
        places,
        paints,
        offered_sizes,
        offered_places,
        offered_paints,
        passes,
        target,
        first,
        second,
    )
}
