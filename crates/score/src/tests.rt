// The tests of the calls: in the order of their numbers, and, for a call at one opacity, all in one go.
ghost use Rattle.std.specs.Prelude.{◌≡◌, true, false, ◌||◌, [], ◌∷◌, ◌≤◌, length};
ghost use Rattle.refusal.specs.Refusals.{lowest, count_if, place_if, opacity_if};
ghost use Rattle.refusal.specs.Lengths.{bad_picture, bad_table};
ghost use Rattle.cover.specs.Cover.{bad_places};
ghost use Rattle.score.specs.declared.Request.TheVariants.{Opacity};
ghost use Rattle.float.specs.Within.{within};
ghost use Rattle.score.specs.Usual.{Usual};
ghost use Rattle.score.specs.Scoring.{
  bad_count,
  bad_opacity,
  span_refusal,
  point_refusal,
  span_sums_refusal,
  point_sums_refusal,
};
ghost use Rattle.refusal.specs.Outcomes.{number_of};

use crate::Request;
use cover::Kind;
use refusal::Refusal;

fn bad_count(request: Request) -> bool
    ensures { result ≡ bad_count request }
{
    match request {
        Request::Opacity(_) => false,
        Request::Levels(n) => grade::sweeps::bad_level_count(n),
    }
}

fn bad_opacity(request: Request, levels: &[f32]) -> bool
    requires { (length levels.now ≡ 64) × (bad_count request ≡ false) }
    ensures { result ≡ bad_opacity request levels.now }
{
    match request {
        Request::Opacity(a) => !float::within(a),
        Request::Levels(n) => grade::sweeps::bad_first_levels(levels, n),
    }
}

// The tests from 3 on.
fn request_tested(kind: Kind, request: Request, levels: &[f32]) -> Result<(), Refusal>
    requires { length levels.now ≡ 64 }
    ensures { number_of result ≡ lowest (count_if (bad_count request) ∷ place_if (bad_places kind) ∷ opacity_if (bad_opacity request levels.now) ∷ []) }
{
    if bad_count(request) {
        return Err(Refusal::Count);
    }
    if cover::bad_places(kind) {
        return Err(Refusal::Place); // goes before the opacity
    }
    if bad_opacity(request, levels) {
        return Err(Refusal::Opacity);
    }
    Ok(())
}

// One of the two pictures has another length. Sizes are tested before.
fn bad_pictures(w: usize, h: usize, target: usize, canvas: usize) -> bool
    requires { (w ≤ 256) × (h ≤ 256) }
    ensures { result ≡ bad_picture w h target || bad_picture w h canvas }
{
    if refusal::bad_picture(w, h, target) {
        return true;
    }
    refusal::bad_picture(w, h, canvas)
}

pub(crate) fn span_tested(
    kind: Kind,
    request: Request,
    levels: &[f32],
    w: usize,
    h: usize,
    table: &[f64],
) -> Result<(), Refusal>
    ensures { number_of result ≡ span_refusal kind request levels.now w h table.now }
{
    if refusal::bad_size(w, h) {
        return Err(Refusal::Size);
    }
    if levels.len() != 64 {
        return Err(Refusal::Length);
    }
    if refusal::bad_table(w, h, table.len()) {
        return Err(Refusal::Length);
    }
    request_tested(kind, request, levels)
}

pub(crate) fn point_tested(
    kind: Kind,
    request: Request,
    levels: &[f32],
    w: usize,
    h: usize,
    target: &[f32],
    canvas: &[f32],
) -> Result<(), Refusal>
    ensures { number_of result ≡ point_refusal kind request levels.now w h target.now canvas.now }
{
    if refusal::bad_size(w, h) {
        return Err(Refusal::Size);
    }
    if levels.len() != 64 {
        return Err(Refusal::Length);
    }
    if bad_pictures(w, h, target.len(), canvas.len()) {
        return Err(Refusal::Length);
    }
    request_tested(kind, request, levels)
}

pub(crate) fn span_sums_tested(kind: Kind, w: usize, h: usize, table: &[f64]) -> Result<(), Refusal>
    ensures { number_of result ≡ span_sums_refusal kind w h table.now }
{
    if refusal::bad_size(w, h) {
        return Err(Refusal::Size);
    }
    if refusal::bad_table(w, h, table.len()) {
        return Err(Refusal::Length);
    }
    if cover::bad_places(kind) {
        return Err(Refusal::Place);
    }
    Ok(())
}

pub(crate) fn point_sums_tested(
    kind: Kind,
    w: usize,
    h: usize,
    target: &[f32],
    canvas: &[f32],
) -> Result<(), Refusal>
    ensures { number_of result ≡ point_sums_refusal kind w h target.now canvas.now }
{
    if refusal::bad_size(w, h) {
        return Err(Refusal::Size);
    }
    if bad_pictures(w, h, target.len(), canvas.len()) {
        return Err(Refusal::Length);
    }
    if cover::bad_places(kind) {
        return Err(Refusal::Place);
    }
    Ok(())
}

// The one opacity that is asked for; for levels a NaN, which passes no test.
pub(crate) fn asked(request: Request) -> f32
    ensures { within result ≡ true → request ≡ Opacity result }
{
    match request {
        Request::Opacity(a) => a,
        Request::Levels(_) => 0.0 / 0.0,
    }
}

// Sizes, levels, opacity and places pass their tests, in one go. Which one fails is left to the tests in order.
fn usual(kind: Kind, opacity: f32, levels: usize, w: usize, h: usize) -> bool
    ensures { result ≡ true → Usual kind opacity levels w h }
{
    if refusal::bad_size(w, h) {
        return false;
    }
    float::within(opacity) & (levels == 64) & !cover::bad_places(kind)
}

pub(crate) fn usual_table(
    kind: Kind,
    opacity: f32,
    levels: usize,
    w: usize,
    h: usize,
    table: usize,
) -> bool
    ensures { result ≡ true → Usual kind opacity levels w h × (bad_table w h table ≡ false) }
{
    if usual(kind, opacity, levels, w, h) {
        return !refusal::bad_table(w, h, table);
    }
    false
}

pub(crate) fn usual_pictures(
    kind: Kind,
    opacity: f32,
    levels: usize,
    w: usize,
    h: usize,
    target: usize,
    canvas: usize,
) -> bool
    ensures { result ≡ true → Usual kind opacity levels w h × (bad_picture w h target || bad_picture w h canvas ≡ false) }
{
    if usual(kind, opacity, levels, w, h) {
        return !bad_pictures(w, h, target, canvas);
    }
    false
}
