// Narrowing by value, exported for the comparison with the machine's cast: what bits a NaN has there is compiled, not proved.
// Nothing that ships links this crate.
#![tactic(auto)]

ghost use Rattle.probe_float.specs.Probes.{ProbeNarrowSays};

#[unsafe(no_mangle)]
pub extern "C" fn probe_narrow(x: f64) -> f32
    ensures { ProbeNarrowSays x result }
{
    float::narrow(x)
}
