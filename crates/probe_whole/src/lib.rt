// Exports for the differential runs and the benchmark: functions that are not part of the published C face.
// Nothing that ships links this crate. Names start with probe_.
#![tactic(auto)]

ghost use Rattle.probe_whole.specs.Probes.{ProbeIsqrtI64Says, ProbeDivFloorI64Says, ProbeDivCeilI64Says};

#[unsafe(no_mangle)]
pub extern "C" fn probe_isqrt_i64(n: i64) -> i64
    ensures { ProbeIsqrtI64Says n result }
{
    whole::isqrt_i64(n)
}

#[unsafe(no_mangle)]
pub extern "C" fn probe_div_floor_i64(a: i64, b: i64) -> i64
    ensures { ProbeDivFloorI64Says a b result }
{
    whole::div_floor_i64(a, b)
}

#[unsafe(no_mangle)]
pub extern "C" fn probe_div_ceil_i64(a: i64, b: i64) -> i64
    ensures { ProbeDivCeilI64Says a b result }
{
    whole::div_ceil_i64(a, b)
}
