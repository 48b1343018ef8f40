// The picture fitter: one hexadecimal frame a line in, one answer a line out.
#![tactic(auto)]

fn main(rt: HostRuntime) {
    stream::run(&rt);
}
