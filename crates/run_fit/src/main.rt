// The program `fit` on a long script of frames, sound and damaged, with the answers of the published Rust (rust/frames-script).
#![tactic(auto)]

fn main(rt: HostRuntime) {
    stream::run(&rt);
}
