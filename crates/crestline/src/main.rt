// The program: station, offset and residual of each reading on a crest.
#![tactic(auto)]

fn main(rt: HostRuntime) {
    console::run(&rt);
}
