// The program crestline, run on a crest of 20 elements with readings on standard input.
#![tactic(auto)]

fn main(rt: HostRuntime) {
    console::run(&rt);
}
