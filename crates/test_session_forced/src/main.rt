// A session of the dialogue: all that needs no LOAD, with forced symbols.
#![tactic(auto)]

fn main(rt: HostRuntime) {
    dialogue::run(&rt);
}
