// A session of the dialogue: each refusal of LOAD that files can bring about.
#![tactic(auto)]

fn main(rt: HostRuntime) {
    dialogue::run(&rt);
}
