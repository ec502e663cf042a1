// The program with an argument: it says on standard error how it is used, reads no command, and writes nothing to standard output.
#![tactic(auto)]

fn main(rt: HostRuntime) {
    dialogue::start(&rt);
}
