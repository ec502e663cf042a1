// A session of the dialogue: bytes that are no text, and an input that ends where an operand is due, in a last line with no LF.
#![tactic(auto)]

fn main(rt: HostRuntime) {
    dialogue::run(&rt);
}
