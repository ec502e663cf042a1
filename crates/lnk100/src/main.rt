// The program `lnk100`: the manual's dialogue on standard input and output. Its stored session is that of the dialogue's paper,
// MAIN and the library of document 01, then commands in lower case, MAIN alone, and the manual's VCADD.
#![tactic(auto)]

fn main(rt: HostRuntime) {
    dialogue::start(&rt);
}
